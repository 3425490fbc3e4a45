//! The page server and the caching client for other languages. A program holds a handle, hands
//! bytes in, and polls for bytes that go out.
//!
//! A handle holds nothing, the rows of a store that is to be opened, a server or a client. Every
//! export is total: it asks nothing of its caller but valid memory, and tests what it is given. It
//! returns 0, or the number of a fault (`rughvadi_fault_text`), after which everything is as
//! before. `rughvadi_next` fetches the frames that a call sends, one by one, before the next call
//! that sends any.
//!
//! A handle may go to another thread (`handles_cross`), and has one call at a time.
#![tactic(auto)]

mod alone;
mod answers;
mod client;
mod crossing;
mod frames;
mod held;
mod limits;
mod loose;
mod opening;
mod server;

pub use alone::{FrameHead, rughvadi_fault_text, rughvadi_frame_read, rughvadi_version};
pub use client::{
    rughvadi_client_begin, rughvadi_client_drop, rughvadi_client_finish, rughvadi_client_hello,
    rughvadi_client_last, rughvadi_client_may_write, rughvadi_client_new, rughvadi_client_peek,
    rughvadi_client_read, rughvadi_client_status, rughvadi_client_want, rughvadi_client_write,
};
pub use crossing::handles_cross;
pub use frames::{rughvadi_again, rughvadi_free, rughvadi_next, rughvadi_take};
pub use held::Handle;
pub use limits::StoreLimits;
pub use opening::{
    rughvadi_open_begin, rughvadi_open_life, rughvadi_open_row, rughvadi_open_serve,
};
pub use server::{
    rughvadi_server_batch, rughvadi_server_can_flush, rughvadi_server_flushed,
    rughvadi_server_forget, rughvadi_server_incarnation, rughvadi_server_leave,
    rughvadi_server_new, rughvadi_server_page,
};
