//! A server and a client for a host that isn't written in Rattle. The host hands bytes in, and
//! fetches the frames that they send one by one.
//!
//! An [`Object`] is what one handle holds: nothing, the rows of a store that is to be opened, a
//! server or a client. A call that doesn't exist for what it holds is refused by a
//! [`HandleRefusal`], and no call asks anything of its caller. The frames that a call sends are
//! kept until they are fetched; until then, calls that would send more are refused. A call that
//! succeeds therefore needs no memory to keep its frames, and nothing is lost if a growth is
//! refused.
#![tactic(auto)]

mod object;
mod opening;
mod polled_client;
mod polled_server;
mod refusal;
mod said;
mod texts;

pub use object::Object;
pub use opening::Opening;
pub use polled_client::PolledClient;
pub use polled_server::PolledServer;
pub use refusal::HandleRefusal;
pub use said::Said;
pub use texts::fault_text;
