//! Which pages a client's transaction reads, and what it owes the server at its end.
//!
//! A page that the server calls back while the transaction reads it is in use: the client says so
//! at once and gives the copy back when the transaction ends (Franklin, Carey and Livny, TODS
//! 1997). [`ReadLocks`] knows which pages are locked, and what is due for each. A [`CallbackDue`]
//! stands for a callback that was taken and has no answer yet. It can't be copied or dropped. The
//! callback of a copy is therefore answered exactly once, in the name of the client and incarnation
//! that it was for. The callback of a permission alone is answered at most once, since
//! [`CallbackDue::dropped`] spends it without a frame.
//!
//! What is due for a page in use is handed out once, at the end of its transaction. An example that
//! is run as a test is `pages_in_use_are_given_back_at_the_end` in `cb_layer_tests`.
#![tactic(auto)]

mod callback_due;
mod dues;
mod read_locks;

pub use callback_due::CallbackDue;
pub use read_locks::ReadLocks;
