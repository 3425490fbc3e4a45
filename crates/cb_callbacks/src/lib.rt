//! Who waits for a page, and what is done for them: the queues of asks, over what a page server
//! knows of its clients.
//!
//! [`Callbacks`] settles the queues (callback locking: Franklin, Carey and Livny, TODS 1997). A
//! first ask that can be met is granted or permitted. If it can't be met, whoever is in its way is
//! called back, and a client that lies on a cycle of waits is doomed. Every step is a step of the
//! protocol's server. The deadlock test is answered by a view of who waits for whom, which is kept
//! up to date as asks come and go.
//!
//! It has two laws. An ask that enters a queue sends one message at most
//! ([`an_ask_sends_at_most_one`]). In the middle of a step a grant number is left for each ask to
//! read that waits ([`grants_are_left`]). An example that is run as a test is
//! `write_after_callback` in `cb_layer_tests`.
#![tactic(auto)]

mod callbacks;
mod laws;

pub use callbacks::Callbacks;
pub use cb_asks::{Ask, Asks, Fate, Marks, Queue, Waiting};
pub use laws::{an_ask_sends_at_most_one, grants_are_left};
