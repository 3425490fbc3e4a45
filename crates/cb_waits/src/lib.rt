//! Who waits for whom, and who lies on a cycle of waits.
//!
//! The waits-for graph of the textbooks (Bernstein, Hadzilacos and Goodman, Concurrency Control and
//! Recovery in Database Systems, chapter 3), whose cycles are deadlocks, over at most 32 clients:
//! for each client the set of those that it waits for. Whoever owns the queues of asks keeps the
//! [`View`] up to date, row by row, as asks enter and leave them.
//!
//! Its law is [`waits_by_place`]: a view with an edge for each place in a queue gives the same
//! answers as the protocol's deadlock test. An example that is run as a test is `cycle_of_three` in
//! `cb_layer_tests`.
#![tactic(auto)]

mod laws;
mod view;

pub use laws::waits_by_place;
pub use view::{View, closes_cycle};
