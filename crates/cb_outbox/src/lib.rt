//! What a page server sends while it takes a step: frames in order, for which all memory is taken
//! beforehand. The laws here say how the protocol's steps follow one another.
#![tactic(auto)]

mod laws;
mod outbox;

pub use laws::{pages_are_settled_by_decisions, steps_follow_steps};
pub use outbox::Outbox;
