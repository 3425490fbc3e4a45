//! A page server with a mailbox for each of its clients.
//!
//! The server's answers to a frame go into its clients' mailboxes, behind what they haven't
//! collected yet: to each client what is for its current incarnation, in order. The cost of a step
//! grows with what it sends alone, whatever the mailboxes hold.
#![tactic(auto)]

mod dispatcher;
mod mailbox;
mod mailboxes;

pub use dispatcher::Dispatcher;
