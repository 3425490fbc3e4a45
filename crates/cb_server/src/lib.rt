//! A page server with callback locking. It takes frames from anyone, and its directory, its commits
//! and its deadlock test are right, whatever comes.
//!
//! In contracts a [`Server`] is the protocol's server: each call answers and does what the
//! protocol's tables say, whatever calls went before.
//!
//! The laws say what holds, whatever frames came. An example that is run as a test is
//! `all_pages_are_committed` in `cb_layer_tests`.
#![tactic(auto)]

mod engine;
pub mod laws;
mod server;
mod server_fault;

pub use server::Server;
pub use server_fault::ServerFault;
