//! One incarnation of a client. It opens transactions, reads pages that it holds without a message,
//! asks to write, commits, and gives copies back when they are called back.
//!
//! In contracts a [`Client`] is the protocol's client, for every list of operations that its
//! transaction may have done. Each call answers and does what the protocol's table of calls says,
//! and takes each message as the table of messages says.
//!
//! The laws say what holds whatever was called and received. An example that is run as a test is
//! `references_of_a_client` in `cb_layer_tests`, beside a chooser of a caller's own and its proof.
#![tactic(auto)]

mod answers;
mod client;
mod client_fault;
mod laws;

pub use answers::{ReadAnswer, WantAnswer};
pub use cb_client_core::{ClientStatus, Outcome, PendingAsk, Stage};
pub use client::Client;
pub use client_fault::ClientFault;
pub use laws::{callbacks_are_answered, downgrades_are_answered, in_use_is_given_back};
