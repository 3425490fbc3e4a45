//! What a client consists of, and how the messages of its server change it.
//!
//! In contracts a [`ClientCore`] is the protocol's client, for every list of operations that its
//! transaction may have done (`client_in`). It takes each message as the protocol's table of
//! messages says. The invariant of a client between two calls is a clause that each function asks
//! for and keeps. It isn't the type's, since an application's call changes the fields one by one.
//!
//! The protocol's laws of a client alone hold of each (`IsClient`); `cb_client` has them by name.
//! An example that is run as a test is `client_over_any_chooser` in `cb_layer_tests`.
#![tactic(auto)]

mod client_core;
mod stage;
mod writes;

pub use client_core::{ClientCore, GrantCase, Received};
pub use stage::{ClientStatus, Outcome, PendingAsk, Stage};
pub use writes::written_so_far;
