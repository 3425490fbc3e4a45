//! What a page server knows of its clients and pages, who waits for a page, and who uses a page
//! that was called back.
//!
//! [`ServerState`] is all of this as one struct, with a method for each change that the protocol's
//! server makes. Some methods also send a message: a permission, a copy or an AbortNow goes out
//! with its change. A Callback or a Downgrade, which changes nothing, has a method too (callback
//! locking: Franklin, Carey and Livny, TODS 1997). Contracts tell each method by the definitions of
//! `cb_protocol`: `server_of` of a state is that crate's server.
//!
//! A reader names the part: `state.directory.row(client, page)`. There is a method only for a
//! question that no single part answers in the protocol's words. Three things are left to the crate
//! above: whether a client waits for itself, which message is sent when, and the note at the first
//! ask that a Callback or a Downgrade was sent for it.
#![tactic(auto)]

mod server_state;

pub use server_state::ServerState;
