//! The cache of a client: the copies of pages that it was granted, their bytes in its pool, what
//! its transaction did with them, and what it gives back when the transaction ends.
//!
//! Each change is a step of the protocol's client (`Does`), or begins the client's next
//! incarnation, and keeps what holds of all copies (`AreCopies`). The end of a transaction
//! ([`commit_ends`], [`drop_ends`]) sends and leaves what the protocol's end over all pages does
//! (`Ends`). Examples that are run as tests are `client_over_any_chooser` and, of 300 pages given
//! back, `greatest_client` in `cb_layer_tests`.
#![tactic(auto)]

mod cache;
mod ending;
mod page_end;
mod table;
mod written;

pub use cache::Cache;
pub use ending::{commit_ends, drop_ends};
pub use table::PageCopy;
