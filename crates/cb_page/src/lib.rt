//! The types that every layer of the page server uses: numbers, pages, sets of pages and of
//! clients, and the limits of a store.
//!
//! A store has a fixed count of clients and of pages, and one page size. [`Limits`] has these
//! numbers. A value of any other type here is in the range that some limits allow.
#![tactic(auto)]

mod client_set;
mod counts;
mod limits;
mod numbers;
mod page;
mod page_set;

pub use client_set::ClientSet;
pub use counts::recount;
pub use limits::{LimitFault, Limits};
pub use numbers::{ClientNo, CommitNo, GrantNo, Incarnation, MAX_NUMBER, PageNo, TxnNo, Version};
pub use page::Page;
pub use page_set::PageSet;
