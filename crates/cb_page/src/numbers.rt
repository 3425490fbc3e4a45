//! Numbers, each a type of its own, so that a client's number is never taken for a page's.
//!
//! In contracts each of them is the plain number.

mod client;
mod commit;
mod grant;
mod incarnation;
mod page;
mod txn;
mod version;

pub use client::ClientNo;
pub use commit::CommitNo;
pub use grant::GrantNo;
pub use incarnation::Incarnation;
pub use page::PageNo;
pub use txn::TxnNo;
pub use version::Version;

/// The greatest number of a grant, a transaction, an incarnation or a commit, and the greatest
/// version: 2^62 - 1.
pub const MAX_NUMBER: u64 = (1 << 62) - 1;
