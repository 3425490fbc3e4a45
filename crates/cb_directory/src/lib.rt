//! Who has a copy of which page, and who may write it.
//!
//! The directory of a server with callback locking (Franklin, Carey and Livny, TODS 1997): a row
//! for each copy that a client has, with the copy's grant, and for each page the write holder, the
//! client that has its write permission. The numbers of grants, and the transaction for which a
//! permission was given, are additions of this project.
//!
//! The directory rule is the type's invariant: if a page has a write holder, no other client has a
//! row of it, and a client has at most one row of a page. The calls that read hand the rule out,
//! except [`Directory::tag`]. An example that is run as a test is `rows_and_permissions` in
//! `cb_layer_tests`.
#![tactic(auto)]

mod directory;
mod lines;
mod row_tables;

pub use directory::Directory;
