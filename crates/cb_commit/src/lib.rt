//! What a server has committed: the page store, the list of commits that made it, and how much of
//! it is on disk.
//!
//! A [`Store`] is the pages with their versions and the number of the last commit in it.
//! [`Commits`] keeps the opening store, the store, every commit since, and the number of the last
//! commit that is on disk: the store is always the opening store with the commits written over it,
//! in order. [`Commits::batch`] says what is to be written next. Once a batch is on disk,
//! [`Commits::flushed`] returns a Done for each commit in it that wasn't reported yet.
//!
//! The commits are a [`Past`], a list that grows at its end, and whose first items may leave memory
//! once nobody needs them. In contracts they stay: contracts see all items that there ever were,
//! beside how many of them were forgotten. A law of the whole list therefore holds, whatever part
//! of it memory has.
//!
//! The invariant of [`Commits`] is that the store is the fold of the commits. A batch brings any
//! flushed state to the present one. An example that is run as a test is `batches_and_dones` in
//! `cb_layer_tests`.
#![tactic(auto)]

mod batch;
mod commit;
mod commits;
mod past;
mod store;

pub use batch::{Batch, BatchPage};
pub use commit::Commit;
pub use commits::Commits;
pub use past::{Hollow, Past};
pub use store::{Store, StoredPage};
