//! One committed transaction.

use cb_commit::Hollow;
use cb_page::{ClientNo, Incarnation, PageNo, TxnNo, Version};
use std::alloc::Global;

/// A page that a committed transaction read, at its version then.
#[derive(Clone, Copy, Debug, PartialEq, Eq)]
pub struct Read {
    pub page: PageNo,
    pub version: Version,
}

/// A committed transaction. Its number is the opening store's and its place in the history, counted
/// from 1.
#[derive(Debug, Drop)]
pub struct Entry {
    pub client: ClientNo,
    pub incarnation: Incarnation,
    pub txn: TxnNo,
    /// The pages that it read.
    pub reads: Vec<Read>,
    /// The pages that it wrote.
    pub writes: Vec<PageNo>,
}

impl Hollow for Entry {
    fn hollow(&mut self, alloc: Global) {
        self.reads = Vec::new(alloc);
        self.writes = Vec::new(alloc);
    }
}
