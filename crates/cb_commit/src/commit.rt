//! One commit.
ghost use Rattle.std.specs.Prelude.{◌≡◌};
ghost use Rattle.cb_commit.specs.History.{done_of};

use crate::Hollow;
use cb_frame::{Frame, ShortBody, ShortFrame, Writes};
use cb_page::{ClientNo, CommitNo, Incarnation, TxnNo};
use std::alloc::Global;

/// A transaction that was committed, with the pages that it wrote.
#[derive(Drop)]
pub struct Commit {
    pub client: ClientNo,
    pub incarnation: Incarnation,
    pub txn: TxnNo,
    /// Its place in the order of all commits.
    pub number: CommitNo,
    pub writes: Writes,
}

impl Commit {
    /// The Done that tells the client of it.
    pub(crate) fn done(&self) -> Frame
        ensures { result ≡ done_of self.now }
    {
        ShortFrame {
            client: self.client,
            incarnation: self.incarnation,
            body: ShortBody::Done {
                txn: self.txn,
                number: self.number,
            },
        }
        .into()
    }
}

impl Hollow for Commit {
    fn hollow(&mut self, alloc: Global) {
        self.writes = Writes::from_vec(Vec::new(alloc));
    }
}
