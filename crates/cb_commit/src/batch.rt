//! What is to be written to disk next.
ghost use Rattle.std.specs.Prelude.{◌≡◌};
ghost use Rattle.cb_commit.specs.Batches.{IsBatch};

use cb_page::{CommitNo, Page, PageNo, Version};
use std::marker::Model;

/// A page as it is to be written.
#[derive(Drop)]
pub struct BatchPage {
    pub page: PageNo,
    pub version: Version,
    pub bytes: Page,
}

/// Pages to be written, and the number of the last commit in them. [`crate::Commits::batch`] makes
/// it.
///
/// The pages rise, and no version is above the number.
pub struct Batch {
    number: CommitNo,
    pages: Vec<BatchPage>,
}

// By hand: see docs/PROVING.md, "Drops".
impl Drop for Batch {
    fn drop(self) {
        let Batch {
            number: _,
            pages: _,
        } = self;
    }
}

impl Model for Batch {
    ghost use Rattle.cb_commit.specs.Batches.{BatchState, IsBatch};

    ghost Value = { BatchState };

    ghost view = { λ b. record { number = b.number; pages = b.pages.items } };

    ghost invariant = { λ b. IsBatch (record { number = b.number; pages = b.pages.items }) };
}

impl Batch {
    pub(crate) fn new(number: CommitNo, pages: Vec<BatchPage>) -> Batch
        requires { IsBatch (record { number = number; pages = pages.items }) }
        ensures { result ≡ record { number = number; pages = pages.items } }
    {
        Batch { number, pages }
    }

    /// The number of the last commit in it.
    pub fn number(&self) -> CommitNo
        ensures value { result ≡ self.now.number }
        ensures sound { IsBatch self.now }
    {
        self.number
    }

    /// The pages, rising.
    pub fn pages(&self) -> &[BatchPage]
        ensures value { result.now ≡ self.now.pages }
        ensures sound { IsBatch self.now }
    {
        self.pages.as_slice()
    }
}
