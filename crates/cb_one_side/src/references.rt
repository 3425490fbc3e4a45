//! The references to pages that a client's chooser is called for.

ghost use Rattle.std.specs.Prelude.{◌≡◌, IfOk};

use cb_page::{Limits, PageNo, PageSet};
use cb_twoq::{ChooseFault, Chooser};
use std::alloc::{AllocError, Global};
use std::marker::Model;

/// A chooser that hands each call on to another, and keeps the list of the references that were
/// not refused, as far as it has room. In contracts it is the other chooser alone.
#[derive(Drop)]
pub(crate) struct Noting<Q: Chooser> {
    chooser: Q,
    made: Vec<PageNo>,
}

impl<Q: Chooser> Model for Noting<Q> {
    ghost Value = { Q };

    ghost view = { λ noting. noting.chooser };
}

impl<Q: Chooser> Noting<Q> {
    /// With room for that many references.
    pub(crate) fn new(alloc: Global, chooser: Q, room: usize) -> Result<Noting<Q>, AllocError>
        ensures { IfOk result (λ noting. noting ≡ chooser) }
    {
        Ok(Noting {
            chooser,
            made: Vec::with_capacity(alloc, room)?,
        })
    }

    /// The pages referred to so far, the first one first.
    pub(crate) fn made(&self) -> &[PageNo] {
        self.made.as_slice()
    }
}

impl<Q: Chooser> Chooser for Noting<Q> {
    ghost members = { Q.members };

    ghost slots = { Q.slots };

    ghost refers = { Q.refers };

    ghost takes_out = { Q.takes_out };

    fn make(alloc: Global, limits: &Limits) -> Result<Noting<Q>, AllocError> {
        Noting::new(alloc, Q::make(alloc, limits)?, 0)
    }

    fn reference(&mut self, page: PageNo, fixed: &PageSet) -> Result<Option<PageNo>, ChooseFault> {
        let gone = self.chooser.reference(page, fixed)?;
        let _kept = self.made.push(page);
        Ok(gone)
    }

    fn forget(&mut self, page: PageNo) {
        self.chooser.forget(page);
    }
}
