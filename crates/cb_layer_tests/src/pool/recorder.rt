//! A chooser that keeps the list of its calls, and hands each on to another.

ghost use Rattle.std.specs.Prelude.{◌≡◌};

use cb_page::{Limits, PageNo, PageSet};
use cb_twoq::{ChooseFault, Chooser};
use std::alloc::{AllocError, Global};
use std::marker::Model;

/// A call of a chooser.
#[derive(Clone, Copy, PartialEq, Eq)]
pub(crate) enum Called {
    Reference(PageNo),
    Forget(PageNo),
}

/// A chooser that keeps the list of its calls. In contracts it is the other chooser alone.
#[derive(Drop)]
pub(crate) struct Recorder<Q: Chooser> {
    chooser: Q,
    calls: Vec<Called>,
}

impl<Q: Chooser> Model for Recorder<Q> {
    ghost Value = { Q };

    ghost view = { λ recorder. recorder.chooser };
}

impl<Q: Chooser> Recorder<Q> {
    /// Hands its calls on to a chooser.
    pub(crate) fn new(alloc: Global, chooser: Q) -> Recorder<Q>
        ensures { result ≡ chooser }
    {
        Recorder {
            chooser,
            calls: Vec::new(alloc),
        }
    }

    /// Adds a call that isn't made, where memory is had for it.
    pub(crate) fn note(&mut self, call: Called)
        ensures { self.new ≡ self.old }
    {
        let _kept = self.calls.push(call);
    }

    /// The calls so far, the oldest first.
    pub(crate) fn calls(&self) -> &[Called] {
        self.calls.as_slice()
    }
}

impl<Q: Chooser> Chooser for Recorder<Q> {
    ghost members = { Q.members };

    ghost slots = { Q.slots };

    ghost refers = { Q.refers };

    ghost takes_out = { Q.takes_out };

    fn make(alloc: Global, limits: &Limits) -> Result<Recorder<Q>, AllocError> {
        Ok(Recorder::new(alloc, Q::make(alloc, limits)?))
    }

    fn reference(&mut self, page: PageNo, fixed: &PageSet) -> Result<Option<PageNo>, ChooseFault> {
        self.note(Called::Reference(page));
        self.chooser.reference(page, fixed)
    }

    fn forget(&mut self, page: PageNo) {
        self.note(Called::Forget(page));
        self.chooser.forget(page);
    }
}
