//! 2Q on three plain lists.

mod queue;
mod queues;

ghost use Rattle.std.specs.Prelude.{◌≡◌, ◌≢◌, ◌≤◌, ◌↔◌, [], length, true, Some, None, IfOk, OnErr};
ghost use Rattle.cb_twoq.specs.Pages.{has};
ghost use Rattle.cb_twoq.specs.Queues.{TwoQState, empty, reference, forget, members_of};
ghost use Rattle.cb_twoq.specs.Law.{Chooses, IsFull, Forgets};

use crate::chooser::{ChooseFault, Chooser};
use crate::lists::Lists;
use crate::plain::queue::copied;
use crate::plain::queues::PlainQueues;
use cb_page::{Limits, PageNo, PageSet};
pub use queue::{is_on, oldest_unfixed, take_off};
use std::alloc::{AllocError, Global};
use std::marker::Model;

/// The full version of 2Q on three plain lists. It passes over fixed pages.
///
/// In contracts a `PlainTwoQ` is its settings and its three lists, newest first. `new` takes all
/// its memory; no later call takes any. Each reference walks through the lists.
pub struct PlainTwoQ {
    queues: PlainQueues,
}

// By hand: see docs/PROVING.md, "Drops".
impl Drop for PlainTwoQ {
    fn drop(self) {
        let PlainTwoQ { queues: _ } = self;
    }
}

impl Model for PlainTwoQ {
    ghost use Rattle.cb_twoq.specs.Queues.{TwoQState, AreQueues};

    ghost Value = { TwoQState };

    ghost view = { λ two_q. two_q.queues };

    ghost invariant = { λ two_q. AreQueues two_q.queues };
}

impl PlainTwoQ {
    /// Empty lists, for so many slots. A1in gives up pages first while it is longer than `kin`, and
    /// A1out has at most `kout` pages.
    pub fn new(
        alloc: Global,
        slots: usize,
        kin: usize,
        kout: usize,
    ) -> Result<PlainTwoQ, AllocError>
        ensures { IfOk result (λ two_q. two_q ≡ empty slots kin kout) }
    {
        Ok(PlainTwoQ {
            queues: PlainQueues::new(alloc, slots, kin, kout)?,
        })
    }

    /// A copy of the lists, newest page first.
    pub fn lists(&self, alloc: Global) -> Result<Lists, AllocError>
        ensures a1in { IfOk result (λ lists. lists.a1in.items ≡ self.now.a1in) }
        ensures am { IfOk result (λ lists. lists.am.items ≡ self.now.am) }
        ensures a1out { IfOk result (λ lists. lists.a1out.items ≡ self.now.a1out) }
    {
        let queues = &self.queues;
        Ok(Lists {
            a1in: copied(alloc, &queues.a1in)?,
            am: copied(alloc, &queues.am)?,
            a1out: copied(alloc, &queues.a1out)?,
        })
    }
}

impl Chooser for PlainTwoQ {
    ghost members = { members_of };

    ghost slots = { λ two_q. two_q.slots };

    ghost refers = { λ old page fixed gone new. reference page fixed old ≡ Some (gone, new) };

    ghost takes_out = { λ old page new. new ≡ forget page old };

    fn make(alloc: Global, limits: &Limits) -> Result<PlainTwoQ, AllocError>
        ensures two_q { IfOk result (λ two_q.
            two_q ≡ empty limits.now.slots limits.now.kin limits.now.kout) }
        ensures members { IfOk result (λ two_q. members_of two_q ≡ []) }
        ensures slots { IfOk result (λ two_q. two_q.slots ≡ limits.now.slots) }
    {
        PlainTwoQ::new(alloc, limits.slots(), limits.kin(), limits.kout())
    }

    fn reference(&mut self, page: PageNo, fixed: &PageSet) -> Result<Option<PageNo>, ChooseFault>
        ensures two_q { IfOk result (λ gone.
            reference page fixed.now self.old ≡ Some (gone, self.new)) }
        ensures none { (result ≡ Err ChooseFault.Full)
            ↔ (reference page fixed.now self.old ≡ None) }
        // all room was made by `new`
        ensures memory { result ≢ Err ChooseFault.Memory }
        ensures ok { IfOk result (λ gone. Chooses self.old.slots fixed.now
            (members_of self.old) page gone (members_of self.new)) }
        ensures member { has (members_of self.old) page ≡ true → result ≡ Ok None }
        ensures full { (result ≡ Err ChooseFault.Full)
            ↔ IsFull self.old.slots fixed.now (members_of self.old) page }
        ensures err { OnErr result (self.new ≡ self.old) }
        ensures within { length (members_of self.new) ≤ self.new.slots }
        ensures slots { self.new.slots ≡ self.old.slots }
    {
        if self.queues.renew(page) {
            return Ok(None);
        }
        match self.queues.reclaim(fixed) {
            Some(slot) => Ok(self.queues.enter(page, slot)),
            None => Err(ChooseFault::Full),
        }
    }

    fn forget(&mut self, page: PageNo)
        ensures two_q { self.new ≡ forget page self.old }
        ensures forgets { Forgets (members_of self.old) page (members_of self.new) }
        ensures slots { self.new.slots ≡ self.old.slots }
    {
        self.queues.forget(page);
    }
}
