//! 2Q on an `lru` cache and two `indexmap` sets.

mod newcomers;
mod places;
mod queues;
mod steps;

ghost use Rattle.std.specs.Prelude.{◌≡◌, ◌≤◌, ◌↔◌, [], length, reverse, true, Some, None, IfOk};
ghost use Rattle.std.specs.Prelude.{OnErr};
ghost use Rattle.cb_twoq.specs.Pages.{has};
ghost use Rattle.cb_twoq.specs.Queues.{TwoQState, empty, reference, forget, members_of};
ghost use Rattle.cb_twoq.specs.Law.{Chooses, IsFull, Forgets};
ghost use Rattle.cb_twoq.specs.Indexed.{cached};

use crate::chooser::{ChooseFault, Chooser};
use crate::lists::Lists;
use crate::page_hash::PageCache;
use crate::twoq::newcomers::bring_in;
use crate::twoq::places::{Place, place_of, put_place};
use crate::twoq::queues::IndexedQueues;
use crate::twoq::steps::{copied, reversed};
use cb_page::{Limits, PageNo, PageSet};
use indexmap::IndexSet;
use std::alloc::{AllocError, Global};
use std::marker::Model;

/// The three lists of 2Q, lent.
pub struct Parts<'a> {
    /// Pages in slots, referred to once since they came in; the oldest is first.
    pub a1in: &'a IndexSet<PageNo>,
    /// Pages in slots that came back while they were remembered; the newest is first.
    pub am: &'a PageCache,
    /// Pages remembered: let go from A1in, and in no slot; the oldest is first.
    pub a1out: &'a IndexSet<PageNo>,
}

/// The full version of 2Q, with look-ups by hash. It passes over fixed pages.
///
/// In contracts a `TwoQ` is its settings and its three lists, newest first. A reference to a page
/// in a slot walks through no list. Any other reference shifts A1in and A1out at most once each,
/// and takes the memory of one entry if the page goes to Am.
pub struct TwoQ {
    queues: IndexedQueues,
}

// By hand: see docs/PROVING.md, "Drops".
impl Drop for TwoQ {
    fn drop(self) {
        let TwoQ { queues: _ } = self;
    }
}

impl Model for TwoQ {
    ghost use Rattle.std.specs.Prelude.{◌≡◌, ◌+◌};
    ghost use Rattle.cb_twoq.specs.Queues.{TwoQState, AreQueues};
    ghost use Rattle.cb_twoq.specs.Indexed.{queues_of};
    ghost use Rattle.cb_twoq.specs.Places.{ArePlaces};

    ghost Value = { TwoQState };

    ghost view = { λ two_q. queues_of two_q.queues };

    ghost invariant = { λ two_q. AreQueues (queues_of two_q.queues)
        × (two_q.queues.am.cap ≡ two_q.queues.slots + 1)
        × ArePlaces two_q.queues.places.items (queues_of two_q.queues) };
}

impl TwoQ {
    /// Empty lists, for so many slots. A1in gives up pages first while it is longer than `kin`, and
    /// A1out has at most `kout` pages.
    pub fn new(alloc: Global, slots: usize, kin: usize, kout: usize) -> Result<TwoQ, AllocError>
        ensures { IfOk result (λ two_q. two_q ≡ empty slots kin kout) }
    {
        Ok(TwoQ {
            queues: IndexedQueues::new(alloc, slots, kin, kout)?,
        })
    }

    /// A copy of the lists, newest page first.
    pub fn lists(&self, alloc: Global) -> Result<Lists, AllocError>
        ensures a1in { IfOk result (λ lists. lists.a1in.items ≡ self.now.a1in) }
        ensures am { IfOk result (λ lists. lists.am.items ≡ self.now.am) }
        ensures a1out { IfOk result (λ lists. lists.a1out.items ≡ self.now.a1out) }
    {
        let queues = &self.queues;
        Ok(Lists {
            a1in: reversed(alloc, queues.a1in.as_slice())?,
            am: copied(alloc, &queues.am)?,
            a1out: reversed(alloc, queues.a1out.as_slice())?,
        })
    }

    /// Lends the cache and the two sets.
    pub fn parts(&self) -> Parts<'_>
        ensures a1in { result.a1in.now.keys ≡ reverse self.now.a1in }
        ensures am { cached result.am.now ≡ self.now.am }
        ensures a1out { result.a1out.now.keys ≡ reverse self.now.a1out }
    {
        Parts {
            a1in: &self.queues.a1in,
            am: &self.queues.am,
            a1out: &self.queues.a1out,
        }
    }
}

impl Chooser for TwoQ {
    ghost members = { members_of };

    ghost slots = { λ two_q. two_q.slots };

    ghost refers = { λ old page fixed gone new. reference page fixed old ≡ Some (gone, new) };

    ghost takes_out = { λ old page new. new ≡ forget page old };

    fn make(alloc: Global, limits: &Limits) -> Result<TwoQ, AllocError>
        ensures two_q { IfOk result (λ two_q.
            two_q ≡ empty limits.now.slots limits.now.kin limits.now.kout) }
        ensures members { IfOk result (λ two_q. members_of two_q ≡ []) }
        ensures slots { IfOk result (λ two_q. two_q.slots ≡ limits.now.slots) }
    {
        TwoQ::new(alloc, limits.slots(), limits.kin(), limits.kout())
    }

    fn reference(&mut self, page: PageNo, fixed: &PageSet) -> Result<Option<PageNo>, ChooseFault>
        ensures two_q { IfOk result (λ gone.
            reference page fixed.now self.old ≡ Some (gone, self.new)) }
        ensures none { (result ≡ Err ChooseFault.Full)
            ↔ (reference page fixed.now self.old ≡ None) }
        ensures ok { IfOk result (λ gone. Chooses self.old.slots fixed.now
            (members_of self.old) page gone (members_of self.new)) }
        ensures member { has (members_of self.old) page ≡ true → result ≡ Ok None }
        ensures full { (result ≡ Err ChooseFault.Full)
            ↔ IsFull self.old.slots fixed.now (members_of self.old) page }
        ensures err { OnErr result (self.new ≡ self.old) }
        ensures within { length (members_of self.new) ≤ self.new.slots }
        ensures slots { self.new.slots ≡ self.old.slots }
    {
        let place = place_of(&self.queues.places, page);
        if self.queues.renew(page, place) {
            return Ok(None);
        }
        bring_in(&mut self.queues, page, fixed)
    }

    fn forget(&mut self, page: PageNo)
        ensures two_q { self.new ≡ forget page self.old }
        ensures forgets { Forgets (members_of self.old) page (members_of self.new) }
        ensures slots { self.new.slots ≡ self.old.slots }
    {
        let place = place_of(&self.queues.places, page);
        self.queues.forget(page, place);
        put_place(&mut self.queues.places, page, Place::Out);
    }
}
