//! The steps of 2Q on its three lists.

ghost use Rattle.std.specs.Prelude.{◌≡◌, ◌||◌, ◌∷◌, IfOk};
ghost use Rattle.cb_twoq.specs.Pages.{has, without};
ghost use Rattle.cb_twoq.specs.Queues.{TwoQState, AreQueues, empty, reclaim, page_of, let_go};
ghost use Rattle.cb_twoq.specs.Queues.{enter, renew, forget};

use crate::plain::queue::{is_on, oldest_unfixed, remember, take_off};
use crate::slot::Slot;
use cb_page::{PageNo, PageSet};
use std::alloc::{AllocError, Global};
use std::collections::VecDeque;
use std::marker::Model;

/// The settings of 2Q and its three lists, newest first, with room for all that may be on them.
#[derive(Drop)]
pub(crate) struct PlainQueues {
    pub(crate) slots: usize,
    pub(crate) kin: usize,
    pub(crate) kout: usize,
    pub(crate) a1in: VecDeque<PageNo>,
    pub(crate) am: VecDeque<PageNo>,
    pub(crate) a1out: VecDeque<PageNo>,
}

impl Model for PlainQueues {
    ghost use Rattle.std.specs.Prelude.{◌≤◌};
    ghost use Rattle.std.specs.VecDeque.{deque_capacity};
    ghost use Rattle.cb_twoq.specs.Queues.{TwoQState};

    ghost Value = { TwoQState };

    ghost view = { λ queues. record {
      slots = queues.slots;
      kin = queues.kin;
      kout = queues.kout;
      a1in = queues.a1in.items;
      am = queues.am.items;
      a1out = queues.a1out.items;
    } };

    ghost invariant = { λ queues. (queues.slots ≤ deque_capacity queues.a1in)
        × (queues.slots ≤ deque_capacity queues.am)
        × (queues.kout ≤ deque_capacity queues.a1out) };
}

impl PlainQueues {
    /// Empty queues, and all the room that they ever need.
    pub(crate) fn new(
        alloc: Global,
        slots: usize,
        kin: usize,
        kout: usize,
    ) -> Result<PlainQueues, AllocError>
        ensures { IfOk result (λ queues. queues ≡ empty slots kin kout) }
    {
        Ok(PlainQueues {
            slots,
            kin,
            kout,
            a1in: VecDeque::with_capacity(alloc, slots)?,
            am: VecDeque::with_capacity(alloc, slots)?,
            a1out: VecDeque::with_capacity(alloc, kout)?,
        })
    }

    /// Moves a page of Am to its head, and says whether the page is in a slot.
    pub(crate) fn renew(&mut self, page: PageNo) -> bool
        requires { AreQueues self.old }
        ensures there { result ≡ (has self.old.am page || has self.old.a1in page) }
        ensures queues { self.new ≡ renew page self.old }
    {
        if take_off(&mut self.am, page) {
            self.am.push_front_reserved(page);
            return true;
        }
        is_on(&self.a1in, page)
    }

    /// The slot for a page that comes in, if there is one.
    pub(crate) fn reclaim(&self, fixed: &PageSet) -> Option<Slot>
        requires { AreQueues self.now }
        ensures { result ≡ reclaim fixed.now self.now }
    {
        if self.a1in.len() + self.am.len() < self.slots {
            return Some(Slot::Free);
        }
        if self.a1in.len() > self.kin {
            if let Some(page) = oldest_unfixed(&self.a1in, fixed) {
                return Some(Slot::OfA1in(page));
            }
        }
        if let Some(page) = oldest_unfixed(&self.am, fixed) {
            return Some(Slot::OfAm(page));
        }
        if let Some(page) = oldest_unfixed(&self.a1in, fixed) {
            return Some(Slot::OfA1in(page));
        }
        None
    }

    /// Lets the page of a slot go, and answers it.
    fn let_go(&mut self, slot: Slot) -> Option<PageNo>
        ensures gone { result ≡ page_of slot }
        ensures queues { self.new ≡ let_go slot self.old }
    {
        match slot {
            Slot::Free => None,
            Slot::OfA1in(page) => {
                take_off(&mut self.a1in, page);
                remember(&mut self.a1out, page, self.kout);
                Some(page)
            }
            Slot::OfAm(page) => {
                take_off(&mut self.am, page);
                Some(page)
            }
        }
    }

    /// Brings a page in, and answers the page let go.
    pub(crate) fn enter(&mut self, page: PageNo, slot: Slot) -> Option<PageNo>
        requires { AreQueues (enter page slot self.old) }
        ensures gone { result ≡ page_of slot }
        ensures queues { self.new ≡ enter page slot self.old }
    {
        let was_out = self.recall(page);
        let gone = self.let_go(slot);
        if was_out {
            self.enter_am(page);
        } else {
            self.enter_a1in(page);
        }
        gone
    }

    /// Takes a page off A1out, and says whether it was there.
    fn recall(&mut self, page: PageNo) -> bool
        ensures there { result ≡ has self.old.a1out page }
        ensures queues { self.new ≡ record self.old { a1out = without page self.old.a1out } }
    {
        take_off(&mut self.a1out, page)
    }

    /// Puts a page at the head of Am.
    fn enter_am(&mut self, page: PageNo)
        requires { AreQueues (record self.old { am = page ∷ self.old.am }) }
        ensures { self.new ≡ record self.old { am = page ∷ self.old.am } }
    {
        self.am.push_front_reserved(page);
    }

    /// Puts a page at the head of A1in.
    fn enter_a1in(&mut self, page: PageNo)
        requires { AreQueues (record self.old { a1in = page ∷ self.old.a1in }) }
        ensures { self.new ≡ record self.old { a1in = page ∷ self.old.a1in } }
    {
        self.a1in.push_front_reserved(page);
    }

    /// Takes a page out of its slot, and remembers nothing of it.
    pub(crate) fn forget(&mut self, page: PageNo)
        ensures { self.new ≡ forget page self.old }
    {
        // It is on one of them at most; on which doesn't matter here.
        let _was_on_a1in = take_off(&mut self.a1in, page);
        let _was_on_am = take_off(&mut self.am, page);
    }
}
