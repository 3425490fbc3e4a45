//! The steps of 2Q on a cache and two sets.

ghost use Rattle.std.specs.Prelude.{◌≡◌, ◌||◌, ◌<◌, ◌≤◌, ◌+◌, false, length, replicate, IfOk};
ghost use Rattle.std.specs.Prelude.{OnOk, OnErr};
ghost use Rattle.indexmap.specs.IndexSet.{spare};
ghost use Rattle.cb_twoq.specs.Pages.{has};
ghost use Rattle.cb_twoq.specs.Queues.{TwoQState, AreQueues, empty, reclaim, page_of, let_go};
ghost use Rattle.cb_twoq.specs.Queues.{enter, renew, forget, members_of};
ghost use Rattle.cb_twoq.specs.Indexed.{queues_of, place, IsSlotOf, IsOff};
ghost use Rattle.cb_twoq.specs.Places.{place_in, Out};

use crate::page_hash::{PageCache, PageHash};
use crate::slot::Slot;
use crate::twoq::places::{Place, no_places};
use crate::twoq::steps::{add, first_unfixed, last_unfixed, pop, put, remember, renew, take_off};
use cb_page::{PageNo, PageSet};
use indexmap::IndexSet;
use lru::LruCache;
use std::alloc::{AllocError, Global};
use std::num::NonZeroUsize;

/// The settings of 2Q, its three lists (A1in and A1out oldest first, Am newest first), and which
/// list of pages in slots has each page. Its methods change the lists alone: whoever calls them
/// puts the places.
///
/// The cache holds one page more than there are slots, so that it never drops one by itself.
#[derive(Drop)]
pub(crate) struct IndexedQueues {
    pub(crate) slots: usize,
    pub(crate) kin: usize,
    pub(crate) kout: usize,
    pub(crate) a1in: IndexSet<PageNo>,
    pub(crate) am: PageCache,
    pub(crate) a1out: IndexSet<PageNo>,
    pub(crate) places: Vec<Place>,
}

impl IndexedQueues {
    /// Empty queues, with room for all that may be on them. No memory has room for 2^64 pages.
    pub(crate) fn new(
        alloc: Global,
        slots: usize,
        kin: usize,
        kout: usize,
    ) -> Result<IndexedQueues, AllocError>
        ensures queues { IfOk result (λ queues. queues_of queues ≡ empty slots kin kout) }
        ensures cap { IfOk result (λ queues. queues.am.cap ≡ slots + 1) }
        ensures places { IfOk result (λ queues. queues.places.items ≡ replicate 4096 Out) }
        ensures a1in_room { IfOk result (λ queues. slots < spare queues.a1in) }
        ensures a1out_room { IfOk result (λ queues. kout ≤ spare queues.a1out) }
    {
        let Some(cap) = slots.checked_add(1).and_then(NonZeroUsize::new) else {
            return Err(AllocError);
        };
        // One exit for all four: at each it has to be proved that what was made is let go.
        let (Ok(places), Ok(a1in), Ok(am), Ok(a1out)) = (
            no_places(alloc),
            IndexSet::with_capacity(alloc, cap.get()),
            LruCache::with_hasher(alloc, cap, PageHash),
            IndexSet::with_capacity(alloc, kout.saturating_add(1)),
        ) else {
            return Err(AllocError);
        };
        Ok(IndexedQueues {
            slots,
            kin,
            kout,
            a1in,
            am,
            a1out,
            places,
        })
    }

    /// Moves a page of Am to its head, and says whether the page is in a slot.
    pub(crate) fn renew(&mut self, page: PageNo, place: Place) -> bool
        requires { place ≡ place_in (queues_of self.old) page }
        ensures there { result
            ≡ (has (queues_of self.old).am page || has (queues_of self.old).a1in page) }
        ensures queues { queues_of self.new ≡ renew page (queues_of self.old) }
        ensures cap { self.new.am.cap ≡ self.old.am.cap }
        ensures slots { self.new.slots ≡ self.old.slots }
        ensures places { self.new.places.items ≡ self.old.places.items }
    {
        match place {
            Place::Out => false,
            Place::A1in => true,
            Place::Am => {
                renew(&mut self.am, page);
                true
            }
        }
    }

    /// The slot for a page that comes in, if there is one.
    pub(crate) fn reclaim(&self, fixed: &PageSet) -> Option<Slot>
        ensures { result ≡ reclaim fixed.now (queues_of self.now) }
    {
        if self.a1in.len() + self.am.len() < self.slots {
            return Some(Slot::Free);
        }
        if self.a1in.len() > self.kin {
            if let Some(page) = first_unfixed(self.a1in.as_slice(), fixed) {
                return Some(Slot::OfA1in(page));
            }
        }
        if let Some(page) = last_unfixed(&self.am, fixed) {
            return Some(Slot::OfAm(page));
        }
        if let Some(page) = first_unfixed(self.a1in.as_slice(), fixed) {
            return Some(Slot::OfA1in(page));
        }
        None
    }

    /// Places a page before another is let go, and makes room on A1out. All growths are here.
    fn place(&mut self, page: PageNo, was_remembered: bool) -> Result<(), AllocError>
        requires remembered { was_remembered ≡ has (queues_of self.old).a1out page }
        requires a1in { has (queues_of self.old).a1in page ≡ false }
        requires am { has (queues_of self.old).am page ≡ false }
        requires cap { length (queues_of self.old).am < self.old.am.cap }
        ensures ok { OnOk result (queues_of self.new ≡ place page (queues_of self.old)) }
        ensures err { OnErr result (queues_of self.new ≡ queues_of self.old) }
        ensures room { OnOk result (0 < spare self.new.a1out) }
        ensures cap { self.new.am.cap ≡ self.old.am.cap }
        ensures slots { self.new.slots ≡ self.old.slots }
        ensures places { self.new.places.items ≡ self.old.places.items }
    {
        self.a1out.reserve(1)?;
        if was_remembered {
            put(&mut self.am, page)?;
            take_off(&mut self.a1out, page);
        } else {
            add(&mut self.a1in, page)?;
        }
        Ok(())
    }

    /// Lets the page of a slot go, and answers it.
    fn let_go(&mut self, slot: Slot) -> Option<PageNo>
        requires room { 0 < spare self.old.a1out }
        requires off { IsOff slot (queues_of self.old).a1out }
        requires within { length (queues_of self.old).a1out ≤ self.old.kout }
        ensures gone { result ≡ page_of slot }
        ensures queues { queues_of self.new ≡ let_go slot (queues_of self.old) }
        ensures cap { self.new.am.cap ≡ self.old.am.cap }
        ensures slots { self.new.slots ≡ self.old.slots }
        ensures places { self.new.places.items ≡ self.old.places.items }
    {
        match slot {
            Slot::Free => None,
            Slot::OfA1in(page) => {
                take_off(&mut self.a1in, page);
                remember(&mut self.a1out, page, self.kout);
                Some(page)
            }
            Slot::OfAm(page) => {
                pop(&mut self.am, page);
                Some(page)
            }
        }
    }

    /// Brings a page in, and answers the page let go.
    pub(crate) fn enter(
        &mut self,
        page: PageNo,
        slot: Slot,
        was_remembered: bool,
    ) -> Result<Option<PageNo>, AllocError>
        requires remembered { was_remembered ≡ has (queues_of self.old).a1out page }
        requires queues { AreQueues (queues_of self.old) }
        requires cap { self.old.am.cap ≡ self.old.slots + 1 }
        requires a1in { has (queues_of self.old).a1in page ≡ false }
        requires am { has (queues_of self.old).am page ≡ false }
        requires slot { IsSlotOf slot (queues_of self.old) }
        ensures gone { IfOk result (λ gone. gone ≡ page_of slot) }
        ensures ok { OnOk result (queues_of self.new ≡ enter page slot (queues_of self.old)) }
        ensures err { OnErr result (queues_of self.new ≡ queues_of self.old) }
        ensures cap { self.new.am.cap ≡ self.old.am.cap }
        ensures slots { self.new.slots ≡ self.old.slots }
        ensures places { self.new.places.items ≡ self.old.places.items }
    {
        self.place(page, was_remembered)?;
        Ok(self.let_go(slot))
    }

    /// Takes a page out of its slot, and remembers nothing of it.
    pub(crate) fn forget(&mut self, page: PageNo, place: Place)
        requires queues { AreQueues (queues_of self.old) }
        requires place { place ≡ place_in (queues_of self.old) page }
        ensures queues { queues_of self.new ≡ forget page (queues_of self.old) }
        ensures cap { self.new.am.cap ≡ self.old.am.cap }
        ensures slots { self.new.slots ≡ self.old.slots }
        ensures places { self.new.places.items ≡ self.old.places.items }
    {
        match place {
            Place::Out => {}
            Place::A1in => take_off(&mut self.a1in, page),
            Place::Am => pop(&mut self.am, page),
        }
    }
}
