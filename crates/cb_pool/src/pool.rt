ghost use Rattle.std.specs.Prelude.{◌≡◌, ℕ, ◌<◌, ◌≤◌, ◌↔◌, [], length, replicate, slice_set};
ghost use Rattle.std.specs.Prelude.{true, false, Some, None, IfErr, IfOk, IfSome, OnErr, IsTrue};
ghost use Rattle.std.specs.Borrow.{sem};
ghost use Rattle.std.specs.Option.{is_none, is_some, option_copied};
ghost use Rattle.cb_twoq.specs.Pages.{has};
ghost use Rattle.cb_pool.specs.Lending.{pool_ends_as};
ghost use Rattle.cb_pool.specs.PoolState.{PoolState, empty_pool, copy_of, HasRoom, let_go, MayGo};
ghost use Rattle.cb_pool.specs.PoolState.{HasNoneBut, IsPool, has_free_slot};
ghost use Rattle.cb_pool.specs.PoolState.{referred, with_removal, with_reference};
ghost use Rattle.cb_twoq.specs.Calls.{IsLed};
ghost use Rattle.cb_pool.specs.Refusals.{fault_of};

use crate::copies::Copies;
use cb_page::{Limits, Page, PageNo, PageSet};
use cb_twoq::{ChooseFault, Chooser, ChooserCall};
use http_server::Log;
use std::alloc::{AllocError, Global};
use std::fmt;
use std::marker::Model;
use thiserror::Error;

/// Why a page wasn't installed. Nothing has changed then. The text is the fault's number and name.
#[derive(Clone, Copy, Debug, PartialEq, Eq, Error)]
pub enum PoolFault {
    /// The page isn't here, and each slot has a fixed page.
    Full,
    /// A growth was refused.
    Memory,
}

impl fmt::Display for PoolFault {
    ghost use Rattle.std.specs.Prelude.{Some};
    ghost use Rattle.cb_pool.specs.FaultTexts.{fault_text};

    ghost output = { λ fault. Some (fault_text fault) };

    fn fmt<W: fmt::Write>(&self, f: &mut fmt::Formatter<W>) -> fmt::Result {
        let text = match self {
            PoolFault::Full => "1 Full",
            PoolFault::Memory => "2 Memory",
        };
        write!(f, "{text}")
    }
}

impl From<ChooseFault> for PoolFault {
    ghost from_gives = { λ refused e. e ≡ fault_of refused };

    fn from(refused: ChooseFault) -> PoolFault {
        match refused {
            ChooseFault::Full => PoolFault::Full,
            ChooseFault::Memory => PoolFault::Memory,
        }
    }
}

/// A client's copies of pages, of which a chooser picks the one to let go.
///
/// In contracts a pool is its count of slots, the page size, a flag for each page of the store that
/// is fixed, the bytes of each page that is here, and its chooser's calls. These are the references
/// and removals since the pool, or its client's incarnation, began. The chooser itself isn't shown:
/// these calls made it of one with no members. A page's bytes are moved in and lent out. Only
/// `write` copies bytes: it overwrites them.
pub struct Pool<Q: Chooser> {
    chooser: Q,
    /// The calls that the chooser had, with the pages that were fixed then, for proofs alone.
    calls: Log<ChooserCall, PageSet>,
    slots: usize,
    page_size: usize,
    copies: Copies,
}

// By hand: see docs/PROVING.md, "Drops".
impl<Q: Chooser> Drop for Pool<Q> {
    fn drop(self) {
        let Pool {
            chooser: _,
            calls: _,
            slots: _,
            page_size: _,
            copies: _,
        } = self;
    }
}

impl<Q: Chooser> Model for Pool<Q> {
    ghost use Rattle.cb_pool.specs.PoolState.{PoolState};
    ghost use Rattle.cb_pool.specs.Agree.{Agrees};
    ghost use Rattle.cb_twoq.specs.Calls.{IsLed};

    ghost Value = { PoolState };

    ghost view = { λ pool. record {
      slots = pool.slots;
      page_size = pool.page_size;
      fixed = pool.copies.fixed;
      pages = pool.copies.pages;
      calls = pool.calls.items;
    } };

    ghost invariant = { λ pool. Agrees (record {
      slots = pool.slots;
      page_size = pool.page_size;
      fixed = pool.copies.fixed;
      pages = pool.copies.pages;
      calls = pool.calls.items;
    }) (Q.members pool.chooser) (Q.slots pool.chooser)
        × IsLed Q.Chooser pool.slots pool.calls.items pool.chooser };
}

impl<Q: Chooser> Pool<Q> {
    /// An empty pool with an empty chooser that has as many slots as the limits say. It is refused
    /// only if memory is.
    pub fn new(alloc: Global, chooser: Q, limits: &Limits) -> Result<Pool<Q>, AllocError>
        requires members { Q.members chooser ≡ [] }
        requires slots { Q.slots chooser ≡ limits.now.slots }
        ensures { IfOk result (λ pool.
            pool ≡ empty_pool limits.now.slots limits.now.pages limits.now.page_size) }
    {
        Ok(Pool {
            chooser,
            calls: Log::new(),
            slots: limits.slots(),
            page_size: limits.page_size(),
            copies: Copies::new(alloc, limits.pages() as usize)?,
        })
    }

    /// Lends the chooser, whose members are the pages that are here. The calls in the pool's
    /// history made it, from a chooser with no members.
    pub fn chooser(&self) -> &Q
        ensures members { (page : ℕ) →
            has (Q.members result.now) page ≡ is_some (copy_of self.now page) }
        ensures slots { Q.slots result.now ≡ self.now.slots }
        ensures led { IsLed Q.Chooser self.now.slots self.now.calls result.now }
    {
        &self.chooser
    }

    /// Lends the bytes of a page, if it is here, with no reference to it.
    pub fn peek(&self, page: PageNo) -> Option<&[u8]>
        ensures bytes { option_copied result ≡ copy_of self.now page }
        ensures is_pool { IsPool self.now }
    {
        self.copies.get(page)
    }

    /// Lends the bytes of a page that is here, with no reference to it.
    pub fn bytes(&self, page: PageNo) -> &[u8]
        requires { IsTrue (is_some (copy_of self.now page)) }
        ensures { Some result.now ≡ copy_of self.now page }
    {
        self.copies.bytes(page)
    }

    /// Lends the bytes of a page, if it is here, and counts as a reference to it.
    ///
    /// The pool is the same once the loan is over, but for that reference.
    pub fn hit(&mut self, page: PageNo) -> Option<&[u8]>
        ensures* ends { sem 𝓛 (pool_ends_as Q.row Q.Chooser self.entry (referred self.old page)) }
        ensures bytes { option_copied result ≡ copy_of self.old page }
    {
        let bytes = self.copies.get(page)?;
        let _gone = self.chooser.reference(page, self.copies.fixed());
        self.calls = self
            .calls
            .and(&ChooserCall::Reference(page), self.copies.fixed());
        Some(bytes)
    }

    /// Tells the chooser of a reference to a page, if it is here, and says whether it is. It lends
    /// nothing, and the pool is the same but for that reference.
    pub fn reference(&mut self, page: PageNo) -> bool
        ensures here { result ≡ is_some (copy_of self.old page) }
        ensures same { self.new ≡ referred self.old page }
        ensures away { result ≡ false → self.new ≡ self.old }
    {
        let here = self.copies.has(page);
        if here {
            self.reference_here(page);
        }
        here
    }

    /// Tells the chooser of a reference to a page that is here.
    fn reference_here(&mut self, page: PageNo)
        requires { IsTrue (is_some (copy_of self.old page)) }
        ensures { self.new ≡ record self.old { calls = with_reference self.old page } }
    {
        let fixed = self.copies.fixed();
        let _gone = self.chooser.reference(page, fixed);
        self.calls = self.calls.and(&ChooserCall::Reference(page), fixed);
    }

    /// Takes in a page's bytes, which counts as a reference to it, and returns the page that was
    /// let go for it, if any.
    ///
    /// Bytes that are here already are replaced. `Full` comes if the page isn't here and there is
    /// no room, and `Memory` only if a growth of the chooser was refused; the bytes handed in are
    /// dropped then.
    pub fn install(&mut self, page: PageNo, bytes: Page) -> Result<Option<PageNo>, PoolFault>
        requires below { page < length self.old.fixed }
        requires size { length bytes ≡ self.old.page_size }
        ensures pages { IfOk result (λ gone. self.new ≡ record self.old {
          pages = slice_set (let_go gone self.old.pages) page (Some bytes);
          calls = with_reference self.old page;
        }) }
        ensures gone { IfOk result (MayGo self.old page) }
        ensures full { (result ≡ Err PoolFault.Full)
            ↔ (IsTrue (is_none (copy_of self.old page)) × ¬ (HasRoom self.old)) }
        ensures here { IsTrue (is_some (copy_of self.old page)) → result ≡ Ok None }
        ensures err { OnErr result (self.new ≡ self.old) }
    {
        match self.install_or_return(page, bytes) {
            Ok(gone) => Ok(gone),
            Err(refused) => Err(refused.0),
        }
    }

    /// As `install`, but the bytes come back with the fault.
    pub fn install_or_return(
        &mut self,
        page: PageNo,
        bytes: Page,
    ) -> Result<Option<PageNo>, (PoolFault, Page)>
        requires below { page < length self.old.fixed }
        requires size { length bytes ≡ self.old.page_size }
        ensures pages { IfOk result (λ gone. self.new ≡ record self.old {
          pages = slice_set (let_go gone self.old.pages) page (Some bytes);
          calls = with_reference self.old page;
        }) }
        ensures gone { IfOk result (MayGo self.old page) }
        ensures full { (result ≡ Err (PoolFault.Full, bytes))
            ↔ (IsTrue (is_none (copy_of self.old page)) × ¬ (HasRoom self.old)) }
        ensures here { IsTrue (is_some (copy_of self.old page)) → result ≡ Ok None }
        ensures back { IfErr result (λ refused. refused.1 ≡ bytes) }
        ensures err { OnErr result (self.new ≡ self.old) }
    {
        match self.chooser.reference(page, self.copies.fixed()) {
            Ok(gone) => {
                self.calls = self
                    .calls
                    .and(&ChooserCall::Reference(page), self.copies.fixed());
                self.copies.place(page, &gone, bytes);
                Ok(gone)
            }
            Err(fault) => Err((PoolFault::from(fault), bytes)),
        }
    }

    /// Whether a slot is free, so that `install` lets no page go.
    pub fn has_free_slot(&self) -> bool
        ensures { result ≡ has_free_slot self.now }
    {
        self.copies.count() < self.slots
    }

    /// Whether `install` finds a slot for every page: one is free, or a page that is here isn't
    /// fixed.
    pub fn room(&self) -> bool
        ensures room { IsTrue result ↔ HasRoom self.now }
        ensures is_pool { IsPool self.now }
    {
        self.has_free_slot() || self.copies.has_loose()
    }

    /// Keeps a page from being let go. A page that isn't here yet is fixed once it is installed.
    pub fn fix(&mut self, page: PageNo)
        requires { page < length self.old.fixed }
        ensures { self.new ≡ record self.old { fixed = slice_set self.old.fixed page true } }
    {
        self.copies.fix(page);
    }

    /// Lets every page be let go.
    pub fn unfix_all(&mut self)
        ensures { self.new ≡ record self.old { fixed = replicate (length self.old.fixed) false } }
    {
        self.copies.unfix_all();
    }

    /// Overwrites the bytes of a page that is here, with no reference to it.
    pub fn write(&mut self, page: PageNo, bytes: &[u8])
        requires here { IsTrue (is_some (copy_of self.old page)) }
        requires size { length bytes.now ≡ self.old.page_size }
        ensures { self.new ≡ record self.old {
          pages = slice_set self.old.pages page (Some bytes.now);
        } }
    {
        self.copies.write(page, bytes);
    }

    /// Removes a page, if it is here, and the chooser forgets it. A fixed page can be removed, and
    /// stays fixed.
    pub fn remove(&mut self, page: PageNo)
        requires { page < length self.old.fixed }
        ensures { self.new ≡ record self.old {
          pages = slice_set self.old.pages page None;
          calls = with_removal self.old page;
        } }
    {
        self.chooser.forget(page);
        self.calls = self
            .calls
            .and(&ChooserCall::Forget(page), self.copies.fixed());
        self.copies.put(page, None);
    }

    /// Begins the client's next incarnation with an empty chooser of as many slots, which replaces
    /// the one before, and with no calls. The pages handed in are those that may be here. It takes
    /// no memory. It costs a walk over these pages ([`PageSet`]) and the drop of the former
    /// chooser, which isn't told of the pages that go.
    pub fn restart(&mut self, chooser: Q, pages: &PageSet)
        requires members { Q.members chooser ≡ [] }
        requires slots { Q.slots chooser ≡ self.old.slots }
        requires within { length pages.now ≤ length self.old.pages }
        requires all { HasNoneBut self.old.pages pages.now }
        ensures { self.new
            ≡ empty_pool self.old.slots (length self.old.pages) self.old.page_size }
    {
        self.unfix_all();
        self.copies.clear(pages);
        self.chooser = chooser;
        self.calls = Log::new();
    }
}
