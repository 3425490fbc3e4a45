ghost use Rattle.std.specs.Prelude.{◌≡◌, ℕ, ◌<◌, ◌≤◌, ◌↔◌, ◌||◌, [], ◌∷◌, length, true, false};
ghost use Rattle.std.specs.Prelude.{Some, None, Ok, Err, IfErr, IfOk, OnErr, IsTrue, MatchOption};
ghost use Rattle.std.specs.Option.{is_some, option_copied};
ghost use Rattle.cb_page.specs.Bounds.{AreInRange};
ghost use Rattle.cb_page.specs.Flags.{has};
ghost use Rattle.cb_twoq.specs.Pages.{has as on};
ghost use Rattle.cb_protocol.specs.Cache.{Abandon, Fill, Install, LetGo, RefuseGrant, TakeDone};
ghost use Rattle.cb_protocol.specs.Cache.{TakePermission, WriteBytes, YieldPermission};
ghost use Rattle.cb_protocol.specs.Client.{ChangeCache, Client, EndTransaction, LastOutcome};
ghost use Rattle.cb_protocol.specs.Client.{MarkWanted, has_room, pages_in_pool};
ghost use Rattle.cb_cache.specs.CacheState.{AreCopies, IsFull, client_with, content_at, copy_at};
ghost use Rattle.cb_cache.specs.CacheState.{limits_of, no_copies, referred_to};
ghost use Rattle.cb_pool.specs.PoolState.{has_free_slot};
ghost use Rattle.cb_twoq.specs.Calls.{IsLed};
ghost use Rattle.cb_cache.specs.ByTable.{BringsIn, Does, DoesInTxn};

use crate::table::{CopyTable, PageCopy, greatest_grant};
use crate::written::{drop_copies, set_versions};
use cb_page::{CommitNo, GrantNo, Limits, Page, PageNo, PageSet, TxnNo, Version};
use cb_pool::{Pool, PoolFault};
use cb_twoq::Chooser;
use std::alloc::{AllocError, Global};
use std::marker::Model;

/// A client's copies of pages. Of each page it has the grants that came, the version, the bytes in
/// a pool, the permission to write, and whether the transaction wrote it or asked to.
///
/// Each method that changes something is one step of the protocol, except `restart`. The caller
/// decides which step comes when. Only `new`, `install` and `fill` take memory.
pub struct Cache<Q: Chooser> {
    limits: Limits,
    table: CopyTable,
    may_write: PageSet,
    wrote: PageSet,
    wanted: PageSet,
    pool: Pool<Q>,
}

// By hand: see docs/PROVING.md, "Drops".
impl<Q: Chooser> Drop for Cache<Q> {
    fn drop(self) {
        let Cache {
            limits: _,
            table: _,
            may_write: _,
            wrote: _,
            wanted: _,
            pool: _,
        } = self;
    }
}

impl<Q: Chooser> Model for Cache<Q> {
    ghost use Rattle.cb_cache.specs.CacheState.{CacheState, AreCopies};

    ghost Value = { CacheState };

    ghost view = { λ copies. record {
      limits = copies.limits;
      rows = copies.table;
      may_write = copies.may_write;
      wrote = copies.wrote;
      wanted = copies.wanted;
      pool = copies.pool;
    } };

    ghost invariant = { λ copies. AreCopies (record {
      limits = copies.limits;
      rows = copies.table;
      may_write = copies.may_write;
      wrote = copies.wrote;
      wanted = copies.wanted;
      pool = copies.pool;
    }) };
}

impl<Q: Chooser> Cache<Q> {
    /// A cache to which no grant ever came, with an empty chooser that has as many slots as the
    /// limits say. It is refused only if memory is.
    pub fn new(alloc: Global, chooser: Q, limits: &Limits) -> Result<Cache<Q>, AllocError>
        requires members { Q.members chooser ≡ [] }
        requires slots { Q.slots chooser ≡ limits.now.slots }
        ensures { IfOk result (λ copies. copies ≡ no_copies limits.now) }
    {
        let pages = limits.pages() as usize;
        Ok(Cache {
            limits: *limits,
            table: CopyTable::new(alloc, pages)?,
            may_write: PageSet::new(alloc, pages)?,
            wrote: PageSet::new(alloc, pages)?,
            wanted: PageSet::new(alloc, pages)?,
            pool: Pool::new(alloc, chooser, limits)?,
        })
    }

    /// The limits of the store and the pool.
    pub fn limits(&self) -> &Limits
        ensures value { result.now ≡ self.now.limits }
        ensures sound { AreCopies self.now }
    {
        &self.limits
    }

    /// Lends the pool's chooser, whose members are the pages with bytes in the pool. The calls in
    /// the pool's history made it, from a chooser with no members.
    pub fn chooser(&self) -> &Q
        ensures members { (page : ℕ)
            → on (Q.members result.now) page ≡ is_some (content_at self.now page) }
        ensures led { IsLed Q.Chooser self.now.pool.slots self.now.pool.calls result.now }
    {
        self.pool.chooser()
    }

    /// What is known of a page beside its bytes.
    pub fn at(&self, page: PageNo) -> PageCopy
        requires { page < self.now.limits.pages }
        ensures value { result ≡ copy_at self.now page }
        ensures sound { AreCopies self.now }
    {
        self.table.at(page)
    }

    /// Whether the client may write the page.
    pub fn may_write(&self, page: PageNo) -> bool
        ensures { result ≡ has self.now.may_write page }
    {
        self.may_write.contains(page)
    }

    /// Whether the transaction wrote the page.
    pub fn wrote(&self, page: PageNo) -> bool
        ensures { result ≡ has self.now.wrote page }
    {
        self.wrote.contains(page)
    }

    /// Whether the transaction wrote the page or asked to: the pool may not let it go.
    pub fn is_fixed(&self, page: PageNo) -> bool
        ensures { result ≡ (has self.now.wanted page || has self.now.wrote page) }
    {
        self.wanted.contains(page) || self.wrote.contains(page)
    }

    /// The first page at or above this one that the transaction wrote.
    pub fn next_written(&self, from: usize) -> Option<PageNo>
        ensures { MatchOption result
            ((page : ℕ) → from ≤ page → has self.now.wrote page ≡ false)
            (λ page. (from ≤ page) × (has self.now.wrote page ≡ true)
            × ((other : ℕ) → from ≤ other → other < page → has self.now.wrote other ≡ false)) }
    {
        self.wrote.next(from)
    }

    /// The bytes of the page's copy, if they are in the pool, with no reference to it.
    pub fn peek(&self, page: PageNo) -> Option<&[u8]>
        ensures bytes { option_copied result ≡ content_at self.now page }
        ensures sound { AreCopies self.now }
    {
        self.pool.peek(page)
    }

    /// The bytes of the page's copy, which are in the pool, with no reference to it.
    pub fn bytes(&self, page: PageNo) -> &[u8]
        requires { is_some (content_at self.now page) ≡ true }
        ensures { Some result.now ≡ content_at self.now page }
    {
        self.pool.bytes(page)
    }

    /// Tells the pool's chooser of a reference to a page, if its bytes are in the pool, and says
    /// whether they are. The copies stay the same but for that reference.
    pub fn reference(&mut self, page: PageNo) -> bool
        ensures here { result ≡ is_some (content_at self.old page) }
        ensures same { self.new ≡ referred_to self.old page }
        ensures away { result ≡ false → self.new ≡ self.old }
        ensures sound { AreCopies self.new }
    {
        self.pool.reference(page)
    }

    /// Whether the pool can take in one more page.
    pub fn has_room(&self) -> bool
        ensures room { (client : Client)
            → result ≡ has_room (limits_of self.now.limits) (client_with self.now client) }
        ensures within { (client : Client)
            → pages_in_pool (client_with self.now client) self.now.limits.pages
            ≤ self.now.limits.slots }
    {
        self.pool.room()
    }

    /// Whether a slot of the pool is free: a page that comes in lets none go then.
    pub fn has_free_slot(&self) -> bool
        ensures { result ≡ has_free_slot self.now.pool }
    {
        self.pool.has_free_slot()
    }

    /// A new copy comes. If a page is returned, its bytes went from the pool, and its grant is bare
    /// now. A caller that doesn't read that page lets it go by `let_go`.
    ///
    /// `Full` comes if the page isn't in the pool and there is no room, and `Memory` only if a
    /// growth of the chooser was refused; nothing changes then, and the bytes come back.
    pub fn install(
        &mut self,
        page: PageNo,
        grant: GrantNo,
        version: Version,
        bytes: Page,
    ) -> Result<Option<PageNo>, (PoolFault, Page)>
        requires page { page < self.old.limits.pages }
        requires size { length bytes ≡ self.old.limits.page_size }
        ensures ok { IfOk result (λ gone.
            BringsIn self.old page (ChangeCache (Install page grant version bytes)) gone self.new) }
        ensures full { (result ≡ Err (PoolFault.Full, bytes))
            ↔ ((content_at self.old page ≡ None) × IsFull self.old) }
        ensures back { IfErr result (λ refused. refused.1 ≡ bytes) }
        ensures here { is_some (content_at self.old page) ≡ true → result ≡ Ok None }
        ensures slot { has_free_slot self.old.pool ≡ true → IfOk result (λ gone. gone ≡ None) }
        ensures err { OnErr result (self.new ≡ self.old) }
        ensures limits { self.new.limits ≡ self.old.limits }
    {
        let gone = self.pool.install_or_return(page, bytes)?;
        let copy = self.table.at(page);
        self.table.put(
            page,
            PageCopy {
                seen: Some(grant),
                held: Some(grant),
                version,
                ..copy
            },
        );
        Ok(gone)
    }

    /// Bytes come for a grant that is held. Answers and refusals are those of `install`.
    pub fn fill(&mut self, page: PageNo, bytes: Page) -> Result<Option<PageNo>, (PoolFault, Page)>
        requires held { is_some (copy_at self.old page).held ≡ true }
        requires page { page < self.old.limits.pages }
        requires size { length bytes ≡ self.old.limits.page_size }
        ensures ok { IfOk result (λ gone. (grant : ℕ)
            → BringsIn self.old page (ChangeCache (Fill page grant bytes)) gone self.new) }
        ensures full { (result ≡ Err (PoolFault.Full, bytes))
            ↔ ((content_at self.old page ≡ None) × IsFull self.old) }
        ensures back { IfErr result (λ refused. refused.1 ≡ bytes) }
        ensures here { is_some (content_at self.old page) ≡ true → result ≡ Ok None }
        ensures slot { has_free_slot self.old.pool ≡ true → IfOk result (λ gone. gone ≡ None) }
        ensures err { OnErr result (self.new ≡ self.old) }
        ensures limits { self.new.limits ≡ self.old.limits }
    {
        self.pool.install_or_return(page, bytes)
    }

    /// Notes a grant that isn't held.
    pub fn refuse(&mut self, page: PageNo, grant: GrantNo)
        requires { page < self.old.limits.pages }
        ensures { Does self.old (ChangeCache (RefuseGrant page grant) ∷ []) self.new }
    {
        let copy = self.table.at(page);
        self.table.put(
            page,
            PageCopy {
                seen: Some(greatest_grant(copy.seen, grant)),
                ..copy
            },
        );
    }

    /// The copy of a page goes, and the permission to write it.
    pub fn let_go(&mut self, page: PageNo)
        requires page { page < self.old.limits.pages }
        requires unwritten { has self.old.wrote page ≡ false }
        ensures { Does self.old (ChangeCache (LetGo page) ∷ []) self.new }
    {
        let copy = self.table.at(page);
        self.table.put(page, PageCopy { held: None, ..copy });
        self.may_write.remove(page);
        self.pool.remove(page);
    }

    /// The client may write a page that it holds, for this transaction.
    pub fn take_permission(&mut self, page: PageNo, txn: TxnNo)
        requires held { is_some (copy_at self.old page).held ≡ true }
        requires page { page < self.old.limits.pages }
        ensures by_table { DoesInTxn txn self.old (ChangeCache (TakePermission page) ∷ [])
            self.new }
        ensures limits { self.new.limits ≡ self.old.limits }
    {
        let copy = self.table.at(page);
        self.table.put(
            page,
            PageCopy {
                tag: Some(txn),
                ..copy
            },
        );
        self.may_write.insert(page);
    }

    /// The client may not write the page any more.
    pub fn yield_permission(&mut self, page: PageNo)
        requires { page < self.old.limits.pages }
        ensures { Does self.old (ChangeCache (YieldPermission page) ∷ []) self.new }
    {
        self.may_write.remove(page);
    }

    /// The transaction asked to write the page: the pool may not let it go.
    pub fn want(&mut self, page: PageNo)
        requires { page < self.old.limits.pages }
        ensures { Does self.old (MarkWanted page ∷ []) self.new }
    {
        self.wanted.insert(page);
        self.pool.fix(page);
    }

    /// The transaction writes a page whose bytes are in the pool; they are overwritten in place.
    pub fn write(&mut self, page: PageNo, bytes: &[u8])
        requires here { is_some (content_at self.old page) ≡ true }
        requires size { length bytes.now ≡ self.old.limits.page_size }
        ensures { Does self.old (ChangeCache (WriteBytes page bytes.now) ∷ []) self.new }
    {
        self.pool.write(page, bytes);
        self.wrote.insert(page);
        self.pool.fix(page);
    }

    /// The transaction ends as dropped or aborted: the copies that it wrote go, and all
    /// permissions. It costs a walk over the pages written ([`PageSet`]).
    pub fn abandon(&mut self)
        ensures by_table { (outcome : LastOutcome)
            → Does self.old (EndTransaction outcome ∷ ChangeCache Abandon ∷ []) self.new }
        ensures limits { self.new.limits ≡ self.old.limits }
    {
        drop_copies(&mut self.table, &mut self.pool, &self.wrote);
        self.may_write.clear();
        self.wrote.clear();
        self.wanted.clear();
        self.pool.unfix_all();
    }

    /// The transaction ends as committed with that number, which becomes the version of what it
    /// wrote. Permissions stay if they are kept. It costs as much as `abandon`.
    pub fn take_done(&mut self, number: CommitNo)
        ensures by_table { (outcome : LastOutcome)
            → Does self.old (EndTransaction outcome ∷ ChangeCache (TakeDone number) ∷ []) self.new }
        ensures limits { self.new.limits ≡ self.old.limits }
    {
        set_versions(&mut self.table, &self.wrote, number);
        if !self.limits.keep_write() {
            self.may_write.clear();
        }
        self.wrote.clear();
        self.wanted.clear();
        self.pool.unfix_all();
    }

    /// Begins the client's next incarnation, with an empty chooser that has as many slots as the
    /// limits say. It takes no memory. It costs a walk over the pages for which a grant came in the
    /// incarnation that ends ([`PageSet`]), and the drop of the former chooser.
    pub fn restart(&mut self, chooser: Q)
        requires members { Q.members chooser ≡ [] }
        requires slots { Q.slots chooser ≡ self.old.limits.slots }
        ensures { self.new ≡ no_copies self.old.limits }
    {
        self.pool.restart(chooser, self.table.known());
        self.table.clear();
        self.may_write.clear();
        self.wrote.clear();
        self.wanted.clear();
    }
}
