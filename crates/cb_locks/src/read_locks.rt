//! The pages that a client's transaction reads.
ghost use Rattle.std.specs.Prelude.{◌≡◌, ℕ, ◌+◌, ◌<◌, ◌≤◌, IsSome, Some, None, [], true};
ghost use Rattle.std.specs.Prelude.{false, length, map, count_by};
ghost use Rattle.std.specs.Prelude.{slice_set, IfOk, IfSome, IsOk, OnOk, OnErr};
ghost use Rattle.std.specs.Option.{is_some};
ghost use Rattle.std.specs.Vec.{vec_capacity};
ghost use Rattle.cb_page.specs.Flags.{has};
ghost use Rattle.cb_locks.specs.Dues.{is_due};
ghost use Rattle.cb_locks.specs.Locks.{callback, due_at, ended, no_locks, owed_at, owed_below};
ghost use Rattle.cb_locks.specs.Locks.{unlocked, with_noted};

use crate::CallbackDue;
use crate::dues::{Dues, PageDue};
use cb_page::{ClientNo, GrantNo, Incarnation, Limits, PageNo, PageSet, TxnNo};
use std::alloc::{AllocError, Global};
use std::marker::Model;

/// The pages that a client's transaction reads, and what is due for each page at its end.
///
/// Only `new` and `end` take memory. `end` and `restart` cost a walk over the pages that are due
/// ([`PageSet`]). A caller with more to do for each page walks over `locked` instead, and calls
/// `unlock` for each page.
pub struct ReadLocks {
    client: ClientNo,
    incarnation: Incarnation,
    /// The transaction that began last.
    txn: Option<TxnNo>,
    locked: PageSet,
    dues: Dues,
}

// By hand: see docs/PROVING.md, "Drops".
impl Drop for ReadLocks {
    fn drop(self) {
        let ReadLocks {
            client: _,
            incarnation: _,
            txn: _,
            locked: _,
            dues: _,
        } = self;
    }
}

impl Model for ReadLocks {
    ghost use Rattle.std.specs.Prelude.{◌≡◌, length};
    ghost use Rattle.cb_locks.specs.Locks.{LocksState};

    ghost Value = { LocksState };

    ghost view = { λ l. record {
      client = l.client;
      incarnation = l.incarnation;
      txn = l.txn;
      locked = l.locked;
      dues = l.dues;
    } };

    ghost invariant = { λ l. length l.locked ≡ length l.dues };
}

impl ReadLocks {
    /// No transaction has begun and nothing is locked or due. `AllocError` only if memory was
    /// refused.
    pub fn new(
        alloc: Global,
        client: ClientNo,
        incarnation: Incarnation,
        limits: &Limits,
    ) -> Result<ReadLocks, AllocError>
        ensures { IfOk result (λ locks. locks ≡ no_locks client incarnation limits.now.pages) }
    {
        let pages = limits.pages() as usize;
        Ok(ReadLocks {
            client,
            incarnation,
            txn: None,
            locked: PageSet::new(alloc, pages)?,
            dues: Dues::new(alloc, pages)?,
        })
    }

    /// A transaction begins, which uses the pages from now on.
    pub fn begin(&mut self, txn: TxnNo)
        ensures { self.new ≡ record self.old { txn = Some txn } }
    {
        self.txn = Some(txn);
    }

    /// Notes that the transaction reads the page.
    pub fn lock(&mut self, page: PageNo)
        requires { page < length self.old.locked }
        ensures { self.new ≡ record self.old { locked = slice_set self.old.locked page true } }
    {
        self.locked.insert(page);
    }

    /// Whether the transaction reads the page; `false` for a page past the end.
    pub fn is_locked(&self, page: PageNo) -> bool
        ensures { result ≡ has self.now.locked page }
    {
        self.locked.contains(page)
    }

    /// The pages that the transaction reads.
    pub fn locked(&self) -> &PageSet
        ensures { result.now ≡ self.now.locked }
    {
        &self.locked
    }

    /// A Callback was taken: the server calls the copy back. Nothing is due yet.
    pub fn called(&self, page: PageNo, grant: GrantNo) -> CallbackDue
        ensures { result ≡ callback self.now page grant None }
    {
        self.callback(page, grant, None)
    }

    /// A Downgrade was taken: the server calls back the permission to write the page that was given
    /// for that transaction, and not the copy. Nothing is due yet.
    pub fn permission_called(&self, page: PageNo, grant: GrantNo, tag: TxnNo) -> CallbackDue
        ensures { result ≡ callback self.now page grant (Some tag) }
    {
        self.callback(page, grant, Some(tag))
    }

    /// The pages for which something is due at the transaction's end.
    pub fn due(&self) -> &PageSet
        ensures { result.now ≡ map is_due self.now.dues }
    {
        self.dues.pages()
    }

    /// Whether the page's copy is due at the transaction's end, whether its permission is or not.
    pub fn is_copy_due(&self, page: PageNo) -> bool
        requires { page < length self.now.locked }
        ensures { result ≡ is_some (due_at self.now page).callback }
    {
        self.dues.at(page).callback.is_some()
    }

    /// How many pages there are for which something is due.
    pub fn due_count(&self) -> usize
        ensures { result ≡ count_by is_due self.now.dues }
    {
        self.dues.count()
    }

    /// The transaction uses the page no more. It isn't locked any longer, and what was due for it
    /// is returned. If both the copy and the permission were called back, the copy is due, and the
    /// permission goes with it.
    pub fn unlock(&mut self, page: PageNo) -> Option<CallbackDue>
        requires { page < length self.old.locked }
        ensures due { result ≡ owed_at self.old page }
        ensures state { self.new ≡ unlocked self.old page }
    {
        let due = self.owed(page);
        self.locked.remove(page);
        self.dues.put(page, PageDue::NOTHING);
        due
    }

    /// The transaction ends: nothing is locked or due any more. What was due for each page is
    /// returned once, in rising order of the pages. A callback can't be dropped: `into_iter` and
    /// `next` take the list apart from its front, and `destroy_empty` ends it.
    ///
    /// `AllocError` only if memory for the pages due was refused; nothing changes then.
    pub fn end(&mut self, alloc: Global) -> Result<Vec<CallbackDue>, AllocError>
        ensures handed { IfOk result (λ dues.
            dues.items ≡ owed_below self.old (length self.old.locked)) }
        ensures ok { OnOk result (self.new ≡ ended self.old) }
        ensures err { OnErr result (self.new ≡ self.old) }
        ensures room { IfOk result (λ dues.
            vec_capacity dues ≡ count_by is_due self.old.dues) }
        ensures none { count_by is_due self.old.dues ≡ 0 → IsOk result }
    {
        let mut handed = Vec::with_capacity(alloc, self.due_count())?;
        self.hand_out(&mut handed);
        self.clear();
        Ok(handed)
    }

    /// Another incarnation of the client begins, with no transaction, and with nothing locked or
    /// due. Nobody owes what was due in the incarnation that ended.
    pub fn restart(&mut self, incarnation: Incarnation)
        ensures { self.new ≡ no_locks self.old.client incarnation (length self.old.locked) }
    {
        self.clear();
        self.incarnation = incarnation;
        self.txn = None;
    }

    /// Nothing is locked or due any more.
    fn clear(&mut self)
        ensures { self.new ≡ ended self.old }
    {
        self.locked.clear();
        self.dues.clear();
    }

    /// Hands out what is due of each page, rising.
    fn hand_out(&self, handed: &mut Vec<CallbackDue>)
        requires empty { handed.old.items ≡ [] }
        requires room { count_by is_due self.now.dues ≤ vec_capacity handed.old }
        ensures handed { handed.new.items ≡ owed_below self.now (length self.now.locked) }
        ensures capacity { vec_capacity handed.new ≡ vec_capacity handed.old }
    {
        let mut from = 0;
        while let Some(page) = self.dues.next(from) {
            let Some(due) = self.owed(page) else {
                unreachable!()
            };
            handed.push_reserved(due);
            from = page.index() + 1;
        }
    }

    /// What is due of a page, to be answered.
    fn owed(&self, page: PageNo) -> Option<CallbackDue>
        requires { page < length self.now.locked }
        ensures { result ≡ owed_at self.now page }
    {
        match self.dues.at(page).called_by() {
            Some((grant, tag)) => Some(self.callback(page, grant, tag)),
            None => None,
        }
    }

    /// This callback is due from now on. Answers the transaction that uses the page.
    pub(crate) fn note(&mut self, page: PageNo, grant: GrantNo, tag: Option<TxnNo>) -> TxnNo
        requires begun { IsSome self.old.txn }
        requires page { page < length self.old.locked }
        ensures txn { self.old.txn ≡ Some result }
        ensures due { self.new ≡ with_noted self.old page grant tag }
    {
        let Some(txn) = self.txn else { unreachable!() };
        let due = self.dues.at(page).noted(grant, tag);
        self.dues.put(page, due);
        txn
    }

    /// A callback of this client's copy of the page, or of its permission.
    fn callback(&self, page: PageNo, grant: GrantNo, tag: Option<TxnNo>) -> CallbackDue
        ensures { result ≡ callback self.now page grant tag }
    {
        CallbackDue {
            client: self.client,
            incarnation: self.incarnation,
            page,
            grant,
            tag,
        }
    }
}
