//! The commits of a server.
ghost use Rattle.std.specs.Prelude.{◌≡◌, ℕ, ◌+◌, ◌<◌, ◌≤◌, ◌↔◌, ◌&&◌, nat_lt, List, map, Bool};
ghost use Rattle.std.specs.Prelude.{length, IsTrue, IsSome, IfErr, IfSome, IfOk, OnOk, OnErr};
ghost use Rattle.std.specs.List.{All};
ghost use Rattle.std.specs.Vec.{vec_capacity, vec_len};
ghost use Rattle.cb_page.specs.Flags.{has};
ghost use Rattle.cb_page.specs.Numbers.{max_number};
ghost use Rattle.cb_commit.specs.Stores.{IsOf, version_at};
ghost use Rattle.cb_commit.specs.Changes.{marked};
ghost use Rattle.cb_commit.specs.Batches.{changed_below};
ghost use Rattle.cb_commit.specs.History.{AreCommits, CanFlush, CatchesUp, FitsInto, applied};
ghost use Rattle.cb_commit.specs.History.{begun, done_of, dones_between, forgot, next_batch};
ghost use Rattle.cb_commit.specs.History.{remembered};

use crate::{Batch, BatchPage, Commit, Past, Store};
use cb_frame::{Frame, Writes};
use cb_page::{ClientNo, CommitNo, Incarnation, Limits, Page, PageSet, TxnNo};
use http_server::Log;
use std::alloc::{AllocError, AllocFailed, Global};
use std::marker::Model;

/// A page store, the commits that made it from its opening state, and the number of the last commit
/// on disk.
///
/// Their numbers follow the opening store's last one. A commit's pages stay in memory until it is
/// forgotten. In contracts nothing is lost: they keep the opening store and all commits, beside how
/// many of the commits were forgotten.
pub struct Commits {
    /// The opening store, for proofs alone.
    opening: Log<Store, ()>,
    store: Store,
    commits: Past<Commit>,
    flushed: u64,
    /// The pages whose last commit isn't on disk yet.
    changed: PageSet,
}

// By hand: see docs/PROVING.md, "Drops".
impl Drop for Commits {
    fn drop(self) {
        let Commits {
            opening: _,
            store: _,
            commits: _,
            flushed: _,
            changed: _,
        } = self;
    }
}

impl Model for Commits {
    ghost use Rattle.cb_commit.specs.History.{CommitsState, AreCommits};
    ghost use Rattle.cb_commit.specs.Changes.{AreChanged};
    ghost use Rattle.cb_commit.specs.Memory.{commits_in};

    ghost Value = { CommitsState };

    ghost view = { λ c. commits_in c.opening.items c.store c.commits c.flushed };

    ghost invariant = { λ c. AreCommits (commits_in c.opening.items c.store c.commits c.flushed)
        × AreChanged c.flushed c.store.pages c.changed };
}

impl Commits {
    /// No commits yet, over a store of these limits, all of which counts as on disk.
    ///
    /// The store isn't copied. `AllocError` only if memory was refused.
    pub fn new(alloc: Global, limits: &Limits, store: Store) -> Result<Commits, AllocError>
        requires { IsOf limits.now store }
        ensures { IfOk result (λ commits. commits ≡ begun store) }
    {
        let changed = PageSet::new(alloc, limits.pages() as usize)?;
        Ok(Commits {
            opening: Log::new().and(&store, &()),
            flushed: store.number(),
            store,
            commits: Past::new(alloc),
            changed,
        })
    }

    /// The number that the next commit gets; `None` if all numbers are used up.
    pub fn next_number(&self) -> Option<CommitNo>
        ensures value { IfSome result (λ number. number ≡ self.now.store.number + 1) }
        ensures succeeds { IsSome result ↔ (self.now.store.number + 1 ≤ max_number) }
    {
        CommitNo::checked(self.store.number() + 1)
    }

    /// Adds a commit, writes it over the store, and returns its number. The list keeps the pages
    /// that are handed in.
    ///
    /// Refused only if memory was; then the pages come back, and nothing changes.
    pub fn apply(
        &mut self,
        client: ClientNo,
        incarnation: Incarnation,
        txn: TxnNo,
        writes: Writes,
    ) -> Result<CommitNo, AllocFailed<Writes>>
        requires number { self.old.store.number + 1 ≤ max_number }
        requires fit { FitsInto self.old.store writes }
        ensures number { IfOk result (λ number. number ≡ self.old.store.number + 1) }
        ensures ok { OnOk result (self.new ≡ applied self.old (record {
          client = client;
          incarnation = incarnation;
          txn = txn;
          number = self.old.store.number + 1;
          writes = writes;
        })) }
        ensures err { OnErr result (self.new ≡ self.old) }
        ensures back { IfErr result (λ failed. failed.value ≡ writes) }
    {
        if self.commits.reserve_one().is_err() {
            return Err(AllocFailed { value: writes });
        }
        let number = CommitNo::new(self.store.number() + 1);
        self.store.write(number, writes.as_slice());
        mark(&mut self.changed, &writes);
        self.commits.push_reserved(Commit {
            client,
            incarnation,
            txn,
            number,
            writes,
        });
        Ok(number)
    }

    /// What is to be written to disk next: each page that was changed by a commit which isn't on
    /// disk yet, as the page is now. `None` if every commit is on disk. It costs no more than those
    /// pages.
    ///
    /// `AllocError` only if memory was refused, so never if there is nothing to write.
    pub fn batch(&self, alloc: Global) -> Result<Option<Batch>, AllocError>
        ensures batch { IfOk result (λ batch. batch ≡ next_batch self.now) }
        ensures catches_up { IfOk result (λ batch. IfSome batch (CatchesUp self.now)) }
        ensures can_flush { IfOk result (λ batch. IfSome batch (λ b. CanFlush self.now b.number)) }
        ensures err { OnErr result (self.now.flushed < self.now.store.number) }
    {
        if self.flushed == self.store.number() {
            return Ok(None);
        }
        let number = CommitNo::new(self.store.number());
        let pages = self.changed_pages(alloc)?;
        Ok(Some(Batch::new(number, pages)))
    }

    /// Whether that commit was made and isn't on disk yet.
    pub fn can_flush(&self, number: CommitNo) -> bool
        ensures { IsTrue result ↔ CanFlush self.now number }
    {
        self.flushed < number.get() && number.get() <= self.store.number()
    }

    /// The commits up to this number are on disk now. Returns a Done for each that wasn't before,
    /// in order, in a list with no more room than that.
    ///
    /// `AllocError` only if memory was refused.
    pub fn flushed(&mut self, alloc: Global, number: CommitNo) -> Result<Vec<Frame>, AllocError>
        requires { CanFlush self.old number }
        ensures dones { IfOk result (λ frames.
            frames.items ≡ dones_between self.old.flushed number self.old.commits) }
        ensures room { IfOk result (λ frames. vec_capacity frames ≡ vec_len frames) }
        ensures ok { OnOk result (self.new ≡ record self.old { flushed = number }) }
        ensures err { OnErr result (self.new ≡ self.old) }
    {
        let last = self.store.number();
        let commits = self.commits.remembered();
        let from = commits.len() - (last - self.flushed) as usize;
        let to = commits.len() - (last - number.get()) as usize;
        let frames = dones(alloc, &commits[from..to])?;
        unmark(&mut self.changed, &self.store, number);
        self.flushed = number.get();
        Ok(frames)
    }

    /// Forgets the commits up to this number, which are on disk: they leave memory. Its cost grows
    /// with their number alone, however many are left. Nothing changes if they were forgotten
    /// before, or if no commit has a number as low.
    pub fn forget(&mut self, number: CommitNo)
        requires on_disk { number ≤ self.old.flushed }
        ensures { self.new ≡ forgot self.old number }
    {
        let forgotten = self.store.number() - self.commits.remembered().len() as u64;
        let count = number.get().saturating_sub(forgotten);
        self.commits.forget(count as usize);
    }

    /// The store with all commits in it.
    pub fn store(&self) -> &Store
        ensures value { result.now ≡ self.now.store }
        ensures sound { AreCommits self.now }
    {
        &self.store
    }

    /// The commits that weren't forgotten, in order.
    pub fn committed(&self) -> &[Commit]
        ensures value { result.now ≡ remembered self.now }
        ensures sound { AreCommits self.now }
    {
        self.commits.remembered()
    }

    /// The number of the last commit on disk, or the opening store's before any.
    pub fn last_flushed(&self) -> u64
        ensures value { result ≡ self.now.flushed }
        ensures sound { AreCommits self.now }
    {
        self.flushed
    }

    fn changed_pages(&self, alloc: Global) -> Result<Vec<BatchPage>, AllocError>
        ensures { IfOk result (λ pages. pages.items
            ≡ changed_below self.now.flushed self.now.store.pages (length self.now.store.pages)) }
    {
        let mut pages = Vec::new(alloc);
        let mut from = 0;
        while let Some(page) = self.changed.next(from) {
            pages.push(BatchPage {
                page,
                version: self.store.version(page),
                bytes: Page::copy_of(alloc, self.store.bytes(page))?,
            })?;
            from = page.index() + 1;
        }
        Ok(pages)
    }
}

/// The Dones of these commits, in a list with room for no more.
fn dones(alloc: Global, commits: &[Commit]) -> Result<Vec<Frame>, AllocError>
    ensures dones { IfOk result (λ frames. frames.items ≡ map done_of commits.now) }
    ensures room { IfOk result (λ frames. vec_capacity frames ≡ vec_len frames) }
{
    let mut frames = Vec::with_capacity(alloc, commits.len())?;
    for commit in commits {
        frames.push_reserved(commit.done());
    }
    Ok(frames)
}

/// Puts the pages of a commit in.
#[tactic(auto, using(crate::proofs::Rewriting::marked_push))]
fn mark(changed: &mut PageSet, writes: &Writes)
    requires { All (λ w. w.page < length changed.old) writes.now }
    ensures { changed.new ≡ marked changed.old writes.now }
{
    for write in writes.as_slice() {
        changed.insert(write.page);
    }
}

/// Takes the pages out whose last commit is on disk once this one is.
fn unmark(changed: &mut PageSet, store: &Store, number: CommitNo)
    requires { length changed.old ≡ length store.now.pages }
    ensures size { length changed.new ≡ length changed.old }
    ensures flags { (page : ℕ) → has changed.new page
        ≡ (has changed.old page && nat_lt number (version_at store.now page)) }
{
    let mut from = 0;
    while let Some(page) = changed.next(from) {
        if store.version(page).get() <= number.get() {
            changed.remove(page);
        }
        from = page.index() + 1;
    }
}
