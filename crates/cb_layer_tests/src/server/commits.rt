//! Commits at great limits: one that gives up from some number of pages or of commits on is refused
//! here, which no clause can say. Great pages are in `all_pages_are_committed`.
ghost use Rattle.cb_commit.specs.Stores.{IsOf};

use cb_commit::{Commits, Store};
use cb_frame::{Frame, Write};
use cb_page::{GrantNo, Limits, PageNo, TxnNo};
use cb_test_parts::commits::{apply, commit_frame};
use cb_test_parts::stores::page_of;
use std::alloc::{AllocError, Global};
use std::test::Fail;

/// A commit of the pages below a number, each of as many bytes as the limits say.
fn commit_of(alloc: Global, limits: &Limits, txn: TxnNo, pages: u32) -> Result<Frame, AllocError> {
    let mut writes = Vec::new(alloc);
    for page in 0..pages.min(4096) {
        writes.push(Write {
            page: PageNo::new(page),
            grant: GrantNo::new(1),
            bytes: page_of(alloc, 7, limits.page_size())?,
        })?;
    }
    Ok(commit_frame(txn, writes))
}

/// Whether so many commits of one page are applied.
fn are_applied(
    alloc: Global,
    limits: &Limits,
    commits: &mut Commits,
    count: u64,
) -> Result<bool, AllocError>
    requires { IsOf limits.now commits.old.store }
    ensures { IsOf limits.now commits.new.store }
{
    for number in 1..count {
        let Some(txn) = TxnNo::checked(number) else {
            return Ok(false);
        };
        if !apply(limits, commits, commit_of(alloc, limits, txn, 1)?)? {
            return Ok(false);
        }
    }
    Ok(true)
}

/// Whether all commits are in one batch of so many pages, and then each is answered as done.
fn is_flushed(alloc: Global, commits: &mut Commits, pages: usize) -> Result<bool, AllocError> {
    let Some(batch) = commits.batch(alloc)? else {
        return Ok(false);
    };
    let (number, written) = (batch.number(), batch.pages().len());
    if !commits.can_flush(number) {
        return Ok(false);
    }
    let made = commits.committed().len();
    let dones = commits.flushed(alloc, number)?;
    Ok(written == pages && dones.len() == made)
}

/// Whether a commit of all pages, and then 4,999 of one page, are applied and flushed.
fn holds_all(alloc: Global, limits: &Limits, commits: &mut Commits) -> Result<bool, AllocError>
    requires { IsOf limits.now commits.old.store }
{
    let all = commit_of(alloc, limits, TxnNo::new(1), 4096)?;
    Ok(
        apply(limits, commits, all)?
            && are_applied(alloc, limits, commits, 5000)?
            && is_flushed(alloc, commits, 4096)?,
    )
}

/// Whether new commits over zeros do.
fn new_ones_hold_all(alloc: Global, limits: &Limits) -> Result<bool, AllocError> {
    let store = Store::zeros(alloc, limits)?;
    let mut commits = Commits::new(alloc, limits, store)?;
    holds_all(alloc, limits, &mut commits)
}

#[test]
fn batches_and_dones(rt: HostRuntime) -> Result<(), Fail> {
    let limits = Limits::new(32, 4096, 16, 1024, 1, 4096)?;
    assert!(rt; new_ones_hold_all(rt.alloc(), &limits)?);
    Ok(())
}
