//! A batch that was written.
use crate::stores::page_of;
use cb_commit::{Batch, Commits, Store};
use cb_frame::{Frame, Write};
use cb_page::{GrantNo, Limits, PageNo, TxnNo};
use cb_shelf::{Shelf, Written};
use cb_test_parts::commits::{apply, commit_frame};
use sqlite::Alter;
use std::alloc::{AllocError, Global};

/// A commit that fills page 0 with sevens.
fn sevens(alloc: Global, limits: &Limits) -> Result<Frame, AllocError> {
    let mut writes = Vec::new(alloc);
    writes.push(Write {
        page: PageNo::new(0),
        grant: GrantNo::new(1),
        bytes: page_of(alloc, 7, limits.page_size())?,
    })?;
    Ok(commit_frame(TxnNo::new(1), writes))
}

/// The batch of a first commit over zeros of these limits.
fn first_batch(alloc: Global, limits: &Limits) -> Option<Batch> {
    let store = Store::zeros(alloc, limits).ok()?;
    if !store.is_of(limits) {
        return None;
    }
    let mut commits = Commits::new(alloc, limits, store).ok()?;
    let frame = sevens(alloc, limits).ok()?;
    if !apply(limits, &mut commits, frame).ok()? {
        return None;
    }
    commits.batch(alloc).ok()?
}

/// That batch, written to a shelf of these limits.
pub(crate) fn first_written<S: Alter>(
    alloc: Global,
    limits: &Limits,
    shelf: &mut Shelf<S>,
) -> Option<Written> {
    let batch = first_batch(alloc, limits)?;
    shelf.write(&batch).ok()
}
