//! Commits that are written by a shelf: at once, or after refusals.

use crate::disks::{TwoPages, held_by};
use cb_commit::{Batch, Commits, Store};
use cb_frame::{Body, Frame, ShortBody, ShortFrame, Write, Writes};
use cb_page::{ClientNo, CommitNo, GrantNo, Incarnation, Limits, PageNo, TxnNo};
use cb_server::Server;
use cb_shelf::{Shelf, ShelfFault, flush_once};
use cb_test_parts::commits::{apply, commit_frame};
use cb_test_parts::stores::page_of;
use sqlite::Alter;
use std::alloc::{AllocError, Global};

/// How a commit over the shelf's store is written.
#[derive(Clone, Copy)]
pub(crate) enum Writing {
    /// It fills both pages with nines, and is flushed once.
    Once,
    /// It fills page 0 with sevens, and is flushed under ever greater limits on steps.
    Raised,
    /// A server commits the same, and its batch is refused once.
    Served,
}

/// The store of zeros, before the first commit.
pub(crate) static ZEROS: TwoPages = (0, [(0, 0), (0, 0)]);

/// With one commit of sevens.
pub(crate) static SEVENS: TwoPages = (1, [(1, 7), (0, 0)]);

/// Whether it is written so.
pub(crate) fn writes<S: Alter>(
    alloc: Global,
    limits: &Limits,
    shelf: &mut Shelf<S>,
    writing: Writing,
) -> bool {
    let Ok(store) = shelf.load(alloc) else {
        return false;
    };
    let written = match writing {
        Writing::Once => writes_once(alloc, limits, shelf, store),
        Writing::Raised => writes_at_last(alloc, limits, shelf, store),
        Writing::Served => serves(alloc, limits, shelf, store),
    };
    written == Some(true)
}

/// A write of a page by grant 1, of one byte.
fn write_of(alloc: Global, limits: &Limits, page: PageNo, byte: u8) -> Result<Write, AllocError> {
    Ok(Write {
        page,
        grant: GrantNo::new(1),
        bytes: page_of(alloc, byte, limits.page_size())?,
    })
}

/// Commits over the store, with one more that fills the first pages with a byte.
fn committed(
    alloc: Global,
    limits: &Limits,
    store: Store,
    pages: u32,
    byte: u8,
) -> Option<Commits> {
    if !store.is_of(limits) {
        return None;
    }
    let mut commits = Commits::new(alloc, limits, store).ok()?;
    let mut writes = Vec::new(alloc);
    for page in 0..pages.min(4096) {
        let write = write_of(alloc, limits, PageNo::new(page), byte).ok()?;
        writes.push(write).ok()?;
    }
    let frame = commit_frame(TxnNo::new(1), writes);
    apply(limits, &mut commits, frame).ok()?.then_some(commits)
}

fn writes_once<S: Alter>(
    alloc: Global,
    limits: &Limits,
    shelf: &mut Shelf<S>,
    store: Store,
) -> Option<bool> {
    let mut commits = committed(alloc, limits, store, 2, 9)?;
    let mut held = None;
    let dones = flush_once(alloc, &mut commits, shelf, &mut held).ok()?;
    Some(dones.len() == 1)
}

/// Whether the tables hold this, read without a limit on steps.
fn holds<S: Alter>(alloc: Global, limits: &Limits, shelf: &mut Shelf<S>, held: TwoPages) -> bool {
    shelf.limit_steps(0);
    match shelf.load(alloc) {
        Ok(store) => held_by(limits, &store) == Some(held),
        Err(_) => false,
    }
}

/// What a flush under a limit on steps says: `None` where it is refused, and then the batch is
/// held, nothing is reported, and the tables are those of zeros.
fn flush_under<S: Alter>(
    alloc: Global,
    limits: &Limits,
    commits: &mut Commits,
    shelf: &mut Shelf<S>,
    held: &mut Option<Batch>,
    steps: u64,
) -> Result<Option<Vec<Frame>>, ShelfFault> {
    if let Some(batch) = &*held {
        if !commits.can_flush(batch.number()) {
            return Err(ShelfFault::Shape);
        }
    }
    shelf.limit_steps(steps);
    match flush_once(alloc, commits, shelf, held) {
        Ok(frames) => Ok(Some(frames)),
        Err(ShelfFault::Store) => {
            let first = matches!(&*held, Some(batch) if batch.number().get() == 1);
            if first && commits.last_flushed() == 0 && holds(alloc, limits, shelf, ZEROS) {
                Ok(None)
            } else {
                Err(ShelfFault::Memory)
            }
        }
        Err(fault) => Err(fault),
    }
}

/// Whether the frames are the Done of the first commit alone.
fn are_done(frames: &[Frame]) -> bool {
    let done = ShortBody::Done {
        txn: TxnNo::new(1),
        number: CommitNo::new(1),
    };
    match frames {
        [frame] => {
            let to = (frame.client, frame.incarnation) == (ClientNo::new(0), Incarnation::new(1));
            to && matches!(&frame.body, Body::Short(said) if *said == done)
        }
        _ => false,
    }
}

/// Whether the limit on steps is raised from 1 on until a flush isn't refused, at least one is
/// before, and then all is reported.
fn writes_at_last<S: Alter>(
    alloc: Global,
    limits: &Limits,
    shelf: &mut Shelf<S>,
    store: Store,
) -> Option<bool> {
    let mut commits = committed(alloc, limits, store, 1, 7)?;
    let mut held = None;
    for steps in 1..100u64 {
        let flushed = flush_under(alloc, limits, &mut commits, shelf, &mut held, steps).ok()?;
        if let Some(frames) = flushed {
            let told = are_done(frames.as_slice()) && commits.last_flushed() == 1;
            let left = held.is_none() && holds(alloc, limits, shelf, SEVENS);
            return Some(told && left && steps > 1);
        }
    }
    None
}

/// How many frames the server answers to client 0.
fn said(alloc: Global, server: &mut Server, body: Body) -> Option<usize> {
    let frame = Frame {
        client: ClientNo::new(0),
        incarnation: Incarnation::new(1),
        body,
    };
    if !frame.fits(server.limits()) {
        return None;
    }
    Some(server.take(alloc, &frame).ok()?.len())
}

/// Client 0 greets, reads page 0, may write it, and commits it full of sevens: how many frames
/// answer each.
fn commits_page(alloc: Global, limits: &Limits, server: &mut Server) -> Option<[usize; 4]> {
    let (txn, page, grant) = (TxnNo::new(1), PageNo::new(0), GrantNo::new(1));
    let hello = Body::Short(ShortBody::Hello);
    let read = Body::Short(ShortBody::AskRead { txn, page });
    let ask = Body::Short(ShortBody::AskWrite { txn, page, grant });
    let write = write_of(alloc, limits, page, 7).ok()?;
    let writes = Writes::from_vec(vec![in alloc; write].ok()?);
    Some([
        said(alloc, server, hello)?,
        said(alloc, server, read)?,
        said(alloc, server, ask)?,
        said(alloc, server, Body::Commit { txn, writes })?,
    ])
}

/// Whether the batch is refused under a limit of one step, with the tables as before, and is
/// written without one.
fn is_refused_once<S: Alter>(
    alloc: Global,
    limits: &Limits,
    shelf: &mut Shelf<S>,
    batch: &Batch,
) -> bool {
    shelf.limit_steps(1);
    let refused = shelf.write(batch).err() == Some(ShelfFault::Store);
    let before = holds(alloc, limits, shelf, ZEROS);
    refused && before && shelf.write(batch).is_ok()
}

/// Whether the server's batch is refused once, and its commit is done after it was written.
fn is_done_at_last<S: Alter>(
    alloc: Global,
    limits: &Limits,
    shelf: &mut Shelf<S>,
    server: &mut Server,
) -> Option<bool> {
    let answered = commits_page(alloc, limits, server)? == [1, 1, 1, 0];
    let batch = server.batch(alloc).ok()??;
    let number = batch.number();
    let written = is_refused_once(alloc, limits, shelf, &batch);
    let silent = server.again(alloc).ok()?.is_empty();
    if !server.can_flush(number) {
        return None;
    }
    let dones = server.flushed(alloc, number).ok()?;
    let told = are_done(dones.as_slice());
    Some(answered && written && silent && told && holds(alloc, limits, shelf, SEVENS))
}

/// Whether a server's batch is refused under a limit of one step, with the tables as before, and is
/// written without one. Nothing is reported before, and then its commit is done.
fn serves<S: Alter>(
    alloc: Global,
    limits: &Limits,
    shelf: &mut Shelf<S>,
    store: Store,
) -> Option<bool> {
    if !store.is_of(limits) {
        return None;
    }
    match Server::new(alloc, limits, store) {
        Ok(mut server) => is_done_at_last(alloc, limits, shelf, &mut server),
        Err(_) => None,
    }
}
