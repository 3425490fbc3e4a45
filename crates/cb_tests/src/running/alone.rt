//! A client alone with the office, on one thread, which does the flusher's part too.
use crate::running::trials::{Trial, goes_well};
use cb_page::{ClientNo, CommitNo, PageNo};
use cb_shelf::Shelf;
use cb_station::Office;
use cb_twoq::Chooser;
use cb_worker::{Fetched, Finished, Wanted, Worker, WorkerFault};
use sqlite::Alter;
use std::alloc::Global;
use std::sync::Wait;

/// Whether these are the bytes of a page, each that number.
fn is_all(bytes: &[u8], number: u8) -> bool {
    bytes == [number; 16].as_slice()
}

/// Begins a transaction and reads page 0; whether it is zeros, and may be written.
pub(crate) fn reads<Q: Chooser, R: Wait>(
    rt: &R,
    alloc: Global,
    office: &Office,
    worker: &mut Worker<Q>,
) -> Result<bool, WorkerFault> {
    let page = PageNo::new(0);
    worker.begin()?;
    let zeros = match worker.fetch(rt, alloc, office, page)? {
        Fetched::Bytes(bytes) => is_all(bytes, 0),
        Fetched::Aborted => false,
    };
    Ok(worker.want(rt, alloc, office, page)? == Wanted::Permitted && zeros)
}

/// Whether the next batch is written, and reported as on disk.
fn flushes<R: Wait, S: Alter>(
    rt: &R,
    alloc: Global,
    office: &Office,
    shelf: &mut Shelf<S>,
) -> bool {
    let Ok(Some(batch)) = office.lock(rt).batch(alloc) else {
        return false;
    };
    match shelf.write(&batch) {
        Ok(written) => office.lock(rt).flushed(alloc, &written).is_ok(),
        Err(_) => false,
    }
}

/// It writes the page, and commits; the commit is reported as on disk.
fn writes<Q: Chooser, R: Wait, S: Alter>(
    rt: &R,
    alloc: Global,
    office: &Office,
    shelf: &mut Shelf<S>,
    worker: &mut Worker<Q>,
) -> Result<bool, WorkerFault> {
    let first = CommitNo::new(1);
    worker.write(PageNo::new(0), &[7; 16])?;
    let committed = worker.commit_at(alloc, &mut office.lock(rt));
    let flushed = flushes(rt, alloc, office, shelf);
    let finished = worker.finish(rt, alloc, office)? == Finished::Committed(first);
    Ok(committed == Ok(first) && flushed && finished)
}

/// Whether the client can join again.
pub(crate) fn may_come_back<R: Wait>(rt: &R, alloc: Global, office: &Office) -> bool {
    let joined = office.lock(rt).join(alloc, ClientNo::new(0));
    match joined {
        Ok(hand) => {
            hand.abandon();
            true
        }
        Err(_) => false,
    }
}

/// It reads, writes, commits and leaves; then its number may join again.
pub(crate) fn commits_and_leaves<Q: Chooser, R: Wait, S: Alter>(
    rt: &R,
    alloc: Global,
    office: &Office,
    shelf: &mut Shelf<S>,
    mut worker: Worker<Q>,
) -> bool {
    let read = reads(rt, alloc, office, &mut worker) == Ok(true);
    let wrote = writes(rt, alloc, office, shelf, &mut worker) == Ok(true);
    match worker.leave(rt, alloc, office) {
        Ok(()) => read && wrote && may_come_back(rt, alloc, office),
        Err((_, worker)) => {
            worker.abandon();
            false
        }
    }
}

#[test]
fn a_client_alone(rt: HostRuntime) {
    assert!(rt; goes_well(Trial::Alone, &rt, rt.alloc()));
}
