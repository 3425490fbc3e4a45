//! The example of the first page of `cb_office`.
ghost use Rattle.std.specs.Prelude.{◌≡◌, false};

use crate::running::disks::{NONE, once};
use crate::running::work::{ShelfTask, WorkEnd, opening};
use cb_office::{
    Chooser, ClientNo, CommitNo, Finished, FlushStop, Limits, Office, PageNo, Shelf, Station, TwoQ,
    Worker, WorkerFault, flush_loop,
};
use sqlite::Alter;
use std::alloc::Global;
use std::sync::Wait;
use std::time::Clock;

/// Why nothing is on disk.
#[derive(Drop)]
enum Failure {
    Worker(WorkerFault),
    Flusher(FlushStop),
}

impl From<WorkerFault> for Failure {
    fn from(fault: WorkerFault) -> Failure {
        Failure::Worker(fault)
    }
}

impl From<FlushStop> for Failure {
    fn from(stop: FlushStop) -> Failure {
        Failure::Flusher(stop)
    }
}

/// A client reads page 0, is permitted to write it, and commits 16 bytes of 7.
fn commits<R: Wait>(
    rt: &R,
    alloc: Global,
    office: &Office,
    worker: &mut Worker<TwoQ>,
) -> Result<(), WorkerFault> {
    let page = PageNo::new(0);
    worker.begin()?;
    worker.fetch(rt, alloc, office, page)?;
    worker.want(rt, alloc, office, page)?;
    worker.write(page, &[7; 16])?;
    worker.commit_at(alloc, &mut office.lock(rt))?;
    Ok(())
}

/// It does so; then the flusher writes these bytes to the shelf, and ends since the office is
/// closed. The client is told that they are on disk.
fn finishes<R: Wait + Clock, S: Alter>(
    rt: &R,
    alloc: Global,
    office: &Office,
    shelf: &mut Shelf<S>,
    worker: &mut Worker<TwoQ>,
) -> Result<Finished, Failure> {
    commits(rt, alloc, office, worker)?;
    office.close(rt);
    flush_loop(rt, alloc, office, shelf)?;
    Ok(worker.finish(rt, alloc, office)?)
}

/// Whether a client that joins an office over a shelf commits the first transaction, and leaves.
fn joins_commits_and_leaves<R: Wait + Clock, S: Alter>(
    rt: &R,
    alloc: Global,
    limits: &Limits,
    shelf: &mut Shelf<S>,
) -> Option<bool>
    requires plain { limits.now.keep_write ≡ false }
    requires shelf { shelf.old.limits ≡ limits.now }
{
    let store = shelf.load(alloc).ok()?;
    let office = Office::new(Station::new(alloc, limits, store).ok()?, 1);
    let Ok(chooser) = TwoQ::make(alloc, limits) else {
        return None;
    };
    let client = ClientNo::new(0);
    let mut worker = Worker::join(rt, alloc, &office, limits, client, chooser).ok()?;
    let finished = finishes(rt, alloc, &office, shelf, &mut worker).ok();
    let is_first = finished == Some(Finished::Committed(CommitNo::new(1)));
    match worker.leave(rt, alloc, &office) {
        Ok(()) => Some(is_first),
        Err((_, worker)) => {
            worker.abandon();
            None
        }
    }
}

/// Whether the first page is 16 bytes of 7 in what the shelf holds.
fn has_the_page<S: Alter>(alloc: Global, limits: &Limits, shelf: &mut Shelf<S>) -> Option<bool> {
    let store = shelf.load(alloc).ok()?;
    if !store.is_of(limits) {
        return None;
    }
    let page = PageNo::in_store(limits, 0)?;
    Some(store.bytes(page) == [7; 16].as_slice())
}

/// Whether a client does so, and the shelf has the page then.
pub(crate) fn puts_the_page_there<R: Wait + Clock, S: Alter>(
    rt: &R,
    alloc: Global,
    limits: &Limits,
    shelf: &mut Shelf<S>,
) -> Option<bool>
    requires plain { limits.now.keep_write ≡ false }
    requires shelf { shelf.old.limits ≡ limits.now }
{
    let is_first = joins_commits_and_leaves(rt, alloc, limits, shelf)?;
    Some(is_first && has_the_page(alloc, limits, shelf)?)
}

/// Over a new database, on which `Shelf::open` makes the shelf.
#[test]
fn example(rt: HostRuntime) {
    let work = opening(ShelfTask::Example);
    assert!(rt; once(&rt, rt.alloc(), 1, NONE, work) == WorkEnd::Well(true));
}
