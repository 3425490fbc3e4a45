//! Work over a database whose files lie on disks in memory: the one place that owns a connection.
//!
//! All connections are of one kind, since the library of the database is built once for each, and
//! one function alone opens them.
use crate::running::balky::Balky;
use crate::running::clocks::OwnClock;
use crate::running::hurried::Hurried;
use crate::running::looking::Looks;
use crate::running::work::{ShelfTask, Work, WorkEnd, opening, work_on};
use cb_page::Limits;
use cb_shelf_tests::databases::{connect, files_of, small_database};
use sqlite::{Connection, Files, Options};
use sqlite_disk::{Crash, Disk, Fuse, Memory};
use std::alloc::Global;
use std::sync::Wait;
use std::sync::atomic::AtomicU64;
use std::thread::Threads;
use std::time::Clock;

/// After how many calls the disks of the log and of the database stop, and how many writes the log
/// refuses before.
#[derive(Clone, Copy)]
pub(crate) struct Faults<'a> {
    pub(crate) log: u64,
    pub(crate) db: u64,
    pub(crate) left: Option<&'a AtomicU64>,
    /// Whether none is refused any more once a second was slept.
    pub(crate) frees: bool,
    /// What shows the time, where that isn't the runtime's; it goes on as the log is written.
    pub(crate) clock: Option<&'a OwnClock>,
    /// What is looked at before each write of the log.
    pub(crate) looks: Option<Looks<'a>>,
}

/// Disks that don't stop, and refuse nothing.
pub(crate) const NONE: Faults<'static> = Faults {
    log: u64::MAX,
    db: u64::MAX,
    left: None,
    frees: false,
    clock: None,
    looks: None,
};

/// Room for all pages of the tables, which an open clears; and a short log, since a sync of a disk
/// in memory copies it. Without proofs more of either takes most of the tests' time.
const SHORT: Options = Options {
    cache_pages: 32,
    spill_pages: 2000,
    checkpoint_frames: 64,
    seed: 1,
};

/// Does this over a new connection to these files, with so many clients and two pages of sixteen
/// bytes.
fn over<R: Threads + Wait + Clock + Sync, D: Disk + Drop>(
    rt: &R,
    alloc: Global,
    clients: u16,
    files: Files<D>,
    work: Work<'_>,
) -> (WorkEnd, Files<D>) {
    let Ok(limits) = Limits::new(u64::from(clients), 2, 16, 2, 1, 1) else {
        return (WorkEnd::Nothing, files);
    };
    match connect(alloc, files, SHORT) {
        Ok(conn) => {
            let (end, conn) = work_on(rt, alloc, &limits, conn, work);
            (end, files_of(conn))
        }
        Err(files) => (WorkEnd::Nothing, files),
    }
}

/// New files with these faults. Where no disk stops there is a database of small pages.
fn new_files<'a, R: Wait>(
    rt: &'a R,
    alloc: Global,
    faults: Faults<'a>,
) -> Files<Balky<'a, R, Fuse<Memory>>> {
    let stops = faults.log != u64::MAX || faults.db != u64::MAX;
    let db = if stops {
        Memory::new(alloc)
    } else {
        small_database(alloc)
    };
    Files {
        log: Balky::new(
            rt,
            Fuse::new(Memory::new(alloc), faults.log),
            faults.left,
            faults.clock,
            faults.looks,
        ),
        db: Balky::new(rt, Fuse::new(db, faults.db), None, None, None),
    }
}

/// The runtime of runs with these faults.
fn hurried<'a, R>(rt: &'a R, faults: Faults<'a>) -> Hurried<'a, R> {
    let room = if faults.frees { faults.left } else { None };
    Hurried::new(rt, room, faults.clock)
}

/// Does this over new disks, with so many clients.
pub(crate) fn once<R: Threads + Wait + Clock + Sync>(
    rt: &R,
    alloc: Global,
    clients: u16,
    faults: Faults<'_>,
    work: Work<'_>,
) -> WorkEnd {
    let files = new_files(rt, alloc, faults);
    over(&hurried(rt, faults), alloc, clients, files, work).0
}

/// Whether a disk was refused memory for a write or a sync of it.
fn have_wanted<R: Wait, D: Disk>(files: &Files<Balky<'_, R, D>>) -> bool {
    files.log.has_wanted() || files.db.has_wanted()
}

/// What came of work, and whether a disk was refused memory for a write or a sync of it.
pub(crate) type Reached = (WorkEnd, bool);

/// Does both over new disks, with so many clients, and a crash between them.
pub(crate) fn both<R: Threads + Wait + Clock + Sync>(
    rt: &R,
    alloc: Global,
    clients: u16,
    faults: Faults<'_>,
    works: [Work<'_>; 2],
) -> (Reached, Reached) {
    let hurried = hurried(rt, faults);
    let files = new_files(rt, alloc, faults);
    let (first, mut files) = over(&hurried, alloc, clients, files, works[0]);
    let had_wanted = have_wanted(&files);
    files.log.crash();
    files.db.crash();
    let (second, files) = over(&hurried, alloc, clients, files, works[1]);
    ((first, had_wanted), (second, have_wanted(&files)))
}
