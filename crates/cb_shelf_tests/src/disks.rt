//! Sessions over a database whose files lie on disks in memory, of which one may stop.

use crate::batches::{Writing, writes};
use crate::databases::{connect, disk_of, files_of, small_database};
use cb_commit::Store;
use cb_page::{Incarnation, Limits, PageNo};
use cb_shelf::{Life, Shelf, ShelfFault};
use sqlite::{Alter, Connection, FileStore, Files, Options};
use sqlite_disk::{Crash, Disk, Fuse, Memory};
use std::alloc::{AllocError, Global};

/// A database is opened, texts run over it, and a shelf of these limits is opened; this is done to
/// it then.
#[derive(Clone, Copy)]
pub(crate) struct ShelfSession<'a> {
    pub(crate) limits: &'a Limits,
    pub(crate) texts: [&'a str; 2],
    pub(crate) task: SessionTask,
}

/// A session of one text, and of this that is done to the shelf.
pub(crate) fn session_of<'a>(
    limits: &'a Limits,
    text: &'a str,
    task: SessionTask,
) -> ShelfSession<'a> {
    ShelfSession {
        limits,
        texts: [text, ""],
        task,
    }
}

/// A session of one text, in which the shelf is read.
pub(crate) fn reading<'a>(limits: &'a Limits, text: &'a str) -> ShelfSession<'a> {
    session_of(limits, text, SessionTask::Load)
}

/// What is done to a shelf.
#[derive(Clone, Copy)]
pub(crate) enum SessionTask {
    /// It is read.
    Load,
    /// A commit is written.
    Write(Writing),
    /// A life of a server begins, and gets room for a Hello of this incarnation.
    Live(u64),
    /// The same, and then a commit is written, as for `Writing::Once`.
    Serve(u64),
    /// It is read, and a life begins.
    LoadAndLive,
}

/// How far a session came.
#[derive(Clone, Copy, PartialEq, Eq)]
pub(crate) enum SessionEnd {
    /// No database was opened.
    Nothing,
    /// The database was opened, and a text didn't run.
    Database,
    /// The shelf was refused.
    Refused(ShelfFault),
    /// It was opened, and not read.
    Unread(ShelfFault),
    /// It holds this; nothing where that isn't one byte a page.
    Holds(Option<TwoPages>),
    /// Whether what was to be written was.
    Written(bool),
    /// No life began.
    Unbegun(ShelfFault),
    /// A life began with this floor; whether it got its room.
    Lived(u64, bool),
    /// One did and got its room; whether the commit was written.
    Served(u64, bool),
    /// It held this, as for `Holds`, and then a life began with this floor.
    Kept(Option<TwoPages>, u64),
}

/// A store of two pages: its number, and the version of each page and the byte that fills it.
pub(crate) type TwoPages = (u64, [(u64, u8); 2]);

/// Files with an empty log and this database, which don't stop.
fn files_with(alloc: Global, db: Memory) -> Files<Fuse<Memory>> {
    Files {
        log: Fuse::new(Memory::new(alloc), u64::MAX),
        db: Fuse::new(db, u64::MAX),
    }
}

/// New files, which don't stop.
pub(crate) fn new_files(alloc: Global) -> Files<Fuse<Memory>> {
    files_with(alloc, Memory::new(alloc))
}

/// New files with the bytes of these: after so many calls the log stops, or else the other one.
/// None where memory is refused.
pub(crate) fn copies_that_stop(
    alloc: Global,
    files: &Files<Fuse<Memory>>,
    is_log: bool,
    count: u64,
) -> Option<Files<Fuse<Memory>>> {
    let log = disk_of(alloc, files.log.inner().bytes())?;
    let db = disk_of(alloc, files.db.inner().bytes())?;
    let (log_calls, db_calls) = if is_log {
        (count, u64::MAX)
    } else {
        (u64::MAX, count)
    };
    Some(Files {
        log: Fuse::new(log, log_calls),
        db: Fuse::new(db, db_calls),
    })
}

/// The log is copied into the file before each transaction, and two pages that were read are kept,
/// so that the file is called throughout.
const OFTEN: Options = Options {
    cache_pages: 2,
    spill_pages: 2000,
    checkpoint_frames: 1,
    seed: 1,
};

/// A database over new files, which want of memory alone refuses.
pub(crate) fn new_database(
    alloc: Global,
) -> Result<Connection<FileStore<Fuse<Memory>>>, AllocError> {
    match connect(alloc, new_files(alloc), OFTEN) {
        Ok(conn) => Ok(conn),
        Err(_) => Err(AllocError),
    }
}

/// The files of a database over which this text ran; None where it didn't. Where the text is empty
/// the database is new, and else it has small pages.
pub(crate) fn files_after(alloc: Global, text: &str) -> Option<Files<Fuse<Memory>>> {
    let files = if text.is_empty() {
        new_files(alloc)
    } else {
        files_with(alloc, small_database(alloc))
    };
    let mut conn = connect(alloc, files, OFTEN).ok()?;
    let ran = run_texts(&mut conn, [text, ""]);
    let files = files_of(conn);
    ran.then_some(files)
}

/// How far a session comes, and the files.
fn session_over(
    alloc: Global,
    files: Files<Fuse<Memory>>,
    session: ShelfSession<'_>,
) -> (SessionEnd, Files<Fuse<Memory>>) {
    match connect(alloc, files, OFTEN) {
        Ok(conn) => {
            let (end, conn) = over(alloc, conn, session);
            (end, files_of(conn))
        }
        Err(files) => (SessionEnd::Nothing, files),
    }
}

/// How far a session comes, and the files after a crash.
pub(crate) fn run_session(
    alloc: Global,
    files: Files<Fuse<Memory>>,
    session: ShelfSession<'_>,
) -> (SessionEnd, Files<Fuse<Memory>>) {
    let (end, mut files) = session_over(alloc, files, session);
    files.log.crash();
    files.db.crash();
    (end, files)
}

/// Whether the texts run.
fn run_texts<S: Alter>(conn: &mut Connection<S>, texts: [&str; 2]) -> bool {
    conn.execute_batch(texts[0]).is_ok() && conn.execute_batch(texts[1]).is_ok()
}

/// The same over a connection, which comes back.
fn over<S: Alter>(
    alloc: Global,
    mut conn: Connection<S>,
    session: ShelfSession<'_>,
) -> (SessionEnd, Connection<S>) {
    if !run_texts(&mut conn, session.texts) {
        return (SessionEnd::Database, conn);
    }
    match Shelf::open(alloc, conn, session.limits) {
        Ok(mut shelf) => {
            let end = done(alloc, session.limits, &mut shelf, session.task);
            (end, shelf.close())
        }
        Err((fault, conn)) => (SessionEnd::Refused(fault), conn),
    }
}

fn done<S: Alter>(
    alloc: Global,
    limits: &Limits,
    shelf: &mut Shelf<S>,
    task: SessionTask,
) -> SessionEnd {
    match task {
        SessionTask::Load => read(alloc, limits, shelf),
        SessionTask::Write(writing) => SessionEnd::Written(writes(alloc, limits, shelf, writing)),
        SessionTask::Live(incarnation) => lived(shelf, incarnation),
        SessionTask::Serve(incarnation) => match lived(shelf, incarnation) {
            SessionEnd::Lived(floor, true) => {
                SessionEnd::Served(floor, writes(alloc, limits, shelf, Writing::Once))
            }
            end => end,
        },
        SessionTask::LoadAndLive => match (read(alloc, limits, shelf), lived(shelf, 0)) {
            (SessionEnd::Holds(held), SessionEnd::Lived(floor, _)) => SessionEnd::Kept(held, floor),
            (SessionEnd::Holds(_), end) | (end, _) => end,
        },
    }
}

fn read<S: Alter>(alloc: Global, limits: &Limits, shelf: &mut Shelf<S>) -> SessionEnd {
    match shelf.load(alloc) {
        Ok(store) => SessionEnd::Holds(held_by(limits, &store)),
        Err(fault) => SessionEnd::Unread(fault),
    }
}

/// A life begins, and gets room for a Hello.
fn lived<S: Alter>(shelf: &mut Shelf<S>, incarnation: u64) -> SessionEnd {
    match shelf.begin_life() {
        Ok(mut life) => {
            let floor = life.floor().get();
            SessionEnd::Lived(floor, gets_room(shelf, &mut life, incarnation))
        }
        Err(fault) => SessionEnd::Unbegun(fault),
    }
}

/// From here on no incarnation is given room.
const END: u64 = 3 << 60;

/// Whether the life has no room for it yet, and gets it.
fn gets_room<S: Alter>(shelf: &mut Shelf<S>, life: &mut Life, incarnation: u64) -> bool {
    if incarnation >= END {
        return false;
    }
    match Incarnation::checked(incarnation) {
        Some(incarnation) if !life.has_room_for(incarnation) => {
            shelf.raise(life, incarnation).is_ok()
        }
        _ => false,
    }
}

/// What a store of two pages holds, each of which one byte fills.
pub(crate) fn held_by(limits: &Limits, store: &Store) -> Option<TwoPages> {
    if limits.pages() != 2 {
        return None;
    }
    Some((
        store.number(),
        [row_of(limits, store, 0)?, row_of(limits, store, 1)?],
    ))
}

fn row_of(limits: &Limits, store: &Store, number: u64) -> Option<(u64, u8)> {
    if !store.is_of(limits) {
        return None;
    }
    let page = PageNo::in_store(limits, number)?;
    let bytes = store.bytes(page);
    let byte = *bytes.first()?;
    let is_full = bytes.iter().all(|other| *other == byte);
    is_full.then_some((store.version(page).get(), byte))
}
