//! Stops of the database's log and of its file, at each of their calls in turn, and a crash: what a
//! service leaves, and with which floor the next life begins.

use crate::batches::ZEROS;
use crate::disks::{
    SessionEnd, SessionTask, TwoPages, copies_that_stop, files_after, run_session, session_of,
};
use crate::lives::{HELLO, RANGE, UNKEPT};
use crate::shapes::{NEW, OLD, OLD_STORE};
use cb_page::Limits;
use cb_shelf::ShelfFault;
use cb_test_parts::beside::all_go_well;
use sqlite::Files;
use sqlite_disk::{Fuse, Memory};
use std::alloc::Global;
use std::sync::Wait;
use std::test::Fail;
use std::thread::Threads;

/// Tables that a text makes: the store in them, the floor of the first life over them, and whether
/// they are a shelf's own, which it opens without a call of a disk.
#[derive(Clone, Copy)]
struct Tables {
    text: &'static str,
    before: TwoPages,
    first: u64,
    are_own: bool,
}

/// No tables: a shelf makes its own.
const NO_TABLES: Tables = Tables {
    text: "",
    before: ZEROS,
    first: 1,
    are_own: false,
};

/// A table that isn't of a shelf, which makes its own beside it.
const OTHER: Tables = Tables {
    text: "CREATE TABLE other(id INTEGER PRIMARY KEY) STRICT",
    before: ZEROS,
    first: 1,
    are_own: false,
};

/// Tables of an older generation, which are copied.
const OLDER: Tables = Tables {
    text: OLD,
    before: OLD_STORE,
    first: UNKEPT,
    are_own: false,
};

/// Tables of a shelf that kept no lives.
const LIFELESS: Tables = Tables {
    text: NEW,
    before: OLD_STORE,
    first: UNKEPT,
    are_own: true,
};

/// Whether that may be found after a crash, where a disk stopped amid a session over the tables, in
/// which a life was to begin, to get room for a Hello, and to write a commit.
fn may_be_left(reached: SessionEnd, left: SessionEnd, tables: Tables) -> bool {
    let SessionEnd::Kept(Some(held), floor) = left else {
        return false;
    };
    let Tables { before, first, .. } = tables;
    let was_kept = held == before;
    let number = before.0.wrapping_add(1);
    let is_written = held == (number, [(number, 9), (number, 9)]);
    let begun = first.wrapping_add(RANGE);
    let raised = first.wrapping_add(HELLO).wrapping_add(RANGE);
    match reached {
        SessionEnd::Nothing | SessionEnd::Database | SessionEnd::Refused(ShelfFault::Store) => {
            was_kept && floor == first
        }
        SessionEnd::Unbegun(ShelfFault::Store) => was_kept && (floor == first || floor == begun),
        SessionEnd::Lived(handed, false) => {
            handed == first && was_kept && (floor == begun || floor == raised)
        }
        SessionEnd::Served(handed, was_written) => {
            let is_left = is_written || (was_kept && !was_written);
            handed == first && floor == raised && is_left
        }
        _ => false,
    }
}

/// How many sessions stopped as the shelf was opened, as a life began, as it got room, and as the
/// commit was written.
#[derive(Clone, Copy, Default)]
struct Stops {
    opening: u32,
    beginning: u32,
    raising: u32,
    writing: u32,
}

impl Stops {
    /// One more, where it came so far.
    fn count(&mut self, reached: SessionEnd) {
        match reached {
            SessionEnd::Refused(_) => self.opening = self.opening.wrapping_add(1),
            SessionEnd::Unbegun(_) => self.beginning = self.beginning.wrapping_add(1),
            SessionEnd::Lived(_, _) => self.raising = self.raising.wrapping_add(1),
            SessionEnd::Served(_, _) => self.writing = self.writing.wrapping_add(1),
            _ => {}
        }
    }

    /// Whether there is one of each, and none in an open that calls no disk.
    fn are_some(self, tables: Tables) -> bool {
        let opened = tables.are_own == (self.opening == 0);
        opened && self.beginning > 0 && self.raising > 0 && self.writing > 0
    }
}

/// What a look found in files, and a copy of these as they were before it.
#[derive(Drop)]
struct Look {
    files: Files<Fuse<Memory>>,
    found: SessionEnd,
}

/// Whether the disks of both have the same bytes.
fn have_same_bytes(one: &Files<Fuse<Memory>>, other: &Files<Fuse<Memory>>) -> bool {
    one.log.inner().bytes() == other.log.inner().bytes()
        && one.db.inner().bytes() == other.db.inner().bytes()
}

/// Looks at the files that a crash left. Between two syncs each stop leaves the same bytes, in
/// which the last look found what this one would.
fn look_at(
    alloc: Global,
    limits: &Limits,
    files: Files<Fuse<Memory>>,
    last: Option<Look>,
) -> Option<Look> {
    match last {
        Some(look) if have_same_bytes(&files, &look.files) => Some(look),
        _ => {
            let copies = copies_that_stop(alloc, &files, true, u64::MAX)?;
            let session = session_of(limits, "", SessionTask::LoadAndLive);
            let (found, _) = run_session(alloc, copies, session);
            Some(Look { files, found })
        }
    }
}

/// What a session comes to over copies of these files, of which one stops after so many calls, and
/// the files that it leaves after a crash.
fn stopped(
    alloc: Global,
    limits: &Limits,
    files: &Files<Fuse<Memory>>,
    tables: Tables,
    is_log: bool,
    count: u64,
) -> Option<(SessionEnd, Files<Fuse<Memory>>)> {
    let task = SessionTask::Serve(tables.first.wrapping_add(HELLO));
    let copies = copies_that_stop(alloc, files, is_log, count)?;
    Some(run_session(alloc, copies, session_of(limits, "", task)))
}

/// The stops of sessions of which each is stopped by one call more, up to the one that isn't
/// stopped. `None` where one left what it may not.
fn count_stops(
    alloc: Global,
    limits: &Limits,
    files: &Files<Fuse<Memory>>,
    tables: Tables,
    is_log: bool,
) -> Option<Stops> {
    let mut stops = Stops::default();
    let mut last = None;
    for count in 0..1_000 {
        let (reached, left) = stopped(alloc, limits, files, tables, is_log, count)?;
        let look = look_at(alloc, limits, left, last)?;
        if !may_be_left(reached, look.found, tables) {
            return None;
        }
        if reached == SessionEnd::Served(tables.first, true) {
            return Some(stops);
        }
        stops.count(reached);
        last = Some(look);
    }
    None
}

/// Whether each stop over these tables leaves what it may, and some come in each part of a session.
fn survives_stops(alloc: Global, limits: &Limits, tables: Tables, is_log: bool) -> bool {
    let Some(files) = files_after(alloc, tables.text) else {
        return false;
    };
    let stops = count_stops(alloc, limits, &files, tables, is_log);
    stops.is_some_and(|stops| stops.are_some(tables))
}

/// The same over each of these tables, each on a thread of its own.
fn survive_stops<R: Threads + Wait>(
    rt: &R,
    alloc: Global,
    tables: &[Tables],
    is_log: bool,
) -> Result<bool, Fail> {
    let limits = Limits::new(1, 2, 16, 2, 1, 1)?;
    Ok(all_go_well(
        rt,
        tables.len(),
        &|number: usize| {
            let at = tables.get(number);
            at.is_some_and(|tables| survives_stops(alloc, &limits, *tables, is_log))
        },
    ))
}

#[test]
fn log_stops(rt: HostRuntime) -> Result<(), Fail> {
    assert!(rt; survive_stops(&rt, rt.alloc(), &[NO_TABLES, OTHER, OLDER], true)?);
    Ok(())
}

#[test]
fn file_stops(rt: HostRuntime) -> Result<(), Fail> {
    let tables = [NO_TABLES, OTHER, OLDER, LIFELESS];
    assert!(rt; survive_stops(&rt, rt.alloc(), &tables, false)?);
    Ok(())
}
