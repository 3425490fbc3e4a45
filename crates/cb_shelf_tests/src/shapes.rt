//! Which databases an open takes, and which it refuses.

use crate::disks::{
    SessionEnd, SessionTask, ShelfSession, TwoPages, new_files, reading, run_session,
};
use crate::reopened::ends_of;
use cb_page::Limits;
use cb_shelf::ShelfFault;
use std::alloc::Global;
use std::test::Fail;

/// The tables of an older generation, with a store.
pub(crate) static OLD: &'static str =
    "BEGIN; CREATE TABLE page(no INTEGER PRIMARY KEY, version INTEGER NOT NULL, body BLOB NOT \
     NULL) STRICT; CREATE TABLE mark(id INTEGER PRIMARY KEY, commits INTEGER NOT NULL, \
     page_size INTEGER NOT NULL) STRICT; INSERT INTO page VALUES (0, 3, \
     x'07070707070707070707070707070707'), (1, 0, x'00000000000000000000000000000000'); \
     INSERT INTO mark VALUES (1, 3, 16); COMMIT";

/// The store that either holds.
pub(crate) static OLD_STORE: TwoPages = (3, [(3, 7), (0, 0)]);

/// The tables of a shelf that kept no lives, with a store.
pub(crate) static NEW: &'static str =
    "BEGIN; CREATE TABLE mark2(id INTEGER PRIMARY KEY, commits INTEGER NOT NULL, page_size INTEGER \
     NOT NULL, pages INTEGER NOT NULL) STRICT; CREATE TABLE page2(no INTEGER PRIMARY KEY, \
     version INTEGER NOT NULL) STRICT; CREATE TABLE part(no INTEGER NOT NULL, place INTEGER \
     NOT NULL, body BLOB NOT NULL, PRIMARY KEY(no, place)) STRICT; INSERT INTO mark2 VALUES \
     (1, 3, 16, 2); INSERT INTO page2 VALUES (0, 3), (1, 0); INSERT INTO part VALUES (0, 0, \
     x'07070707070707070707070707070707'), (1, 0, x'00000000000000000000000000000000'); COMMIT";

/// What makes a shelf's tables a store of no such limits.
static SPOILED: [&'static str; 18] = [
    "DELETE FROM page2 WHERE no = 1",
    "UPDATE page2 SET no = 2 WHERE no = 1",
    "UPDATE page2 SET version = 4 WHERE no = 0",
    "UPDATE page2 SET version = -1 WHERE no = 1",
    "UPDATE part SET body = x'000000000000000000000000000000' WHERE no = 1",
    "UPDATE part SET body = x'0000000000000000000000000000000000' WHERE no = 1",
    "INSERT INTO part VALUES (0, 1, x'07')",
    "DELETE FROM part WHERE no = 0",
    "UPDATE mark2 SET page_size = 32",
    "UPDATE mark2 SET pages = 3",
    "UPDATE mark2 SET commits = 4611686018427387904",
    "UPDATE mark2 SET commits = -1",
    "DROP TABLE page2; CREATE TABLE page2(no, version); INSERT INTO page2 VALUES (0, 'x'), (1, 0)",
    "UPDATE part SET place = 1 WHERE no = 0",
    "DELETE FROM mark2",
    "UPDATE mark2 SET id = 2",
    "INSERT INTO mark2 VALUES (2, 3, 16, 2)",
    "DROP TABLE part",
];

/// What makes old tables none that are copied.
static OLD_SPOILED: [&'static str; 7] = [
    "DELETE FROM page WHERE no = 1",
    "UPDATE page SET version = 4 WHERE no = 0",
    "UPDATE page SET body = \
     x'0000000000000000000000000000000000000000000000000000000000000000' WHERE no = 1",
    "DELETE FROM mark",
    "DROP TABLE mark",
    "DELETE FROM mark; DELETE FROM page",
    "UPDATE mark SET page_size = 32",
];

/// A table of a shelf with other columns.
static NAMED: &'static str = "CREATE TABLE mark2(id INTEGER PRIMARY KEY) STRICT";

/// Runs only where the old tables have no row: the pages of the new ones have these numbers.
static EMPTIED: &'static str = "INSERT INTO page2 SELECT no, version FROM page; \
     INSERT INTO mark2 SELECT id, commits, page_size, 2 FROM mark";

/// What an open of new files says after these texts.
fn opened<'a>(alloc: Global, limits: &'a Limits, tables: &'a str, second: &'a str) -> SessionEnd {
    let (texts, task) = ([tables, second], SessionTask::Load);
    let files = new_files(alloc);
    let session = ShelfSession {
        limits,
        texts,
        task,
    };
    let (end, _) = run_session(alloc, files, session);
    end
}

/// Whether these tables are refused as another shape after each of these texts.
fn have_other_shapes(
    alloc: Global,
    limits: &Limits,
    tables: &'static str,
    texts: &[&'static str],
) -> bool {
    for text in texts {
        let second = *text;
        let end = opened(alloc, limits, tables, second);
        if end != SessionEnd::Refused(ShelfFault::Shape) {
            return false;
        }
    }
    true
}

/// Whether old tables are copied, opened again, and left with no row.
fn is_copied(alloc: Global, limits: &Limits) -> bool {
    let there = SessionEnd::Holds(Some(OLD_STORE));
    let sessions = [
        reading(limits, OLD),
        reading(limits, EMPTIED),
        reading(limits, ""),
    ];
    let [copied, again, _] = ends_of(alloc, sessions);
    copied == there && again == there
}

#[test]
fn old_tables_copied(rt: HostRuntime) -> Result<(), Fail> {
    let limits = Limits::new(1, 2, 16, 2, 1, 1)?;
    assert!(rt; is_copied(rt.alloc(), &limits));
    Ok(())
}

/// Whether all these are refused: other shapes of the tables and of the old ones, both together,
/// what is no shelf's, and an open transaction.
fn are_refused(alloc: Global, limits: &Limits) -> bool {
    let new = have_other_shapes(alloc, limits, NEW, &SPOILED);
    let old = have_other_shapes(alloc, limits, OLD, &OLD_SPOILED);
    let both = have_other_shapes(alloc, limits, NEW, &[OLD]);
    let store = SessionEnd::Refused(ShelfFault::Store);
    let named = opened(alloc, limits, NAMED, "") == store;
    let begun = opened(alloc, limits, "BEGIN", "") == store;
    new && old && both && named && begun
}

#[test]
fn other_shapes_are_refused(rt: HostRuntime) -> Result<(), Fail> {
    let limits = Limits::new(1, 2, 16, 2, 1, 1)?;
    assert!(rt; are_refused(rt.alloc(), &limits));
    assert!(rt; opened(rt.alloc(), &limits, NEW, "") == SessionEnd::Holds(Some(OLD_STORE)));
    Ok(())
}
