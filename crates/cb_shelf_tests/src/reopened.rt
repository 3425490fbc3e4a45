//! What a shelf holds that is opened again.

use crate::batches::{SEVENS, Writing};
use crate::disks::{
    SessionEnd, SessionTask, ShelfSession, TwoPages, new_files, reading, run_session, session_of,
};
use crate::shapes::{OLD, OLD_STORE};
use cb_page::Limits;
use cb_shelf::ShelfFault;
use std::alloc::Global;
use std::test::Fail;

/// What comes of the sessions, one after another over the same files, with a crash after each.
pub(crate) fn ends_of(alloc: Global, sessions: [ShelfSession<'_>; 3]) -> [SessionEnd; 3] {
    let files = new_files(alloc);
    let (first, files) = run_session(alloc, files, sessions[0]);
    let (second, files) = run_session(alloc, files, sessions[1]);
    let (third, _) = run_session(alloc, files, sessions[2]);
    [first, second, third]
}

/// Whether a commit is written so over zeros, and this is there when the tables are opened again,
/// twice.
fn is_written(alloc: Global, limits: &Limits, writing: Writing, held: TwoPages) -> bool {
    let first = session_of(limits, "", SessionTask::Write(writing));
    let read = reading(limits, "");
    let there = SessionEnd::Holds(Some(held));
    ends_of(alloc, [first, read, read]) == [SessionEnd::Written(true), there, there]
}

/// A batch that the table refuses isn't reported, leaves the table, and is written again: that of a
/// server, and that of a flush.
#[test]
fn refused_table(rt: HostRuntime) -> Result<(), Fail> {
    let limits = Limits::new(1, 2, 16, 2, 1, 1)?;
    assert!(rt; is_written(rt.alloc(), &limits, Writing::Served, SEVENS));
    assert!(rt; is_written(rt.alloc(), &limits, Writing::Raised, SEVENS));
    Ok(())
}

/// Pages of two parts, of five with a short last one, and of thirty-two.
#[test]
fn pages_of_many_parts(rt: HostRuntime) -> Result<(), Fail> {
    let nines = (1, [(1, 9), (1, 9)]);
    for size in [4096, 8208, 65536] {
        let limits = Limits::new(1, 2, size, 2, 1, 1)?;
        assert!(rt; is_written(rt.alloc(), &limits, Writing::Once, nines));
    }
    Ok(())
}

/// Whether older tables of 16 bytes a page are refused by limits of 32, twice, and hold what they
/// did.
fn keep_their_size(alloc: Global, small: &Limits, large: &Limits) -> bool {
    let refused = SessionEnd::Refused(ShelfFault::Shape);
    let sessions = [reading(large, OLD), reading(large, ""), reading(small, "")];
    ends_of(alloc, sessions) == [refused, refused, SessionEnd::Holds(Some(OLD_STORE))]
}

/// Whether their copy is, and holds the same before and after.
fn copy_keeps_its_size(alloc: Global, small: &Limits, large: &Limits) -> bool {
    let held = SessionEnd::Holds(Some(OLD_STORE));
    let sessions = [reading(small, OLD), reading(large, ""), reading(small, "")];
    ends_of(alloc, sessions) == [held, SessionEnd::Refused(ShelfFault::Shape), held]
}

#[test]
fn limits_of_another_page_size(rt: HostRuntime) -> Result<(), Fail> {
    let small = Limits::new(1, 2, 16, 2, 1, 1)?;
    let large = Limits::new(1, 2, 32, 2, 1, 1)?;
    assert!(rt; keep_their_size(rt.alloc(), &small, &large));
    assert!(rt; copy_keeps_its_size(rt.alloc(), &small, &large));
    Ok(())
}
