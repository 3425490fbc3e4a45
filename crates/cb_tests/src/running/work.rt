//! What is done over a database.
ghost use Rattle.std.specs.Prelude.{◌≡◌, false};

use crate::example::puts_the_page_there;
use crate::running::gates::Counts;
use crate::running::run::Came;
use crate::running::stops::is_beginning;
use crate::running::trials::{Trial, comes_over};
use cb_page::Limits;
use cb_shelf::{Shelf, ShelfFault};
use sqlite::{Alter, Connection};
use std::alloc::Global;
use std::sync::Wait;
use std::thread::Threads;
use std::time::Clock;

/// A text that runs over a connection, and what is done to the shelf that is opened then.
#[derive(Clone, Copy)]
pub(crate) struct Work<'a> {
    pub(crate) text: &'a str,
    pub(crate) task: ShelfTask<'a>,
}

/// What is done to a shelf that was opened.
#[derive(Clone, Copy)]
pub(crate) enum ShelfTask<'a> {
    /// It holds what the first commits of a run left, at least those that were answered as done.
    Begin(&'a Counts),
    /// This is tried over it and an office.
    Try(Trial<'a>),
    /// The example of `cb_office` uses it.
    Example,
}

/// What came of it.
#[derive(Clone, Copy, PartialEq, Eq)]
pub(crate) enum WorkEnd {
    /// No database was opened.
    Nothing,
    /// The database was opened, and the text didn't run.
    Database,
    /// The shelf was refused.
    Refused(ShelfFault),
    /// Whether what was to be done went well.
    Well(bool),
    /// How a run ended.
    Ran(Came),
}

/// A shelf is opened, and this is done to it.
pub(crate) fn opening(task: ShelfTask<'_>) -> Work<'_> {
    Work { text: "", task }
}

/// Does this over a connection, which comes back.
pub(crate) fn work_on<R: Threads + Wait + Clock + Sync, S: Alter>(
    rt: &R,
    alloc: Global,
    limits: &Limits,
    mut conn: Connection<S>,
    work: Work<'_>,
) -> (WorkEnd, Connection<S>)
    requires { limits.now.keep_write ≡ false }
{
    if conn.execute_batch(work.text).is_err() {
        return (WorkEnd::Database, conn);
    }
    match Shelf::open(alloc, conn, limits) {
        Ok(mut shelf) => {
            let end = done(rt, alloc, limits, &mut shelf, work.task);
            (end, shelf.close())
        }
        Err((fault, conn)) => (WorkEnd::Refused(fault), conn),
    }
}

/// What comes of it.
fn done<R: Threads + Wait + Clock + Sync, S: Alter>(
    rt: &R,
    alloc: Global,
    limits: &Limits,
    shelf: &mut Shelf<S>,
    task: ShelfTask<'_>,
) -> WorkEnd
    requires plain { limits.now.keep_write ≡ false }
    requires shelf { shelf.old.limits ≡ limits.now }
{
    match task {
        ShelfTask::Begin(counts) => is_beginning(alloc, limits, shelf, counts),
        ShelfTask::Try(trial) => comes_over(trial, rt, alloc, limits, shelf),
        ShelfTask::Example => {
            WorkEnd::Well(puts_the_page_there(rt, alloc, limits, shelf) == Some(true))
        },
    }
}
