//! A run that ends well or for want of memory. In the gate nothing is refused; `scripts/check
//! refused run` refuses each growth of it in turn, and each thread.
use crate::running::disks::{NONE, Reached, both};
use crate::running::gates::Counts;
use crate::running::run::{Came, open_plan};
use crate::running::trials::Trial;
use crate::running::work::{ShelfTask, WorkEnd, opening};
use cb_shelf::ShelfFault;
use std::alloc::Global;
use std::sync::Wait;
use std::thread::Threads;
use std::time::Clock;

/// How many jobs two clients have together, with two each.
const ALL: u64 = 4;

/// How a run ended, and what is printed of it.
#[derive(Clone, Copy, PartialEq, Eq)]
enum End {
    /// Every job was done, and the disk has them.
    Done,
    /// Memory was refused, or a thread; the disk has at least what was answered as done.
    Memory,
    /// The test's own disk was refused memory, and the run stopped; the disk has at least the same.
    Disk,
    /// Memory was refused before or behind the run, or as its line was printed.
    Outside,
    Wrong,
}

/// What a refusal before the run, or behind it as its disk is looked at, may leave of that.
fn is_outside((end, has_wanted): Reached) -> bool {
    match end {
        WorkEnd::Nothing | WorkEnd::Database => true,
        WorkEnd::Refused(ShelfFault::Store) => has_wanted,
        WorkEnd::Refused(fault) => fault == ShelfFault::Memory,
        _ => false,
    }
}

/// How it ended, by what came of the run and of the look at its disk. No more than one growth is
/// refused, so that the look goes well where the run doesn't.
fn end_of(ran: Reached, seen: Reached) -> End {
    let is_seen = seen.0 == WorkEnd::Well(true);
    match ran.0 {
        WorkEnd::Ran(Came::Done(ALL)) if is_seen => End::Done,
        WorkEnd::Ran(Came::Done(ALL)) if is_outside(seen) => End::Outside,
        WorkEnd::Ran(Came::Memory) if is_seen => End::Memory,
        WorkEnd::Ran(Came::Stopped) if is_seen && ran.1 => End::Disk,
        WorkEnd::Ran(Came::Unseen) if is_seen => End::Outside,
        _ if is_outside(ran) && is_seen => End::Outside,
        _ => End::Wrong,
    }
}

/// How a run over new disks ends, of two clients with two jobs each.
fn ended<R: Threads + Wait + Clock + Sync>(rt: &R, alloc: Global) -> End {
    let counts = Counts::new(open_plan(2, 2, 0));
    let run = opening(ShelfTask::Try(Trial::Run(&counts)));
    let works = [run, opening(ShelfTask::Begin(&counts))];
    let (ran, seen) = both(rt, alloc, 2, NONE, works);
    end_of(ran, seen)
}

/// What is printed of an end.
fn word_of(end: End) -> &'static str {
    match end {
        End::Done => "done",
        End::Memory => "memory",
        End::Disk => "disk",
        End::Outside => "outside",
        End::Wrong => "wrong",
    }
}

#[test]
fn ends_well_or_for_want_of_memory(rt: HostRuntime) {
    let end = ended(&rt, rt.alloc());
    let word = word_of(end);
    let _ = println!(rt; "ended: {word}");
    assert!(rt; end != End::Wrong);
}
