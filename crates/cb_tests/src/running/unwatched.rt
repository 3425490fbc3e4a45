//! A flusher and a run on which nobody looks.
use crate::running::gates::{Counts, Guarded};
use crate::running::refusals::{BetweenTries, is_refused};
use crate::running::run::{open_plan, status_of};
use crate::running::trials::{Trial, goes_well};
use cb_office::{flush_again, flush_loop, run_on};
use cb_page::Limits;
use cb_shelf::Shelf;
use cb_station::Office;
use sqlite::Alter;
use std::alloc::Global;
use std::sync::Wait;
use std::thread::Threads;
use std::time::Clock;

/// Whether the batch of a first commit is refused, and then written by the next call.
pub(crate) fn is_written_next<R: Wait + Clock, S: Alter>(
    rt: &R,
    alloc: Global,
    office: &Office,
    shelf: &mut Shelf<S>,
) -> bool {
    shelf.limit_steps(1);
    let stopped = flush_loop(rt, alloc, office, shelf);
    shelf.limit_steps(0);
    match stopped {
        Err(stop) => is_refused(&stop) && flush_again(rt, alloc, office, shelf, stop).is_ok(),
        Ok(_) => false,
    }
}

/// Whether a run of four clients with two jobs each says that all are done.
pub(crate) fn is_counted<R: Threads + Wait + Clock + Sync, S: Alter>(
    rt: &R,
    alloc: Global,
    limits: &Limits,
    office: &Office,
    shelf: &mut Shelf<S>,
) -> bool {
    let counts = Counts::new(open_plan(4, 2, 0));
    let gate = Guarded {
        rt,
        office,
        counts: &counts,
    };
    let mut out = Vec::new(alloc);
    let mut err = Vec::new(alloc);
    let ran = run_on(
        rt, alloc, limits, office, shelf, 2, &gate, &mut out, &mut err,
    );
    status_of(ran) == Some(0)
        && out.as_slice() == b"committed 8\nsum 16\n".as_slice()
        && err.is_empty()
}

#[test]
fn a_run_on_which_nobody_looks(rt: HostRuntime) {
    assert!(rt; goes_well(Trial::Unwatched, &rt, rt.alloc()));
}

#[test]
fn a_flusher_on_which_nobody_looks(rt: HostRuntime) {
    assert!(rt; goes_well(Trial::Refused(BetweenTries::Unwatched), &rt, rt.alloc()));
}
