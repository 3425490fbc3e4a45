//! Whole runs over a store whose disk stops, at each of its calls in turn, while the workers run,
//! or refuses some writes.
use crate::running::gates::{Act, Counts, Plan};
use crate::running::run::{Came, came_over, open_plan, run_to_end};
use crate::running::work::WorkEnd;
use cb_commit::Store;
use cb_office::counter_sum;
use cb_page::{Limits, PageNo};
use cb_shelf::Shelf;
use cb_test_parts::beside::all_go_well;
use sqlite::Alter;
use std::alloc::Global;
use std::sync::Wait;
use std::sync::atomic::Ordering;
use std::thread::Threads;
use std::time::Clock;

/// Whether the store is what the first commits left, at least as many as were answered as done and
/// at most as many as there are jobs.
fn are_first(limits: &Limits, store: &Store, answered: u64, jobs: u64) -> bool {
    let number = store.number();
    let (Some(first), Some(second)) = (PageNo::in_store(limits, 0), PageNo::in_store(limits, 1))
    else {
        return false;
    };
    if !store.is_of(limits) || counter_sum(store) != number.wrapping_mul(2) {
        return false;
    }
    let versions = (store.version(first).get(), store.version(second).get());
    versions == (number, number) && answered <= number && number <= jobs
}

/// The same of what a shelf holds after a run.
pub(crate) fn is_beginning<S: Alter>(
    alloc: Global,
    limits: &Limits,
    shelf: &mut Shelf<S>,
    counts: &Counts,
) -> WorkEnd {
    let answered = counts.answered.load(Ordering::SeqCst);
    let jobs = u64::from(counts.plan.clients).saturating_mul(u64::from(counts.plan.jobs));
    match shelf.load(alloc) {
        Ok(store) => WorkEnd::Well(are_first(limits, &store, answered, jobs)),
        Err(fault) => WorkEnd::Refused(fault),
    }
}

/// How many threads share the calls at which a disk stops.
const SHARES: usize = 4;

/// Whether runs stop at the calls of a share, one after another, until one doesn't, which is behind
/// so many calls, and none is wrong.
fn stop_in_share<R: Threads + Wait + Clock + Sync>(
    rt: &R,
    alloc: Global,
    is_log: bool,
    least: u64,
    share: usize,
) -> bool {
    for stop in (share as u64..1_000).step_by(SHARES) {
        let calls = if is_log {
            (stop, u64::MAX)
        } else {
            (u64::MAX, stop)
        };
        match came_over(rt, alloc, open_plan(2, 2, 0), calls, "") {
            Came::Stopped => {}
            end => return end == Came::Done(4) && stop > least,
        }
    }
    false
}

/// The same of each call of the log, or else of the database's file.
fn stops_often<R: Threads + Wait + Clock + Sync>(
    rt: &R,
    alloc: Global,
    is_log: bool,
    least: u64,
) -> bool {
    all_go_well(
        rt,
        SHARES,
        &|share: usize| { stop_in_share(rt, alloc, is_log, least, share) },
    )
}

#[test]
fn store_that_stops_at_each_call(rt: HostRuntime) {
    assert!(rt; stops_often(&rt, rt.alloc(), true, 20));
    assert!(rt; stops_often(&rt, rt.alloc(), false, 8));
}

/// Two clients with two jobs each, of whose writes so many are refused from the first job on; or
/// one with four, which waits for its batch before its next job, and so many from each on.
fn refusing(writes: u64, at_each: bool) -> Plan {
    let clients = if at_each { 1 } else { 2 };
    Plan {
        clients,
        jobs: if at_each { 4 } else { 2 },
        steps: 0,
        act: Act::Refuse { writes, at_each },
    }
}

/// Refusals with a batch between them don't add up.
#[test]
fn third_refusal_is_the_last(rt: HostRuntime) {
    for writes in 0..3 {
        assert!(rt; run_to_end(&rt, rt.alloc(), refusing(writes, false)) == Came::Done(4));
    }
    assert!(rt; run_to_end(&rt, rt.alloc(), refusing(3, false)) == Came::Stopped);
    assert!(rt; run_to_end(&rt, rt.alloc(), refusing(2, true)) == Came::Done(4));
}

/// The tables of a store of zeros whose last commit has the greatest number that there is.
static LAST: &'static str =
    "BEGIN; CREATE TABLE mark2(id INTEGER PRIMARY KEY, commits INTEGER NOT NULL, page_size \
     INTEGER NOT NULL, pages INTEGER NOT NULL) STRICT; CREATE TABLE page2(no INTEGER PRIMARY KEY, \
     version INTEGER NOT NULL) STRICT; CREATE TABLE part(no INTEGER NOT NULL, place INTEGER NOT \
     NULL, body BLOB NOT NULL, PRIMARY KEY(no, place)) STRICT; \
     INSERT INTO mark2 VALUES (1, 4611686018427387903, 16, 2); \
     INSERT INTO page2 VALUES (0, 0), (1, 0); \
     INSERT INTO part VALUES (0, 0, x'00000000000000000000000000000000'), \
     (1, 0, x'00000000000000000000000000000000'); COMMIT";

#[test]
fn no_number_is_left(rt: HostRuntime) {
    let calls = (u64::MAX, u64::MAX);
    let end = came_over(&rt, rt.alloc(), open_plan(2, 2, 0), calls, LAST);
    assert!(rt; end == Came::Exhausted);
}
