//! Runs that end before all is done: a worker that can't join while another works, and an office
//! that is halted or closed at each moment in turn.
use crate::running::gates::{Act, Plan};
use crate::running::run::{Came, run_to_end};
use cb_test_parts::beside::all_go_well;
use std::alloc::Global;
use std::sync::Wait;
use std::thread::Threads;
use std::time::Clock;

#[test]
fn worker_that_faults_while_another_runs(rt: HostRuntime) {
    let plan = Plan {
        clients: 2,
        jobs: 100,
        steps: 0,
        act: Act::Joined,
    };
    assert!(rt; run_to_end(&rt, rt.alloc(), plan) == Came::Fault);
}

/// How many jobs each client has, in a run that is cut off or closed.
const JOBS: u32 = 2;

/// The same number, as jobs are counted that are done.
const DONE: u64 = JOBS as u64;

/// How often the gate is called by one client that nothing cuts off.
const CALLS: u64 = 2 * DONE;

/// How many of two clients' jobs may be done in an office that is halted at a call: none before the
/// first one, and all where that was the last call or none.
fn may_halt(at: u64, answered: u64) -> bool {
    let none = at == 0;
    let all = at >= 2 * CALLS - 1;
    (!none || answered == 0) && (!all || answered == 2 * DONE)
}

/// The same in one that is closed. Who calls the gate works, and does all its jobs; who begins to
/// work later does none. One client alone can't have called so often that the other didn't.
fn may_close(at: u64, answered: u64) -> bool {
    let both = at >= CALLS;
    answered == 2 * DONE || (!both && answered == DONE)
}

/// What comes of two clients that are cut off there.
fn cut_off<R: Threads + Wait + Clock + Sync>(rt: &R, alloc: Global, at: u64, halts: bool) -> Came {
    let plan = Plan {
        clients: 2,
        jobs: JOBS,
        steps: 0,
        act: Act::CutOff { at, halts },
    };
    run_to_end(rt, alloc, plan)
}

/// Whether a run that is halted or closed there ends well.
fn ends_well<R: Threads + Wait + Clock + Sync>(
    rt: &R,
    alloc: Global,
    at: u64,
    halts: bool,
) -> bool {
    match cut_off(rt, alloc, at, halts) {
        Came::Done(answered) if halts => may_halt(at, answered),
        Came::Done(answered) => may_close(at, answered),
        _ => false,
    }
}

/// Whether each run ends well that is halted at a call or behind the last one. Where none is to be
/// halted, each is closed there.
fn end_well<R: Threads + Wait + Clock + Sync>(rt: &R, alloc: Global, halts: bool) -> bool {
    all_go_well(
        rt,
        2 * CALLS as usize + 1,
        &|at: usize| { ends_well(rt, alloc, at as u64, halts) },
    )
}

#[test]
fn halted_or_closed_at_each_call(rt: HostRuntime) {
    assert!(rt; end_well(&rt, rt.alloc(), true));
    assert!(rt; end_well(&rt, rt.alloc(), false));
}

/// All at work do all their jobs in an office that was closed before the first one, and all is on
/// disk at the end, though the flusher found nothing to write in between.
#[test]
fn closed_while_all_work(rt: HostRuntime) {
    for clients in 1..3u16 {
        let plan = Plan {
            clients,
            jobs: JOBS,
            steps: 0,
            act: Act::Closed,
        };
        let all = u64::from(clients) * DONE;
        assert!(rt; run_to_end(&rt, rt.alloc(), plan) == Came::Done(all));
    }
}
