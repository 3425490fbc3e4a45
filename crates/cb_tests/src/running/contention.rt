//! Many clients that fight for two pages, and a disk that is full for a while.
use crate::running::gates::{Act, Plan};
use crate::running::run::{Came, open_plan, run_to_end};
use cb_test_parts::beside::all_go_well;
use std::alloc::Global;
use std::sync::Wait;
use std::thread::Threads;
use std::time::Clock;

/// Every job is done, with few aborted tries.
#[test]
fn thirty_two_clients_on_two_pages(rt: HostRuntime) {
    assert!(rt; run_to_end(&rt, rt.alloc(), open_plan(32, 5, 0)) == Came::Done(160));
}

/// Eight clients with ten jobs each.
fn of_eight(act: Act) -> Plan {
    Plan {
        clients: 8,
        jobs: 10,
        steps: 0,
        act,
    }
}

/// The calls of the gate at which the office is halted, each in a run of its own.
const HALTED_AT: [u64; 3] = [40, 80, 120];

/// Whether a run whose office is halted at that call ends well.
fn ends_halted<R: Threads + Wait + Clock + Sync>(rt: &R, alloc: Global, at: u64) -> bool {
    let act = Act::CutOff { at, halts: true };
    matches!(run_to_end(rt, alloc, of_eight(act)), Came::Done(_))
}

/// The same of each such call.
fn end_halted<R: Threads + Wait + Clock + Sync>(rt: &R, alloc: Global) -> bool {
    all_go_well(
        rt,
        HALTED_AT.len(),
        &|number: usize| {
            let at = HALTED_AT.get(number);
            at.is_some_and(|at| ends_halted(rt, alloc, *at))
        },
    )
}

/// While tries wait for others the office is halted: all end, and every ticket comes back.
#[test]
fn halted_while_tries_wait(rt: HostRuntime) {
    assert!(rt; end_halted(&rt, rt.alloc()));
}

/// Where the disk has room again before the third try nothing is lost.
#[test]
fn disk_that_is_full_for_a_second(rt: HostRuntime) {
    assert!(rt; run_to_end(&rt, rt.alloc(), of_eight(Act::Full)) == Came::Done(80));
}
