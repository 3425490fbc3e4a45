//! Runs side by side, of tests whose runs wait for nothing of each other.

use std::sync::Wait;
use std::sync::atomic::{AtomicUsize, Ordering};
use std::thread;
use std::thread::Threads;

/// Whether so many runs go well, each on a thread of its own, which gets its number.
pub fn all_go_well<R: Threads + Wait, F: Fn(usize) -> bool + Sync>(
    rt: &R,
    count: usize,
    run: &F,
) -> bool
    requires { F.IsAlwaysCallable run.now }
{
    let counter = AtomicUsize::new(0);
    let counted = &counter;
    thread::scope(thread::scope_env(), rt, |scope| {
        for number in 0..count {
            let _started = scope.spawn(move || {
                counted.fetch_add(usize::from(run(number)), Ordering::SeqCst);
            });
        }
    });
    counter.load(Ordering::SeqCst) == count
}
