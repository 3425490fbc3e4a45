//! The example of the first page of `cb_schedule`.
use cb_schedule::{Limits, Store, TwoQ, Verdict, World, check_serial, read_schedule};
use std::alloc::Global;

/// A client says hello, reads page 0, is permitted to write it, and commits 16 bytes of 7.
const SCHEDULE: &str = "\
hello 0
take 0
take 1
begin 0
read 0 0
take 2
take 3
read 0 0
want 0 0
take 4
take 5
write 0 0 7
finish 0
take 6
flush
take 7
";

/// Whether one transaction is committed by that schedule, and the history is serial.
fn commits_one(alloc: Global) -> Option<bool> {
    let limits = Limits::new(1, 8, 16, 4, 1, 2).ok()?;
    let store = Store::zeros(alloc, &limits).ok()?;
    let events = read_schedule(alloc, &limits, SCHEDULE.as_bytes()).ok()?;
    let world = World::<TwoQ>::new(alloc, &limits, store).ok()?;
    let told = world.play(events.as_slice()).ok()?;
    let verdict = check_serial(alloc, &told).ok()?;
    Some(told.commits().len() == 1 && verdict == Verdict::Serial)
}

#[test]
fn example(rt: HostRuntime) {
    assert!(rt; commits_one(rt.alloc()) == Some(true));
}
