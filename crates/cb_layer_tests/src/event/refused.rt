//! A schedule where growths of memory are refused.

use cb_page::Limits;
use cb_test_parts::stores::small_limits;
use cb_transcript::{Event, ScheduleFault, read_schedule};
use std::alloc::Global;

/// Whether a schedule of four events is read, or memory was refused.
fn is_read_or_memory(alloc: Global, limits: &Limits) -> bool {
    match read_schedule(alloc, limits, b"hello 0\nbegin 0\nwrite 0 1 7\ntake 1\n") {
        Ok(events) => events.len() == 4,
        Err(fault) => fault == ScheduleFault::Memory,
    }
}

/// The fault of a text that is no schedule.
fn fault_of(alloc: Global, text: &[u8]) -> Option<ScheduleFault> {
    read_schedule(alloc, &small_limits(1)?, text).err()
}

/// Passes also where memory runs out: an allocation may be made to fail.
#[test]
fn schedule_without_memory(rt: HostRuntime) {
    assert!(rt; small_limits(1).is_some_and(|limits| is_read_or_memory(rt.alloc(), &limits)));
    let fault = fault_of(rt.alloc(), b"# no event\nwrite 0 1 256\n");
    assert!(rt; fault == Some(ScheduleFault::Range { line: 2 }));
    assert!(rt; Event::Take { packet: 1 }.copy(rt.alloc()).is_ok());
}
