//! A long schedule: a reader that answers want of memory from some number of events on is refused
//! here, which no clause can say. `scripts/check limits` plays as many as there may be.

use cb_page::Limits;
use cb_transcript::read_schedule;
use std::alloc::{AllocError, Global};

/// A text, doubled so many times.
fn doubled(alloc: Global, text: &str, times: u32) -> Result<String, AllocError> {
    let mut all = String::from_str(alloc, text)?;
    for _ in 0..times {
        let half = String::from_str(alloc, all.as_str())?;
        all.push_str(half.as_str())?;
    }
    Ok(all)
}

/// How many events are read of a schedule of 131,072, one a line.
fn events_of_all(alloc: Global) -> Option<usize> {
    let limits = Limits::new(32, 4096, 16, 1024, 1023, 4096).ok()?;
    let text = doubled(alloc, "flush\n", 17).ok()?;
    let events = read_schedule(alloc, &limits, text.as_bytes()).ok()?;
    Some(events.len())
}

#[test]
fn many_events(rt: HostRuntime) {
    assert!(rt; events_of_all(rt.alloc()) == Some(131_072));
}
