//! The lines of a run.
use cb_office::{Progress, Watch};
use cb_page::CommitNo;
use std::io;
use std::sync::atomic::{AtomicU64, Ordering};
use std::test::Fail;
use std::time::{Clock, Duration};

/// A clock that a test sets.
#[derive(Drop)]
struct Millis {
    now: AtomicU64,
}

impl Clock for Millis {
    fn monotonic(&self) -> io::Result<Duration> {
        Ok(Duration::from_millis(self.now.load(Ordering::SeqCst)))
    }

    fn since_1970(&self) -> io::Result<Duration> {
        self.monotonic()
    }
}

/// When a batch is on disk, in milliseconds, and the number of its last commit.
static BATCHES: [(u64, u64); 7] = [
    (9000, 13),
    (9100, 17),
    (9499, 20),
    (9500, 21),
    (9999, 22),
    (10_001, 23),
    (10_500, 30),
];

/// A run of 20 jobs over a store of ten commits: a line for the first batch, and then for each that
/// comes half a second or more after the line before.
static LINES: &str = "\
committed 3 of 20, 3.0 a batch
committed 11 of 20, 2.6 a batch
committed 13 of 20, 1.0 a batch
";

/// Tells of all batches.
fn tell<W: Watch>(clock: &Millis, watch: &mut W) {
    watch.begins(20, 10);
    for batch in &BATCHES {
        clock.now.store(batch.0, Ordering::SeqCst);
        watch.flushed(CommitNo::new(batch.1));
    }
}

#[test]
fn two_lines_a_second_at_most(rt: HostRuntime) -> Result<(), Fail> {
    let clock = Millis {
        now: AtomicU64::new(0),
    };
    let mut shown = Vec::new(rt.alloc());
    tell(&clock, &mut Progress::new(&clock, &mut shown));
    assert!(rt; shown.as_slice() == LINES.as_bytes());
    Ok(())
}
