//! A clock of one's own, which stands still but for writes.
use std::sync::atomic::{AtomicU64, Ordering};
use std::time::Duration;

/// How long a write takes: ten days, in nanoseconds. So the flusher may wait for a day.
const WRITE: u64 = 864_000_000_000_000;

/// A clock that stands still. By the first look at it behind some writes ten days are over.
#[derive(Drop)]
pub(crate) struct OwnClock {
    now: AtomicU64,
    /// What the next look adds.
    writing: AtomicU64,
    /// How often it was looked at since the last report.
    looks: AtomicU64,
    /// The last commit that was reported, once was done what is to be done then.
    reached: AtomicU64,
}

impl OwnClock {
    /// It shows 0, and nothing was written.
    pub(crate) fn new() -> OwnClock {
        OwnClock {
            now: AtomicU64::new(0),
            writing: AtomicU64::new(0),
            looks: AtomicU64::new(0),
            reached: AtomicU64::new(0),
        }
    }

    /// Something is written.
    pub(crate) fn write(&self) {
        self.writing.store(WRITE, Ordering::SeqCst);
    }

    /// Looks at it.
    pub(crate) fn look(&self) -> Duration {
        let took = self.writing.swap(0, Ordering::SeqCst);
        let before = self.now.fetch_add(took, Ordering::SeqCst);
        self.looks.fetch_add(1, Ordering::SeqCst);
        Duration::from_nanos(before.saturating_add(took))
    }

    /// A batch is reported: looks are counted from here on.
    pub(crate) fn begin_to_count(&self) {
        self.looks.store(0, Ordering::SeqCst);
    }

    /// How often it was looked at since.
    pub(crate) fn looks(&self) -> u64 {
        self.looks.load(Ordering::SeqCst)
    }

    /// The commits up to this number are reported, and what is to be done then is done.
    pub(crate) fn reach(&self, number: u64) {
        self.reached.store(number, Ordering::SeqCst);
    }

    /// Which commits those are; 0 before there are some.
    pub(crate) fn reached(&self) -> u64 {
        self.reached.load(Ordering::SeqCst)
    }
}
