//! A runtime on which nobody sleeps, so that tests don't last as long as pauses do.
use crate::running::clocks::OwnClock;
use std::io;
use std::sync::Wait;
use std::sync::atomic::{AtomicU64, Ordering};
use std::thread::Threads;
use std::time::{Clock, Duration};

/// Sleep returns at once; by the one that would take a second the disk has room again, where that
/// is so.
#[derive(Drop)]
pub(crate) struct Hurried<'a, R> {
    inner: &'a R,
    /// How many writes are left to be refused.
    left: Option<&'a AtomicU64>,
    /// What the time is, where that isn't the other's.
    clock: Option<&'a OwnClock>,
}

impl<'a, R> Hurried<'a, R> {
    /// A runtime over another; where these writes are named, none is refused after a second; where
    /// a clock is, that one shows the time.
    pub(crate) fn new(
        inner: &'a R,
        left: Option<&'a AtomicU64>,
        clock: Option<&'a OwnClock>,
    ) -> Hurried<'a, R> {
        Hurried { inner, left, clock }
    }
}

impl<R: Wait> Wait for Hurried<'_, R> {}

impl<R: Threads> Threads for Hurried<'_, R> {}

impl<R: Clock> Clock for Hurried<'_, R> {
    fn monotonic(&self) -> io::Result<Duration> {
        match self.clock {
            Some(clock) => Ok(clock.look()),
            None => self.inner.monotonic(),
        }
    }

    fn since_1970(&self) -> io::Result<Duration> {
        self.inner.since_1970()
    }

    fn sleep(&self, duration: Duration) {
        if let Some(left) = self.left {
            if duration >= Duration::from_secs(1) {
                left.store(0, Ordering::SeqCst);
            }
        }
    }
}
