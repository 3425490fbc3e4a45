//! What is shown of a run.
ghost use Rattle.std.specs.Prelude.{◌≡◌, true, false, Some};
ghost use Rattle.cb_office.specs.Pauses.{is_early};

use crate::watch::Watch;
use cb_page::CommitNo;
use std::io;
use std::io::Write;
use std::time::{Clock, Instant};

/// So many nanoseconds lie between two lines at least: half a second.
const PAUSE: u128 = 500_000_000;

/// Shows on a writer how many jobs are committed of how many, and how many commits a batch carries,
/// on average since the line before.
///
/// It prints a line when a batch was written, at most twice a second, but none if the line can't be
/// written or the clock can't be read.
#[derive(Drop)]
pub struct Progress<'a, C, W> {
    clock: &'a C,
    out: W,
    /// When the last line was shown.
    pub shown: Option<Instant>,
    jobs: u64,
    /// The number of the last commit before the run.
    before: u64,
    /// The number of the last commit that a line has told of.
    told: u64,
    /// How many batches were written since.
    batches: u64,
}

impl<'a, C: Clock, W: Write> Progress<'a, C, W> {
    /// Shows runs on a writer, by a clock.
    pub fn new(clock: &'a C, out: W) -> Progress<'a, C, W> {
        Progress {
            clock,
            out,
            shown: None,
            jobs: 0,
            before: 0,
            told: 0,
            batches: 0,
        }
    }

    /// Shows how far the run is with the commits up to this number, unless it is too early for a
    /// line.
    pub fn show_at(&mut self, now: Instant, number: CommitNo)
        ensures early { is_early self.old.shown now ≡ true → self.new ≡ self.old }
        ensures shown { is_early self.old.shown now ≡ false → self.new.shown ≡ Some now }
    {
        if self.is_early(now) {
            return;
        }
        // If the line can't be written there is nobody else to tell.
        let _ = self.write_line(number.get());
        self.shown = Some(now);
        self.told = number.get();
        self.batches = 0;
    }

    /// Whether it is too early for a line.
    fn is_early(&self, now: Instant) -> bool
        ensures { result ≡ is_early self.now.shown now }
    {
        match self.shown {
            Some(last) => now.duration_since(last).as_nanos() < PAUSE,
            None => false,
        }
    }

    /// Writes the line.
    fn write_line(&mut self, number: u64) -> io::Result<()> {
        let jobs = self.jobs;
        let committed = number.saturating_sub(self.before);
        let commits = number.saturating_sub(self.told);
        let tenths = commits.saturating_mul(10) / self.batches.max(1);
        let (whole, tenth) = (tenths / 10, tenths % 10);
        writeln!(
            self.out,
            "committed {committed} of {jobs}, {whole}.{tenth} a batch"
        )
    }
}

impl<C: Clock, W: Write> Watch for Progress<'_, C, W> {
    ghost tells = { λ watch number after. Unit {0} };

    fn begins(&mut self, jobs: u64, number: u64) {
        self.shown = None;
        self.jobs = jobs;
        self.before = number;
        self.told = number;
        self.batches = 0;
    }

    fn flushed(&mut self, number: CommitNo) {
        self.batches = self.batches.saturating_add(1);
        if let Ok(now) = Instant::now(self.clock) {
            self.show_at(now, number);
        }
    }

    fn waits(&mut self) {}
}
