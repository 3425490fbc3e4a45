//! For which commits the flusher waits before it takes a batch.
ghost use Rattle.std.specs.Prelude.{◌≡◌, ◌+◌, ◌/◌, ◌≤◌, ℕ, None, Some, IfSome, IsSome, true, false};
ghost use Rattle.std.specs.Duration.{as_nanos};
ghost use Rattle.cb_page.specs.Numbers.{max_number};
ghost use Rattle.cb_office.specs.Pacing.{awaited_after, waits_for};
ghost use Rattle.cb_station.specs.Stations.{server_of};

use cb_page::CommitNo;
use cb_station::Station;
use std::time::{Clock, Duration, Instant};

/// The flusher waits no longer for others than this part of what the last write took.
const PART: u32 = 10;

/// For which commit the flusher waits once there is something to write, and how long at most: until
/// as many were made since the last report as that one told of, so that those who were told have
/// committed again; and no longer than a tenth of what the last write took.
#[derive(Clone, Copy)]
pub(crate) struct Pace {
    /// The number of the last commit that was reported; `None` before the first report.
    pub(crate) reported: Option<CommitNo>,
    /// The commit that is waited for.
    awaited: Option<CommitNo>,
    /// It is waited for no longer than so long.
    pub(crate) limit: Duration,
}

impl Pace {
    /// Nothing was reported yet, and nothing is waited for.
    pub(crate) fn new() -> Pace
        ensures reported { result.reported ≡ None }
        ensures awaited { result.awaited ≡ None }
    {
        Pace {
            reported: None,
            awaited: None,
            limit: Duration::ZERO,
        }
    }

    /// For which commit the flusher waits before it takes a batch: the one that the last report
    /// says, where something is to be written and that one isn't made yet.
    pub(crate) fn waits_for(&self, station: &Station) -> Option<CommitNo>
        ensures { result ≡ waits_for self.now.reported self.now.awaited (server_of station.now) }
    {
        let (reported, awaited) = (self.reported?, self.awaited?);
        let first = CommitNo::checked(reported.get() + 1)?;
        if station.can_flush(first) && !station.can_flush(awaited) {
            return Some(awaited);
        }
        None
    }

    /// Once the commits up to a number are reported, by a write that took so long, while the next
    /// commit to be made has that other number.
    pub(crate) fn report(&mut self, number: CommitNo, next: Option<CommitNo>, took: Duration)
        ensures reported { self.new.reported ≡ Some number }
        ensures awaited { self.new.awaited ≡ awaited_after self.old.reported number next }
        ensures limit { as_nanos self.new.limit ≡ as_nanos took / 10 }
    {
        let told = match self.reported {
            Some(before) => number.get().saturating_sub(before.get()).max(1),
            None => 1,
        };
        self.reported = Some(number);
        self.awaited = match next {
            Some(next) => CommitNo::checked(next.get().saturating_add(told - 1)),
            None => None,
        };
        self.limit = took / PART;
    }
}

/// How long it is since then; nothing where the clock can't be read.
pub(crate) fn time_since<R: Clock>(rt: &R, start: Option<Instant>) -> Duration {
    match start {
        Some(start) => start.elapsed(rt).unwrap_or(Duration::ZERO),
        None => Duration::ZERO,
    }
}
