//! A disk of which some writes are refused, and which goes on. Before a write it may look at an
//! office.
ghost use Rattle.std.specs.Prelude.{◌≡◌, ◌+◌, false};
ghost use Rattle.sqlite_disk.specs.Disk.{CountsFault};
ghost use Rattle.sqlite_disk.specs.Refusal.{finds_no_room};

use crate::running::clocks::OwnClock;
use crate::running::looking::Looks;
use sqlite_disk::{Crash, Disk, Tally};
use std::io;
use std::sync::Wait;
use std::sync::atomic::{AtomicU64, Ordering};

/// Passes every call on but the writes that are to be refused, of which others say how many.
#[derive(Drop)]
pub(crate) struct Balky<'a, R, D: Disk> {
    rt: &'a R,
    inner: D,
    /// How many writes are left to be refused; where nobody says so, none is.
    left: Option<&'a AtomicU64>,
    /// A clock that goes on by writes.
    clock: Option<&'a OwnClock>,
    /// What is looked at before each write.
    looks: Option<Looks<'a>>,
    refused: u64,
    /// Whether the disk below was refused memory for a write or a sync.
    has_wanted: bool,
}

impl<'a, R: Wait, D: Disk> Balky<'a, R, D> {
    /// Refuses as many writes as are left to be; the clock goes on by each write, and the office is
    /// looked at before it.
    pub(crate) fn new(
        rt: &'a R,
        inner: D,
        left: Option<&'a AtomicU64>,
        clock: Option<&'a OwnClock>,
        looks: Option<Looks<'a>>,
    ) -> Balky<'a, R, D> {
        Balky {
            rt,
            inner,
            left,
            clock,
            looks,
            refused: 0,
            has_wanted: false,
        }
    }

    /// Whether a write or a sync failed since the disk below was refused memory.
    pub(crate) fn has_wanted(&self) -> bool {
        self.has_wanted
    }

    /// The disk below.
    pub(crate) fn inner(&self) -> &D {
        &self.inner
    }
}

/// Tells the clock, if there is one, of a write.
fn tell(clock: Option<&OwnClock>) {
    if let Some(clock) = clock {
        clock.write();
    }
}

/// Looks at the office, if there is one. Who writes doesn't have its lock.
fn look<R: Wait>(rt: &R, looks: Option<Looks<'_>>) {
    if let Some(looks) = looks {
        looks.counts.look(&looks.office.lock(rt));
    }
}

/// Whether this failed for want of memory.
fn wants_memory(outcome: &io::Result<()>) -> bool {
    match outcome {
        Ok(()) => false,
        Err(error) => error.kind() == io::ErrorKind::OutOfMemory,
    }
}

/// Refuses a write, if one is left to be refused.
fn refuse(left: Option<&AtomicU64>, refused: &mut u64) -> io::Result<()>
    ensures faults { CountsFault result refused.old refused.new }
    ensures kind { finds_no_room result ≡ false }
{
    let Some(left) = left else {
        return Ok(());
    };
    let count = left.load(Ordering::SeqCst);
    if count == 0 {
        return Ok(());
    }
    left.store(count - 1, Ordering::SeqCst);
    *refused = refused.saturating_add(1);
    Err(io::Error::other("refused"))
}

impl<R: Wait, D: Disk> Disk for Balky<'_, R, D> {
    ghost seen = { λ b. D.Disk.seen b.inner };

    ghost may_leave = { λ b. D.Disk.may_leave b.inner };

    ghost is_usable = { λ b. D.Disk.is_usable b.inner };

    ghost faults = { λ b. D.Disk.faults b.inner + b.refused };

    ghost tally_of = { λ b. D.Disk.tally_of b.inner };

    ghost is_rotten = { λ b. D.Disk.is_rotten b.inner };

    ghost key_of = { λ b. D.Disk.key_of b.inner };

    ghost is_clean = { λ b. D.Disk.is_clean b.inner };

    ghost is_fair = { λ b. D.Disk.is_fair b.inner };

    ghost fair_if_clean = { λ b. D.Disk.fair_if_clean b.inner };

    ghost seen_may_stay = { λ b. D.Disk.seen_may_stay b.inner };

    ghost is_mixing = { λ b. D.Disk.is_mixing b.inner };

    fn mixes(&self) -> bool {
        self.inner.mixes()
    }

    fn key(&self) -> u64 {
        self.inner.key()
    }

    fn tally(&self) -> Tally {
        self.inner.tally()
    }

    fn may_be_used(&self) -> bool {
        self.inner.may_be_used()
    }

    fn len(&mut self) -> io::Result<usize> {
        self.inner.len()
    }

    fn read_at(&mut self, at: usize, buf: &mut [u8]) -> io::Result<()> {
        self.inner.read_at(at, buf)
    }

    fn read_checked(&mut self, key: u64, want: u64, at: usize, buf: &mut [u8]) -> io::Result<()> {
        self.inner.read_checked(key, want, at, buf)
    }

    fn write_at(&mut self, at: usize, bytes: &[u8]) -> io::Result<()> {
        tell(self.clock);
        look(self.rt, self.looks);
        refuse(self.left, &mut self.refused)?;
        let written = self.inner.write_at(at, bytes);
        self.has_wanted = self.has_wanted || wants_memory(&written);
        written
    }

    fn set_len(&mut self, len: usize) -> io::Result<()> {
        self.inner.set_len(len)
    }

    fn sync(&mut self) -> io::Result<()> {
        let synced = self.inner.sync();
        self.has_wanted = self.has_wanted || wants_memory(&synced);
        synced
    }
}

impl<R: Wait, D: Crash> Crash for Balky<'_, R, D> {
    fn crash(&mut self) {
        self.inner.crash();
    }
}
