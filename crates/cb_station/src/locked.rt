//! The guard of an office's lock.
ghost use Rattle.std.specs.Prelude.{◌≡◌};
ghost use Rattle.std.specs.Sync.Mutex.{mutex_guard_value};
ghost use Rattle.cb_station.specs.Locking.{lent_station};

use crate::office::Office;
use crate::station::Station;
use std::ops::{Deref, DerefMut};
use std::sync::MutexGuard;

/// A station under its office's lock, which [`Office::lock`] takes. As it goes it tells all who are
/// to be told of what was done to the station ([`Office::tell`]), and then the lock goes. So nobody
/// sleeps on for a commit, a frame or a turn that came by a call of the station's own.
pub struct LockedStation<'a> {
    office: &'a Office,
    station: MutexGuard<'a, Station>,
}

impl<'a> LockedStation<'a> {
    /// The station of that office, under its lock.
    pub(crate) fn new(office: &'a Office, station: MutexGuard<'a, Station>) -> LockedStation<'a>
        ensures { lent_station result ≡ mutex_guard_value station.entry }
    {
        LockedStation { office, station }
    }
}

impl Deref for LockedStation<'_> {
    type Target = Station;

    ghost deref_gives = { λ locked station. station ≡ lent_station locked };

    fn deref(&self) -> &Station {
        &self.station
    }
}

impl DerefMut for LockedStation<'_> {
    ghost deref_mut_gives = { λ locked station. station ≡ lent_station locked };

    fn deref_mut(&mut self) -> &mut Station {
        &mut self.station
    }
}

impl Drop for LockedStation<'_> {
    fn drop(self) {
        let LockedStation {
            office,
            mut station,
        } = self;
        office.tell(&mut station);
    }
}
