//! The lock.
ghost use Rattle.std.specs.Prelude.{◌≡◌};
ghost use Rattle.std.specs.Sync.Mutex.{mutex_guard_value};
ghost use Rattle.cb_mailboxes.specs.Mail.{HasMail};
ghost use Rattle.cb_mailboxes.specs.Mailboxes.{IsNobody};
ghost use Rattle.cb_station.specs.Locking.{lent_station};
ghost use Rattle.cb_station.specs.Stations.{IsStation};
ghost use Rattle.cb_station.specs.Telling.{EndsTry, Halts, IsTold, Tells, after_work, closed};
ghost use Rattle.cb_station.specs.Telling.{untold_in, with_untold, without_work};

use crate::locked::LockedStation;
use crate::station::{EndedTry, Expected, Station};
use cb_page::{ClientNo, CommitNo};
use std::array;
use std::marker::Model;
use std::sync::{Condvar, Mutex, MutexGuard, Wait};
use std::time::{Clock, Duration};

/// As many as there are clients at most.
const CLIENTS: usize = 32;

/// A station under one lock. Each client waits by itself for a frame, so that nobody is woken for
/// another's. Whoever waits for anything else is told of commits, closing and halting. No contract
/// can say what a call that takes the lock itself does with the station; tests show it. In
/// contracts an office is how many calls of `work` it expects.
#[derive(Drop)]
pub struct Office {
    station: Mutex<Station>,
    changed: Condvar,
    frames: [Condvar; CLIENTS],
    expected: Expected,
}

impl Model for Office {
    ghost use Rattle.cb_station.specs.Offices.{OfficeState};

    ghost Value = { OfficeState };

    ghost view = { λ office. record { expected = office.expected } };
}

impl Office {
    /// An office over a station. It expects so many to work, each from `begin_work` to `end_work`,
    /// as `work` does. The last to end closes it. For one that won't begin, since its client
    /// couldn't join, call [`Office::skip_work`] instead; otherwise the office stays open, and the
    /// flusher waits for that one for ever. If none is expected, it is closed.
    pub fn new(mut station: Station, workers: usize) -> Office
        ensures { result.expected ≡ workers }
    {
        let expected = station.expect_workers(workers);
        Office {
            station: Mutex::new(station),
            changed: Condvar::new(),
            frames: array::from_fn(|_client| Condvar::new()),
            expected,
        }
    }

    /// Takes the lock, and lends the station until the guard is dropped, which tells all who are to
    /// be told of what was done meanwhile. The station's invariant holds, whatever threads did
    /// before: its history is legal and is what its server did, the server has what is stored of
    /// each hand, and a halted station is closed. The server sent each frame in a mailbox, to that
    /// mailbox's client.
    ///
    /// Whoever has the guard must not make a call that takes this lock itself: this one again,
    /// another one that is handed `rt`, or a worker's that is handed this office. It would wait for
    /// itself for ever, and no clause refuses it.
    pub fn lock<R: Wait>(&self, rt: &R) -> LockedStation<'_>
        ensures sound { IsStation (lent_station result) }
        ensures mail { HasMail (lent_station result).dispatcher }
        ensures told { IsTold (lent_station result) }
    {
        LockedStation::new(self, self.lock_to_wait(rt))
    }

    /// As [`Office::lock`], for whoever waits by this guard: [`Office::wait`] and similar calls
    /// take it, and tell as they release the lock. The guard itself tells nobody. Whoever changes
    /// the station and then doesn't wait calls [`Office::tell`] before the guard goes.
    pub fn lock_to_wait<R: Wait>(&self, rt: &R) -> MutexGuard<'_, Station>
        ensures sound { IsStation (mutex_guard_value result) }
        ensures mail { HasMail (mutex_guard_value result).dispatcher }
        ensures told { IsTold (mutex_guard_value result) }
    {
        self.sound(self.station.lock(rt))
    }

    /// Releases the lock until somebody tells of a commit or of the end of a call of `work`, closes
    /// or halts the office, and takes it again. It may return for no reason.
    pub fn wait<'a, R: Wait>(
        &'a self,
        rt: &R,
        station: MutexGuard<'a, Station>,
    ) -> MutexGuard<'a, Station>
        ensures sound { IsStation (mutex_guard_value result) }
        ensures mail { HasMail (mutex_guard_value result).dispatcher }
        ensures told { IsTold (mutex_guard_value result) }
    {
        self.sound(self.changed.wait(rt, self.sound(station)))
    }

    /// Releases the lock until there may be a frame to that client, or the office is halted, and
    /// takes it again. It may return for no reason.
    pub fn wait_for_frame<'a, R: Wait>(
        &'a self,
        rt: &R,
        station: MutexGuard<'a, Station>,
        client: ClientNo,
    ) -> MutexGuard<'a, Station>
        ensures sound { IsStation (mutex_guard_value result) }
        ensures mail { HasMail (mutex_guard_value result).dispatcher }
        ensures told { IsTold (mutex_guard_value result) }
    {
        self.sound(self.condition_of(client).wait(rt, self.sound(station)))
    }

    /// As [`Office::wait_for_frame`], but no longer than this.
    pub fn wait_for_frame_at_most<'a, R: Wait + Clock>(
        &'a self,
        rt: &R,
        station: MutexGuard<'a, Station>,
        client: ClientNo,
        limit: Duration,
    ) -> MutexGuard<'a, Station>
        ensures sound { IsStation (mutex_guard_value result) }
        ensures mail { HasMail (mutex_guard_value result).dispatcher }
        ensures told { IsTold (mutex_guard_value result) }
    {
        let told = self.sound(station);
        let waited = self.condition_of(client).wait_timeout(rt, told, limit);
        self.sound(waited.0)
    }

    /// As [`Office::wait`], until that commit is made or no call of `work` commits any more, but no
    /// longer than this.
    pub fn wait_for_commit<'a, R: Wait + Clock>(
        &'a self,
        rt: &R,
        station: MutexGuard<'a, Station>,
        number: CommitNo,
        limit: Duration,
    ) -> MutexGuard<'a, Station>
        ensures sound { IsStation (mutex_guard_value result) }
        ensures mail { HasMail (mutex_guard_value result).dispatcher }
        ensures told { IsTold (mutex_guard_value result) }
    {
        let told = self.sound(station);
        let waited = self.changed.wait_timeout_while(rt, told, limit, |station| {
            !station.can_flush(number) && !station.is_over()
        });
        self.sound(waited.0)
    }

    /// A try ends, and gives its ticket back. The client that is to be let in next is told.
    pub fn end_try<R: Wait>(&self, rt: &R, ended: EndedTry) {
        self.end_try_at(&mut self.lock(rt), ended);
    }

    /// As [`Office::end_try`], at the locked station.
    pub fn end_try_at(&self, station: &mut Station, ended: EndedTry)
        ensures { EndsTry station.old ended station.new }
    {
        station.end_try(ended);
        self.tell(station);
    }

    /// Tells all who are to be told of what was done under this lock. These are each client to
    /// which the server sent something, and the one that is to be let in next. Commits, the end of
    /// a call of `work`, closing and halting are told to whoever waits for them.
    ///
    /// The guard of [`Office::lock`] calls this as it goes, and so does each call that waits. A
    /// client that is left out all the same is told by the next one that takes the lock.
    pub fn tell(&self, station: &mut Station)
        ensures { Tells station.old station.new }
    {
        self.tell_clients(station);
        if station.has_news() {
            self.changed.notify_all();
            station.told_news();
        }
    }

    /// Tells each client that is to be told.
    fn tell_clients(&self, station: &mut Station)
        ensures rest { station.new ≡ with_untold station.old (untold_in station.new) }
        ensures nobody { IsNobody (untold_in station.new) }
    {
        let mut from = 0;
        while let Some(client) = station.untold().next(from) {
            self.condition_of(client).notify_all();
            station.told(client);
            from = client.index() + 1;
        }
    }

    /// On which the client waits.
    fn condition_of(&self, client: ClientNo) -> &Condvar {
        &self.frames[client.index()]
    }

    /// One call of `work` that began has ended, and whoever waits for that is told. The last one
    /// closes the office.
    pub fn end_work<R: Wait>(&self, rt: &R) {
        self.end_work_at(&mut self.lock(rt));
    }

    /// As [`Office::end_work`], at the locked station.
    pub fn end_work_at(&self, station: &mut Station)
        ensures { Tells (after_work station.old) station.new }
    {
        station.end_work();
        self.tell(station);
    }

    /// One expected call of `work` won't begin, and whoever waits for that is told. The last one
    /// closes the office. Calls that go on are still waited for.
    pub fn skip_work<R: Wait>(&self, rt: &R) {
        self.skip_work_at(&mut self.lock(rt));
    }

    /// As [`Office::skip_work`], at the locked station.
    pub fn skip_work_at(&self, station: &mut Station)
        ensures { Tells (without_work station.old) station.new }
    {
        station.skip_work();
        self.tell(station);
    }

    /// No call of `work` begins any more: a later one takes no job. Those that are going on do all
    /// their jobs, and the flusher ends when none is left and all is written. It ends at once if
    /// nobody works and all is written. It doesn't wait for whoever commits without `work` and
    /// isn't counted by `begin_work`: what they commit after the flusher has ended is in memory
    /// alone.
    pub fn close<R: Wait>(&self, rt: &R) {
        self.close_at(&mut self.lock(rt));
    }

    /// As [`Office::close`], at the locked station.
    pub fn close_at(&self, station: &mut Station)
        ensures { Tells (closed station.old) station.new }
    {
        station.close();
        self.tell(station);
    }

    /// Closes the office, and every call that waits for it gives up. No call of `work` commits any
    /// more, so the flusher ends when all is written.
    pub fn halt<R: Wait>(&self, rt: &R) {
        self.halt_at(&mut self.lock(rt));
    }

    /// As [`Office::halt`], at the locked station: everybody is told.
    pub fn halt_at(&self, station: &mut Station)
        ensures { Halts station.old station.new }
    {
        station.halt();
        self.tell(station);
    }

    /// The station under the lock, with what always holds of it. Who was forgotten is told.
    fn sound<'a>(&self, station: MutexGuard<'a, Station>) -> MutexGuard<'a, Station>
        ensures sound { IsStation (mutex_guard_value result) }
        ensures mail { HasMail (mutex_guard_value result).dispatcher }
        ensures told { IsTold (mutex_guard_value result) }
    {
        let mut station = station;
        self.tell(&mut station);
        // What holds of every station, its history says.
        let _known = station.history();
        station
    }
}
