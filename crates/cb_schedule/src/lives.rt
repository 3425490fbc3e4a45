//! The world over all lives of its server: the server restarts too.
ghost use Rattle.std.specs.Prelude.{◌≡◌, ◌↔◌, ℕ, ◌<◌, [], ◌∷◌, ◌++◌, length, take};
ghost use Rattle.std.specs.Prelude.{true, false, IfOk, IfErr, OnErr, OnOk, IsErr, IsTrue, Some};
ghost use Rattle.std.specs.Prelude.{codes};
ghost use Rattle.cb_cache.specs.CacheState.{limits_of};
ghost use Rattle.cb_commit.specs.Stores.{IsOf};
ghost use Rattle.cb_protocol.specs.LivesWorld.{first_life};
ghost use Rattle.cb_server.specs.ServerValue.{commits_of};
ghost use Rattle.cb_server_state.specs.States.{opening_of};
ghost use Rattle.cb_transcript.specs.LivesTranscripts.{IsSerialOverLives, told_event};
ghost use Rattle.cb_transcript.specs.ProtocolEvents.{event_of};
ghost use Rattle.cb_transcript.specs.declared.lives_transcript.LivesEntry.{LivesEntry as EntryData};
ghost use Rattle.cb_transcript.specs.declared.lives_transcript.LivesEntry.TheVariants as entry;
ghost use Rattle.cb_transcript.specs.declared.restart.RestartAnswer.TheVariants as restart;
ghost use Rattle.cb_schedule.specs.LivesPlays.{LivesPlayed, LivesStep};
ghost use Rattle.cb_schedule.specs.LivesState.{HoldsOverLives, IsAnswerOf, IsReachedOverLives};
ghost use Rattle.cb_schedule.specs.LivesState.{RepresentsLives, first_opening};
ghost use Rattle.cb_schedule.specs.LivesTold.{IsToldInLife, TellsInLife};
ghost use Rattle.cb_schedule.specs.NetMoves.{NetBecomes};

use crate::life::{is_new_floor, may_be_on_disk, next_life};
use crate::net::Net;
use crate::world::untold;
use cb_commit::Store;
use cb_page::{Incarnation, Limits};
use cb_transcript::{
    Answer, Event, LivesEntry, LivesEvent, LivesTranscript, RestartAnswer, RestartEntry,
    RestartRefusal, TranscriptEntry,
};
use cb_twoq::Chooser;
use std::alloc::{AllocError, Global};
use std::fmt;
use std::marker::Model;
use thiserror::Error;

/// Want of memory in a play over all lives, and what became of the events before it.
#[derive(Drop, Error)]
pub struct LivesFault {
    pub transcript: LivesTranscript,
}

impl fmt::Display for LivesFault {
    ghost output = { λ _. Some (codes "memory") };

    fn fmt<W: fmt::Write>(&self, f: &mut fmt::Formatter<W>) -> fmt::Result {
        write!(f, "memory")
    }
}

// By hand: a transcript isn't shown.
impl fmt::Debug for LivesFault {
    fn fmt<W: fmt::Write>(&self, f: &mut fmt::Formatter<W>) -> fmt::Result {
        write!(f, "LivesFault")
    }
}

/// A server that restarts, its clients, every packet that was sent, and what became of every event.
/// A life of the server is the time from one start to the next.
///
/// In contracts, while it runs, it is a world of the protocol over all lives, reached from the
/// opening store.
pub struct Lives<Q: Chooser> {
    alloc: Global,
    limits: Limits,
    net: Net<Q>,
    /// The store with which the present life began.
    opening: Store,
    /// Below it the present server heeds no incarnation; 0 in the first life.
    floor: u64,
    /// How many of the commits told are of former lives.
    former: usize,
    told: LivesTranscript,
    stopped: bool,
}

// By hand: see docs/PROVING.md, "Drops".
impl<Q: Chooser> Drop for Lives<Q> {
    fn drop(self) {
        let Lives {
            alloc: _,
            limits: _,
            net: _,
            opening: _,
            floor: _,
            former: _,
            told: _,
            stopped: _,
        } = self;
    }
}

impl<Q: Chooser> Model for Lives<Q> {
    ghost use Rattle.cb_schedule.specs.LivesPlays.{IsLives};
    ghost use Rattle.cb_schedule.specs.LivesState.{LivesState};

    ghost Value = { LivesState };

    ghost view = { λ v. record {
      limits = v.limits;
      net = v.net;
      opening = v.opening;
      floor = v.floor;
      former = v.former;
      told = v.told;
      stopped = v.stopped;
    } };

    ghost invariant = { λ v. IsLives (record {
      limits = v.limits;
      net = v.net;
      opening = v.opening;
      floor = v.floor;
      former = v.former;
      told = v.told;
      stopped = v.stopped;
    }) };
}

impl<Q: Chooser> Lives<Q> {
    /// The first life over a store, before any event: each client is at its first incarnation, and
    /// there are no packets. `AllocError` only if memory was refused.
    pub fn new(alloc: Global, limits: &Limits, store: Store) -> Result<Lives<Q>, AllocError>
        requires { IsOf limits.now store }
        ensures runs { IfOk result (λ v. v.stopped ≡ false) }
        ensures told { IfOk result
            (λ v. v.told ≡ record { opening = store; entries = []; commits = [] }) }
        ensures limits { IfOk result (λ v. v.limits ≡ limits.now) }
        ensures represents { IfOk result
            (λ v. RepresentsLives v (first_life (limits_of limits.now) (opening_of store))) }
        ensures holds { IfOk result (λ v. HoldsOverLives (first_opening v)
            (first_life (limits_of limits.now) (opening_of store))) }
    {
        // The store is sound by its type: each call on it says so.
        let _known = store.number();
        let first = store.copy(alloc)?;
        let opening = store.copy(alloc)?;
        Ok(Lives {
            alloc,
            limits: *limits,
            net: Net::new(alloc, limits, store)?,
            opening,
            floor: 0,
            former: 0,
            told: LivesTranscript::new(alloc, first),
            stopped: false,
        })
    }

    /// Plays one event of the present life. `AllocError` if memory was refused. The world is then
    /// stopped, and each later call returns `AllocError` too.
    pub fn step(&mut self, event: Event) -> Result<Answer, AllocError>
        ensures ok { IfOk result (λ a. LivesStep self.old
            (entry.Within (record { event = event; answer = a })) self.new) }
        ensures stopped { OnErr result (self.new.stopped ≡ true) }
        ensures kept { OnErr result (self.new.told ≡ self.old.told) }
        ensures limits { self.new.limits ≡ self.old.limits }
        ensures stays { self.old.stopped ≡ true → IsErr result }
    {
        if self.stopped {
            return Err(AllocError);
        }
        self.stopped = true;
        let answer = play_in_life(
            self.alloc,
            &mut self.net,
            &mut self.told,
            self.former,
            event,
        )?;
        self.stopped = false;
        Ok(answer)
    }

    /// Restarts the server. Its new life has that floor, and begins with the store as it was after
    /// the commit of that number, which is all that the disk has. Clients know nothing of it, and
    /// every packet may still be taken.
    ///
    /// It is refused exactly if one of two conditions fails; the answer names the first that does.
    /// The floor has to be above the present one and above each incarnation that the server
    /// admitted. The number has to be from the last commit that was reported as on disk up to the
    /// last one made. A refusal is told in the transcript, and changes nothing else.
    ///
    /// `AllocError` if memory was refused. The world is then stopped, and each later call returns
    /// `AllocError` too.
    pub fn restart_server(
        &mut self,
        floor: Incarnation,
        number: u64,
    ) -> Result<RestartAnswer, AllocError>
        ensures ok { IfOk result (λ a. LivesStep self.old
            (entry.ServerRestarts (record { floor = floor; number = number; answer = a }))
            self.new) }
        ensures answer { IfOk result (λ a. IsAnswerOf self.old floor number a) }
        ensures stopped { OnErr result (self.new.stopped ≡ true) }
        ensures kept { OnErr result (self.new.told ≡ self.old.told) }
        ensures packets { self.new.net.packets ≡ self.old.net.packets }
        ensures limits { self.new.limits ≡ self.old.limits }
        ensures stays { self.old.stopped ≡ true → IsErr result }
    {
        let answer = self.restart_answer(floor, number);
        match answer {
            RestartAnswer::Restarted => self.begin_life(floor, number)?,
            RestartAnswer::Refused(refusal) => self.refuse(floor, number, refusal)?,
        }
        Ok(answer)
    }

    /// Plays events in order, restarts of the server among them, until memory is refused. The fault
    /// then has what became of the events before. A stopped world plays none.
    pub fn play(mut self, events: &[LivesEvent]) -> Result<LivesTranscript, LivesFault>
        ensures ok { IfOk result (λ transcript. LivesPlayed self events.now transcript) }
        ensures serial { IfOk result IsSerialOverLives }
        ensures fault { IfErr result (λ fault. self.stopped ≡ false → (n : ℕ)
            × (n < length events.now) × LivesPlayed self (take n events.now) fault.transcript) }
        ensures fault_serial { IfErr result (λ fault. IsSerialOverLives fault.transcript) }
        ensures stopped { self.stopped ≡ true
            → IfErr result (λ fault. fault.transcript ≡ self.told) }
        ensures stays { self.stopped ≡ true → IsErr result }
    {
        if !self.is_running() {
            return Err(LivesFault {
                transcript: self.into_transcript(),
            });
        }
        for event in events {
            let Ok(()) = self.advance_by(event) else {
                return Err(LivesFault {
                    transcript: self.into_transcript(),
                });
            };
        }
        Ok(self.into_transcript())
    }

    /// The answer to a restart of the server.
    fn restart_answer(&self, floor: Incarnation, number: u64) -> RestartAnswer
        ensures { IsAnswerOf self.now floor number result }
    {
        let server = self.net.server();
        if !is_new_floor(server, self.floor, floor) {
            return RestartAnswer::Refused(RestartRefusal::Floor);
        }
        if !may_be_on_disk(server, number) {
            return RestartAnswer::Refused(RestartRefusal::Number);
        }
        RestartAnswer::Restarted
    }

    /// The server restarts, and it is told.
    fn begin_life(&mut self, floor: Incarnation, number: u64) -> Result<(), AllocError>
        requires { IsAnswerOf self.old floor number restart.Restarted }
        ensures ok { OnOk result (LivesStep self.old (entry.ServerRestarts (record {
          floor = floor;
          number = number;
          answer = restart.Restarted;
        })) self.new) }
        ensures stopped { OnErr result (self.new.stopped ≡ true) }
        ensures kept { OnErr result (self.new.told ≡ self.old.told) }
        ensures packets { self.new.net.packets ≡ self.old.net.packets }
        ensures limits { self.new.limits ≡ self.old.limits }
        ensures stays { self.old.stopped ≡ true → IsErr result }
    {
        if self.stopped {
            return Err(AllocError);
        }
        self.stopped = true;
        let server = self.net.server();
        let lost = (server.state().commits.store().number() - number) as usize;
        let life = next_life(
            self.alloc,
            &self.limits,
            server,
            &self.opening,
            floor,
            number,
        )?;
        let (opening, resumed) = life;
        let count = self.told.commits().len() - lost;
        tell_life(&mut self.told, floor, number, count)?;
        self.net.restart_server(resumed);
        self.opening = opening;
        self.floor = floor.get();
        self.former = count;
        self.stopped = false;
        Ok(())
    }

    /// A restart of the server is refused, and it is told.
    fn refuse(
        &mut self,
        floor: Incarnation,
        number: u64,
        refusal: RestartRefusal,
    ) -> Result<(), AllocError>
        requires { IsAnswerOf self.old floor number (restart.Refused refusal) }
        ensures ok { OnOk result (LivesStep self.old (entry.ServerRestarts (record {
          floor = floor;
          number = number;
          answer = restart.Refused refusal;
        })) self.new) }
        ensures stopped { OnErr result (self.new.stopped ≡ true) }
        ensures kept { OnErr result (self.new.told ≡ self.old.told) }
        ensures packets { self.new.net.packets ≡ self.old.net.packets }
        ensures limits { self.new.limits ≡ self.old.limits }
        ensures stays { self.old.stopped ≡ true → IsErr result }
    {
        if self.stopped {
            return Err(AllocError);
        }
        self.stopped = true;
        let answer = RestartAnswer::Refused(refusal);
        let entry = LivesEntry::ServerRestarts(RestartEntry {
            floor,
            number,
            answer,
        });
        self.told.tell(entry, &[])?;
        self.stopped = false;
        Ok(())
    }

    /// Plays one event that is kept, and leaves its answer in the transcript alone.
    fn advance_by(&mut self, event: &LivesEvent) -> Result<(), AllocError>
        ensures ok { OnOk result ((happened : EntryData) × (told_event happened ≡ event.now)
            × LivesStep self.old happened self.new) }
        ensures kept { OnErr result (self.new.told ≡ self.old.told) }
    {
        match event.copy(self.alloc)? {
            LivesEvent::Within(event) => self.advance(event),
            LivesEvent::ServerRestarts { floor, number } => self.advance_life(floor, number),
        }
    }

    /// An event of the present life is played.
    fn advance(&mut self, event: Event) -> Result<(), AllocError>
        ensures ok { OnOk result ((happened : EntryData)
            × (told_event happened ≡ LivesEvent.Within event)
            × LivesStep self.old happened self.new) }
        ensures kept { OnErr result (self.new.told ≡ self.old.told) }
    {
        self.step(event)?;
        Ok(())
    }

    /// A restart of the server is played.
    fn advance_life(&mut self, floor: Incarnation, number: u64) -> Result<(), AllocError>
        ensures ok { OnOk result ((happened : EntryData)
            × (told_event happened ≡ LivesEvent.ServerRestarts floor number)
            × LivesStep self.old happened self.new) }
        ensures kept { OnErr result (self.new.told ≡ self.old.told) }
    {
        self.restart_server(floor, number)?;
        Ok(())
    }

    /// Whether the world still runs: no want of memory has stopped it.
    pub fn is_running(&self) -> bool
        ensures value { IsTrue result ↔ (self.now.stopped ≡ false) }
        ensures reached { self.now.stopped ≡ false → IsReachedOverLives self.now }
    {
        !self.stopped
    }

    /// The limits of its store, clients and pools, in all lives.
    pub fn limits(&self) -> &Limits
        ensures { result.now ≡ self.now.limits }
    {
        &self.limits
    }

    /// The floor of the present life; 0 in the first.
    pub fn floor(&self) -> u64
        ensures { result ≡ self.now.floor }
    {
        self.floor
    }

    /// What became of every event so far, and the transactions whose commits count.
    pub fn transcript(&self) -> &LivesTranscript
        ensures value { result.now ≡ self.now.told }
        ensures serial { IsSerialOverLives result.now }
    {
        &self.told
    }

    /// What became of every event.
    fn into_transcript(self) -> LivesTranscript
        ensures value { result ≡ self.told }
        ensures serial { IsSerialOverLives result }
    {
        let Lives {
            alloc: _,
            limits: _,
            net: _,
            opening: _,
            floor: _,
            former: _,
            told,
            stopped: _,
        } = self;
        told
    }
}

/// Plays one event at the net and tells it, with the commit that it applied; so many of those told
/// are of former lives. If memory is refused nothing is told.
fn play_in_life<Q: Chooser>(
    alloc: Global,
    net: &mut Net<Q>,
    told: &mut LivesTranscript,
    former: usize,
    event: Event,
) -> Result<Answer, AllocError>
    requires { IsToldInLife net.old former told.old.commits }
    ensures becomes { IfOk result (λ a. NetBecomes net.old (event_of event) a net.new) }
    ensures forgotten { IfOk result (λ _. (commits_of net.new.server).forgotten ≡ 0) }
    ensures told { IfOk result (λ a. TellsInLife net.new former told.old
        (entry.Within (record { event = event; answer = a })) told.new) }
    ensures kept { OnErr result (told.new ≡ told.old) }
{
    let answer = net.event(alloc, &event)?;
    let applied = untold(net.server().committed(), told.commits().len() - former);
    let copy = answer.copy(alloc)?;
    told.tell(
        LivesEntry::Within(TranscriptEntry { event, answer }),
        applied,
    )?;
    Ok(copy)
}

/// Tells a restart of the server, behind which so many of the first commits count.
fn tell_life(
    told: &mut LivesTranscript,
    floor: Incarnation,
    number: u64,
    count: usize,
) -> Result<(), AllocError>
    ensures ok { OnOk result (told.new ≡ record told.old {
      entries = told.old.entries ++ entry.ServerRestarts (record {
        floor = floor;
        number = number;
        answer = restart.Restarted;
      }) ∷ [];
      commits = take count told.old.commits;
    }) }
    ensures kept { OnErr result (told.new ≡ told.old) }
{
    let entry = RestartEntry {
        floor,
        number,
        answer: RestartAnswer::Restarted,
    };
    told.tell(LivesEntry::ServerRestarts(entry), &[])?;
    told.keep(told.entries().len(), count);
    Ok(())
}
