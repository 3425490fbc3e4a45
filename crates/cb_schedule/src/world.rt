//! The world: it plays events one by one, and keeps what became of each.
ghost use Rattle.std.specs.Prelude.{◌≡◌, ◌↔◌, ℕ, ◌<◌, ◌≤◌, List, [], ◌∷◌, ◌++◌, length, take, drop};
ghost use Rattle.std.specs.Prelude.{option_copied, slice_get, true, false, IfOk, IfErr, IfSome};
ghost use Rattle.std.specs.Prelude.{OnErr, IsErr, IsTrue, Some, codes, map};
ghost use Rattle.std.specs.Option.{is_some};
ghost use Rattle.cb_commit.specs.Stores.{IsOf};
ghost use Rattle.cb_protocol.specs.Headline.{Promise};
ghost use Rattle.cb_protocol.specs.World.{new_world};
ghost use Rattle.cb_schedule.specs.Plays.{Played, IsReached, Steps};
ghost use Rattle.cb_schedule.specs.NetMoves.{NetBecomes};
ghost use Rattle.cb_server.specs.ServerValue.{server_of};
ghost use Rattle.cb_transcript.specs.ProtocolEvents.{event_of};
ghost use Rattle.cb_transcript.specs.Transcripts.{IsSerialOnOpening, committed_name};
ghost use Rattle.cb_cache.specs.CacheState.{limits_of};
ghost use Rattle.cb_server_state.specs.States.{newest_first, opening_of};
ghost use Rattle.cb_schedule.specs.Packets.{IsSpelled};
ghost use Rattle.cb_schedule.specs.WorldClientsState.{client_at};
ghost use Rattle.cb_schedule.specs.WorldState.{IsTold, Represents, Tells, opened, told};
ghost use Rattle.cb_transcript.specs.declared.answer.Answer.{Answer as AnswerState};
ghost use Rattle.cb_transcript.specs.declared.answer.TranscriptEntry.{TranscriptEntry as EntryData};

use crate::net::Net;
use cb_client::Client;
use cb_commit::{Commit, Store};
use cb_page::{ClientNo, Limits};
use cb_protocol::callback_read;
use cb_transcript::{Answer, Event, Transcript, TranscriptEntry};
use cb_twoq::Chooser;
use std::alloc::{AllocError, Global};
use std::fmt;
use std::marker::Model;
use thiserror::Error;

/// Want of memory in a play, and what became of the events before it.
#[derive(Drop, Error)]
pub struct PlayFault {
    pub transcript: Transcript,
}

impl fmt::Display for PlayFault {
    ghost output = { λ _. Some (codes "memory") };

    fn fmt<W: fmt::Write>(&self, f: &mut fmt::Formatter<W>) -> fmt::Result {
        write!(f, "memory")
    }
}

// By hand: a transcript isn't shown.
impl fmt::Debug for PlayFault {
    fn fmt<W: fmt::Write>(&self, f: &mut fmt::Formatter<W>) -> fmt::Result {
        write!(f, "PlayFault")
    }
}

/// A server, its clients, every packet that was sent, and what became of every event. In contracts
/// a running world is a world of the protocol, reached from the opening store.
pub struct World<Q: Chooser> {
    alloc: Global,
    limits: Limits,
    net: Net<Q>,
    transcript: Transcript,
    stopped: bool,
}

// By hand: see docs/PROVING.md, "Drops".
impl<Q: Chooser> Drop for World<Q> {
    fn drop(self) {
        let World {
            alloc: _,
            limits: _,
            net: _,
            transcript: _,
            stopped: _,
        } = self;
    }
}

impl<Q: Chooser> Model for World<Q> {
    ghost use Rattle.std.specs.Prelude.{◌≡◌, false};
    ghost use Rattle.cb_schedule.specs.WorldState.{WorldState};
    ghost use Rattle.cb_schedule.specs.Plays.{IsWorld};

    ghost Value = { WorldState };

    ghost view = { λ w. record {
      limits = w.limits;
      net = w.net;
      opening = w.transcript.opening;
      transcript = w.transcript.entries;
      commits = w.transcript.commits;
      stopped = w.stopped;
    } };

    ghost invariant = { λ w. IsWorld (record {
      limits = w.limits;
      net = w.net;
      opening = w.transcript.opening;
      transcript = w.transcript.entries;
      commits = w.transcript.commits;
      stopped = w.stopped;
    }) };
}

impl<Q: Chooser> World<Q> {
    /// The world over a store, before any event: each client is at its first incarnation, and there
    /// are no packets. `AllocError` only if memory was refused.
    pub fn new(alloc: Global, limits: &Limits, store: Store) -> Result<World<Q>, AllocError>
        requires { IsOf limits.now store }
        ensures runs { IfOk result (λ w. w.stopped ≡ false) }
        ensures told { IfOk result
            (λ w. told w ≡ record { opening = store; entries = []; commits = [] }) }
        ensures packets { IfOk result (λ w. w.net.packets.sent ≡ []) }
        ensures limits { IfOk result (λ w. w.limits ≡ limits.now) }
        ensures represents { IfOk result
            (λ w. Represents w (new_world (limits_of limits.now) (opening_of store))) }
        ensures promise { IfOk result
            (λ w. Promise (opened w) (new_world (limits_of limits.now) (opening_of store))) }
    {
        callback_read();
        // The store is sound by its type: each call on it says so.
        let _known = store.number();
        let opening = store.copy(alloc)?;
        Ok(World {
            alloc,
            limits: *limits,
            net: Net::new(alloc, limits, store)?,
            transcript: Transcript::new(alloc, opening),
            stopped: false,
        })
    }

    /// Plays one event. `AllocError` if memory was refused. The world is then stopped, and each
    /// later call returns `AllocError` too.
    pub fn step(&mut self, event: Event) -> Result<Answer, AllocError>
        ensures ok { IfOk result (λ a. Steps self.old event a self.new) }
        ensures stopped { OnErr result (self.new.stopped ≡ true) }
        ensures kept { OnErr result (told self.new ≡ told self.old) }
        ensures packets { OnErr result (self.new.net.packets.sent ≡ self.old.net.packets.sent) }
        ensures limits { self.new.limits ≡ self.old.limits }
        ensures stays { self.old.stopped ≡ true → IsErr result }
    {
        let sent_before = self.net.packets().len();
        let told_before = self.transcript.entries().len();
        let commits_before = self.transcript.commits().len();
        self.advance(event)?;
        let answer = last_answer(self.alloc, self.transcript.entries());
        if answer.is_err() {
            self.stopped = true;
            self.transcript.keep(told_before, commits_before);
            self.net.keep_packets(sent_before);
        }
        answer
    }

    /// Plays events in order until memory is refused. The fault then has what became of the events
    /// before. A stopped world plays none.
    pub fn play(mut self, events: &[Event]) -> Result<Transcript, PlayFault>
        ensures ok { IfOk result (λ transcript. Played self events.now transcript) }
        ensures serial { IfOk result IsSerialOnOpening }
        ensures fault { IfErr result (λ fault. self.stopped ≡ false → (n : ℕ)
            × (n < length events.now) × Played self (take n events.now) fault.transcript) }
        ensures fault_serial { IfErr result (λ fault. IsSerialOnOpening fault.transcript) }
        ensures stopped { self.stopped ≡ true
            → IfErr result (λ fault. fault.transcript ≡ told self) }
        ensures stays { self.stopped ≡ true → IsErr result }
    {
        callback_read();
        if !self.is_running() {
            return Err(PlayFault {
                transcript: self.into_transcript(),
            });
        }
        for event in events {
            let Ok(()) = self.advance_by(event) else {
                return Err(PlayFault {
                    transcript: self.into_transcript(),
                });
            };
        }
        Ok(self.into_transcript())
    }

    /// Plays one event, and leaves its answer in the transcript alone.
    fn advance(&mut self, event: Event) -> Result<(), AllocError>
        ensures ok { IfOk result (λ _. (a : AnswerState) × Steps self.old event a self.new) }
        ensures stopped { OnErr result (self.new.stopped ≡ true) }
        ensures kept { OnErr result (told self.new ≡ told self.old) }
        ensures packets { OnErr result (self.new.net.packets.sent ≡ self.old.net.packets.sent) }
        ensures limits { self.new.limits ≡ self.old.limits }
        ensures stays { self.old.stopped ≡ true → IsErr result }
    {
        callback_read();
        if self.stopped {
            return Err(AllocError);
        }
        self.stopped = true;
        tell(self.alloc, &mut self.net, &mut self.transcript, event)?;
        self.stopped = false;
        Ok(())
    }

    /// The same with an event that is kept.
    fn advance_by(&mut self, event: &Event) -> Result<(), AllocError>
        ensures ok { IfOk result (λ _. (a : AnswerState) × Steps self.old event.now a self.new) }
        ensures kept { OnErr result (told self.new ≡ told self.old) }
    {
        let event = event.copy(self.alloc)?;
        self.advance(event)
    }

    /// Whether the world still runs: no want of memory has stopped it.
    pub fn is_running(&self) -> bool
        ensures value { IsTrue result ↔ (self.now.stopped ≡ false) }
        ensures reached { self.now.stopped ≡ false → IsReached self.now }
    {
        !self.stopped
    }

    /// The limits of its store, clients and pools.
    pub fn limits(&self) -> &Limits
        ensures { result.now ≡ self.now.limits }
    {
        &self.limits
    }

    /// What became of every event so far, and the transactions that were committed.
    pub fn transcript(&self) -> &Transcript
        ensures value { result.now ≡ told self.now }
        ensures serial { IsSerialOnOpening result.now }
    {
        &self.transcript
    }

    /// The commits so far, in order, with the pages that they wrote: those that the transcript
    /// names. `None` once want of memory has stopped the world, since its server may have made one
    /// commit more, which the transcript doesn't name.
    pub fn committed(&self) -> Option<&[Commit]>
        ensures value { IfSome result
            (λ cs. newest_first cs.now ≡ (server_of self.now.net.server).commits) }
        ensures told { IfSome result (λ cs. map committed_name cs.now ≡ self.now.commits) }
        ensures running { is_some result ≡ true ↔ (self.now.stopped ≡ false) }
    {
        if self.stopped {
            return None;
        }
        Some(self.net.server().committed())
    }

    /// The client of that number, at its present incarnation. `None` if there is none.
    pub fn client(&self, client: ClientNo) -> Option<&Client<Q>>
        ensures value { IfSome result
            (λ found. found.now ≡ client_at self.now.net.world_clients client) }
        ensures there { self.now.stopped ≡ false
            → (is_some result ≡ true ↔ client < self.now.limits.clients) }
    {
        self.net.world_clients().client(client)
    }

    /// How many packets were ever sent.
    pub fn packet_count(&self) -> usize
        ensures { result ≡ length self.now.net.packets.sent }
    {
        self.net.packets().len()
    }

    /// The bytes of the packet of that number, counted from 0 among all that were ever sent. They
    /// are those of the frame that was sent.
    pub fn packet(&self, number: u64) -> Option<&[u8]>
        ensures bytes { option_copied result ≡ slice_get self.now.net.packets.sent number }
        ensures frame { IfSome result (λ bytes. IsSpelled self.now.limits bytes.now) }
    {
        self.net.packets().bytes(number)
    }

    /// What became of every event.
    fn into_transcript(self) -> Transcript
        ensures value { result ≡ told self }
        ensures serial { IsSerialOnOpening result }
    {
        let World {
            alloc: _,
            limits: _,
            net: _,
            transcript,
            stopped: _,
        } = self;
        transcript
    }
}

/// Plays one event at the net and tells it, with the commit that it applied. If memory is refused
/// nothing is told, and no packet is sent; the net may have changed otherwise.
fn tell<Q: Chooser>(
    alloc: Global,
    net: &mut Net<Q>,
    transcript: &mut Transcript,
    event: Event,
) -> Result<(), AllocError>
    requires { IsTold net.old transcript.old.commits }
    ensures ok { IfOk result (λ _. (a : AnswerState)
        × NetBecomes net.old (event_of event) a net.new
        × (transcript.new.entries ≡ transcript.old.entries
        ++ record { event = event; answer = a } ∷ [])
        × Tells net.new transcript.old.commits transcript.new.commits) }
    ensures opening { transcript.new.opening ≡ transcript.old.opening }
    ensures kept { OnErr result (transcript.new ≡ transcript.old) }
    ensures packets { OnErr result (net.new.packets.sent ≡ net.old.packets.sent) }
{
    let sent_before = net.packets().len();
    let answer = net.event(alloc, &event)?;
    let applied = untold(net.server().committed(), transcript.commits().len());
    let told = transcript.tell(event, answer, applied);
    if told.is_err() {
        net.keep_packets(sent_before);
    }
    told
}

/// The commits behind those told, of which there are so many.
pub(crate) fn untold(commits: &[Commit], told: usize) -> &[Commit]
    requires { told ≤ length commits.now }
    ensures { result.now ≡ drop told commits.now }
{
    &commits[told..]
}

/// A copy of the last answer.
fn last_answer(alloc: Global, entries: &[TranscriptEntry]) -> Result<Answer, AllocError>
    requires { 0 < length entries.now }
    ensures { IfOk result (λ a. (es : List EntryData) (e : EntryData)
        → entries.now ≡ es ++ e ∷ [] → a ≡ e.answer) }
{
    entries[entries.len() - 1].answer.copy(alloc)
}

/// The law of what a new world shows: it runs, under its limits, and nothing has happened.
fn law<Q: Chooser>(
    alloc: Global,
    limits: &Limits,
    store: Store,
) -> Result<(bool, Limits, usize, bool), AllocError>
    requires { IsOf limits.now store }
    ensures { IfOk result (λ shown. shown ≡ (true, limits.now, 0, true)) }
{
    let world: World<Q> = World::new(alloc, limits, store)?;
    let told = world.transcript().entries().len();
    Ok((
        world.is_running(),
        *world.limits(),
        told,
        world.packet(0).is_none(),
    ))
}
