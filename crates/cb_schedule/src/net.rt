//! The net: a server, its clients and every packet that was ever sent, event by event.
//!
//! In contracts a [`Net`] is server, clients and packets of a world of the protocol: each event
//! makes of it what the protocol's step makes of that world.
ghost use Rattle.std.specs.Prelude.{◌≡◌, ◌<◌, ◌≤◌, ◌+◌, ℕ, false, true, [], IfOk, OnErr, length};
ghost use Rattle.std.specs.Prelude.{take, IfErr};
ghost use Rattle.std.specs.List.{AllByRecursion};
ghost use Rattle.cb_commit.specs.Stores.{IsOf};
ghost use Rattle.cb_cache.specs.CacheState.{limits_of};
ghost use Rattle.cb_frame.specs.Grammar.{Fits};
ghost use Rattle.cb_frame.specs.Kinds.{goes_to_server, kind_of_body};
ghost use Rattle.cb_server_state.specs.States.{opening_of};
ghost use Rattle.cb_schedule.specs.NetMoves.{CanFlush, FlushesTo, IsAccepted, NetBecomes, Sends};
ghost use Rattle.cb_schedule.specs.NetMoves.{sent_as};
ghost use Rattle.cb_schedule.specs.NetState.{RepresentsNet, limits_in};
ghost use Rattle.cb_schedule.specs.Packets.{IsFrameAt};
ghost use Rattle.cb_protocol.specs.World.{Event as WorldEvent};
ghost use Rattle.cb_protocol.specs.World.{ClientCalls, FlushAll, Restart as RestartEvent};
ghost use Rattle.cb_protocol.specs.World.{ServerAgain, TakePacket, new_world};
ghost use Rattle.cb_outbox.specs.Messages.{messages_of};
ghost use Rattle.cb_server.specs.ServerValue.{IsUnchanged, commits_of};
ghost use Rattle.cb_server.specs.Taking.{Refuses, Takes, lacks_number_for};
ghost use Rattle.cb_transcript.specs.ProtocolEvents.{call_of, event_of};

use crate::{Packets, WorldClients};
use cb_commit::Store;
use cb_frame::Frame;
use cb_page::{ClientNo, CommitNo, Limits};
use cb_server::{Server, ServerFault};
use cb_transcript::{Answer, AnswerWord, Call, Event, SentPacket, SentPackets};
use cb_twoq::Chooser;
use std::alloc::{AllocError, Global};
use std::marker::Model;

/// The server, the clients, and every packet that was ever sent.
///
/// `new` and `event` take memory; no other call does.
pub(crate) struct Net<Q: Chooser> {
    server: Server,
    world_clients: WorldClients<Q>,
    packets: Packets,
}

// By hand: see docs/PROVING.md, "Drops".
impl<Q: Chooser> Drop for Net<Q> {
    fn drop(self) {
        let Net {
            server: _,
            world_clients: _,
            packets: _,
        } = self;
    }
}

impl<Q: Chooser> Model for Net<Q> {
    ghost use Rattle.cb_schedule.specs.NetState.{IsNet, NetState};

    ghost Value = { NetState };

    ghost view = { λ net. record {
      server = net.server;
      world_clients = net.world_clients;
      packets = net.packets;
    } };

    ghost invariant = { λ net. IsNet (record {
      server = net.server;
      world_clients = net.world_clients;
      packets = net.packets;
    }) };
}

impl<Q: Chooser> Net<Q> {
    /// The net of a store before any event: each client at its first incarnation, and no packet.
    /// `AllocError` only if memory was refused.
    pub(crate) fn new(alloc: Global, limits: &Limits, store: Store) -> Result<Net<Q>, AllocError>
        requires { IsOf limits.now store }
        ensures limits { IfOk result (λ net. limits_in net ≡ limits.now) }
        ensures packets { IfOk result (λ net. net.packets.sent ≡ []) }
        ensures opening { IfOk result (λ net. (commits_of net.server).opening ≡ store) }
        ensures represents { IfOk result
            (λ net. RepresentsNet net (new_world (limits_of limits.now) (opening_of store))) }
    {
        Ok(Net {
            server: Server::new(alloc, limits, store)?,
            world_clients: WorldClients::new(alloc, limits)?,
            packets: Packets::new(alloc, limits),
        })
    }

    /// The server. It forgets nothing.
    pub(crate) fn server(&self) -> &Server
        ensures value { result.now ≡ self.now.server }
        ensures forgotten { (commits_of result.now).forgotten ≡ 0 }
        ensures limits { result.now.limits ≡ limits_in self.now }
    {
        &self.server
    }

    /// The clients, each at its present incarnation.
    pub(crate) fn world_clients(&self) -> &WorldClients<Q>
        ensures { result.now ≡ self.now.world_clients }
    {
        &self.world_clients
    }

    /// Every packet that was ever sent.
    pub(crate) fn packets(&self) -> &Packets
        ensures { result.now ≡ self.now.packets }
    {
        &self.packets
    }

    /// Keeps the first so many packets. What was sent last is taken back.
    pub(crate) fn keep_packets(&mut self, count: usize)
        ensures { self.new ≡ record self.old {
          packets = record self.old.packets { sent = take count self.old.packets.sent };
        } }
    {
        self.packets.keep(count);
    }

    /// The server restarts: this is the server of its next life. Clients and packets stay.
    pub(crate) fn restart_server(&mut self, server: Server)
        requires limits { server.limits ≡ limits_in self.old }
        requires forgotten { (commits_of server).forgotten ≡ 0 }
        ensures { self.new ≡ record self.old { server = server } }
    {
        self.server = server;
    }

    /// One event happens. `AllocError` only if memory was refused, and never in place of a client's
    /// refusal, nor if there is no such client or packet: no packet is sent then, but a client may
    /// have changed.
    pub(crate) fn event(&mut self, alloc: Global, event: &Event) -> Result<Answer, AllocError>
        ensures ok { IfOk result (λ answer.
            NetBecomes self.old (event_of event.now) answer self.new) }
        ensures err { OnErr result (self.new.packets ≡ self.old.packets) }
        ensures fails { OnErr result (IsAccepted self.old (event_of event.now)) }
    {
        match event {
            Event::Call { client, call } => self.call(alloc, *client, call),
            Event::Take { packet } => self.take(alloc, *packet),
            Event::Restart { client } => self.restart(alloc, *client),
            Event::AgainServer => self.again(alloc),
            Event::Flush => self.flush(alloc),
            Event::FlushTo { number } => self.flush_to(alloc, *number),
        }
    }

    /// A client is called.
    fn call(&mut self, alloc: Global, client: ClientNo, call: &Call) -> Result<Answer, AllocError>
        ensures ok { IfOk result (λ answer.
            NetBecomes self.old (ClientCalls client (call_of call.now)) answer self.new) }
        ensures err { OnErr result (self.new.packets ≡ self.old.packets) }
        ensures fails { OnErr result
            (IsAccepted self.old (ClientCalls client (call_of call.now))) }
    {
        // What holds of all clients, `limits` says.
        let _known = self.world_clients.limits();
        let reply = self.world_clients.call(alloc, client, call)?;
        self.answer(alloc, reply.word, reply.said.as_slice())
    }

    /// A packet is taken by its addressee.
    fn take(&mut self, alloc: Global, packet: u64) -> Result<Answer, AllocError>
        ensures ok { IfOk result (λ answer.
            NetBecomes self.old (TakePacket packet) answer self.new) }
        ensures err { OnErr result (self.new.packets ≡ self.old.packets) }
        ensures fails { OnErr result (IsAccepted self.old (TakePacket packet)) }
    {
        match self.packets.frame(alloc, packet)? {
            None => Ok(Answer::silent(alloc, AnswerWord::NoPacket)),
            Some(frame) => {
                if frame.kind().goes_to_server() {
                    self.take_by_server(alloc, packet, frame)
                } else {
                    self.take_by_client(alloc, packet, frame)
                }
            }
        }
    }

    /// That packet is this frame, which goes to a client.
    fn take_by_client(
        &mut self,
        alloc: Global,
        packet: u64,
        frame: Frame,
    ) -> Result<Answer, AllocError>
        requires packet { IsFrameAt self.old.packets packet frame }
        requires way { goes_to_server (kind_of_body frame.body) ≡ false }
        ensures ok { IfOk result (λ answer.
            NetBecomes self.old (TakePacket packet) answer self.new) }
        ensures err { OnErr result (self.new.packets ≡ self.old.packets) }
    {
        let said = self.world_clients.take(alloc, frame)?;
        self.answer(alloc, AnswerWord::Taken, said.as_slice())
    }

    /// That packet is this frame, which goes to the server.
    fn take_by_server(
        &mut self,
        alloc: Global,
        packet: u64,
        frame: Frame,
    ) -> Result<Answer, AllocError>
        requires packet { IsFrameAt self.old.packets packet frame }
        requires way { goes_to_server (kind_of_body frame.body) ≡ true }
        ensures ok { IfOk result (λ answer.
            NetBecomes self.old (TakePacket packet) answer self.new) }
        ensures err { OnErr result (self.new.packets ≡ self.old.packets) }
        ensures fails { OnErr result (lacks_number_for self.old.server frame ≡ false) }
    {
        match take_decoded(&mut self.server, alloc, frame) {
            Ok(said) => self.answer(alloc, AnswerWord::Taken, said.as_slice()),
            Err(ServerFault::Exhausted) => Ok(Answer::silent(alloc, AnswerWord::ServerExhausted)),
            Err(ServerFault::Memory) => Err(AllocError),
        }
    }

    /// A client restarts.
    fn restart(&mut self, alloc: Global, client: ClientNo) -> Result<Answer, AllocError>
        ensures ok { IfOk result (λ answer.
            NetBecomes self.old (RestartEvent client) answer self.new) }
        ensures err { OnErr result (self.new.packets ≡ self.old.packets) }
        ensures fails { OnErr result (IsAccepted self.old (RestartEvent client)) }
    {
        let word = self.world_clients.restart(alloc, client)?;
        Ok(Answer::silent(alloc, word))
    }

    /// The server sends again what may be lost.
    fn again(&mut self, alloc: Global) -> Result<Answer, AllocError>
        ensures ok { IfOk result (λ answer. NetBecomes self.old ServerAgain answer self.new) }
        ensures err { OnErr result (self.new.packets ≡ self.old.packets) }
    {
        let said = self.server.again(alloc)?;
        self.answer(alloc, AnswerWord::Ok, said.as_slice())
    }

    /// All commits are on disk, if that says anything new.
    fn flush(&mut self, alloc: Global) -> Result<Answer, AllocError>
        ensures ok { IfOk result (λ answer. NetBecomes self.old FlushAll answer self.new) }
        ensures err { OnErr result (self.new.packets ≡ self.old.packets) }
    {
        let last = self.server.state().commits.store().number();
        self.flush_to(alloc, last)
    }

    /// The commits up to that number are on disk, if that says anything new.
    fn flush_to(&mut self, alloc: Global, number: u64) -> Result<Answer, AllocError>
        ensures ok { IfOk result (λ answer. (event : WorldEvent)
            → FlushesTo self.old event number → NetBecomes self.old event answer self.new) }
        ensures err { OnErr result (self.new.packets ≡ self.old.packets) }
    {
        match self.can_flush(number) {
            None => Ok(Answer::silent(alloc, AnswerWord::Nothing)),
            Some(commit) => {
                let said = self.server.flushed(alloc, commit)?;
                self.answer(alloc, AnswerWord::Flushed(commit), said.as_slice())
            }
        }
    }

    /// The number, if the commit of that number was made and isn't on disk yet.
    fn can_flush(&self, number: u64) -> Option<CommitNo>
        ensures { CanFlush self.now number result }
    {
        if number > self.server.state().commits.store().number() {
            return None;
        }
        let commit = CommitNo::checked(number)?;
        if self.server.can_flush(commit) {
            Some(commit)
        } else {
            None
        }
    }

    /// The answer of that word, once the frames are sent, in order. `AllocError` only if memory was
    /// refused; then nothing is sent.
    fn answer(
        &mut self,
        alloc: Global,
        word: AnswerWord,
        frames: &[Frame],
    ) -> Result<Answer, AllocError>
        requires { AllByRecursion (Fits (limits_in self.old)) frames.now }
        ensures ok { IfOk result (λ answer. Sends self.old word frames.now answer self.new) }
        ensures err { OnErr result (self.new.packets ≡ self.old.packets) }
        ensures fails { OnErr result (0 < length frames.now) }
    {
        let first = self.packets.len();
        self.packets.send_all(alloc, frames)?;
        match numbered(alloc, self.packets.len(), frames) {
            Ok(sent) => Ok(Answer { word, sent }),
            Err(fault) => {
                self.packets.keep(first);
                Err(fault)
            }
        }
    }
}

/// The packets that these frames are sent as, the last of them right before `end`. `AllocError`
/// only if memory was refused.
fn numbered(alloc: Global, end: usize, frames: &[Frame]) -> Result<SentPackets, AllocError>
    requires { length frames.now ≤ end }
    ensures ok { IfOk result (λ sent. (first : ℕ) → end ≡ first + length frames.now
        → sent ≡ sent_as first frames.now) }
    ensures fails { OnErr result (0 < length frames.now) }
{
    let first = end - frames.len();
    let mut list = Vec::with_capacity(alloc, frames.len())?;
    for (index, frame) in frames.iter().enumerate() {
        list.push(SentPacket {
            number: (first + index) as u64,
            kind: frame.kind(),
            client: frame.client,
        })?;
    }
    Ok(SentPackets::from_vec(list))
}

/// The server takes a frame that was decoded from its packet, which stays: a refused one goes.
fn take_decoded(server: &mut Server, alloc: Global, frame: Frame) -> Result<Vec<Frame>, ServerFault>
    requires { Fits server.old.limits frame }
    ensures ok { IfOk result (λ said. Takes server.old frame (messages_of said.items) server.new) }
    ensures fits { IfOk result (λ said. AllByRecursion (Fits server.old.limits) said.items) }
    ensures err { IfErr result (Refuses server.old frame) }
    ensures unchanged { OnErr result (IsUnchanged server.old server.new) }
{
    match server.take_owned(alloc, frame) {
        Ok(said) => Ok(said),
        Err(refused) => Err(refused.0),
    }
}
