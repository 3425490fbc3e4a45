//! The clients by their numbers.
ghost use Rattle.std.specs.Prelude.{◌≡◌, ◌<◌, ◌↔◌, [], false, true, IfOk, IfSome, IsOk, None};
ghost use Rattle.std.specs.Prelude.{OnErr};
ghost use Rattle.std.specs.List.{AllByRecursion};
ghost use Rattle.std.specs.Option.{is_some};
ghost use Rattle.cb_cache.specs.CacheState.{limits_of};
ghost use Rattle.cb_frame.specs.Grammar.{Fits};
ghost use Rattle.cb_outbox.specs.Messages.{message_of, messages_of};
ghost use Rattle.cb_protocol.specs.Basics.{max_number};
ghost use Rattle.cb_protocol.specs.World.{ClientCalls, Opening, Restart as RestartEvent, new_world};
ghost use Rattle.cb_schedule.specs.ByWorld.{Answers, Delivers, Replies, StaysOne};
ghost use Rattle.cb_client.specs.ByTable.{IsRefusal};
ghost use Rattle.cb_client.specs.ClientState.{new_state};
ghost use Rattle.cb_client.specs.FramesTaken.{brings_page, room_to_take};
ghost use Rattle.cb_schedule.specs.WorldClientsState.{AreWorldClients, Represents};
ghost use Rattle.cb_schedule.specs.WorldClientsState.{client_at, first_clients};
ghost use Rattle.cb_schedule.specs.WorldClientsState.{with_client};
ghost use Rattle.cb_transcript.specs.ProtocolEvents.{call_of, word_of};

use crate::calling::{answer, deliver};
use crate::reply::Reply;
use cb_client::Client;
use cb_frame::Frame;
use cb_page::{ClientNo, Incarnation, Limits};
use cb_transcript::{AnswerWord, Call, Refusal};
use cb_twoq::Chooser;
use std::alloc::{AllocError, Global};
use std::marker::Model;

/// The clients of a world, each at its present incarnation.
pub struct WorldClients<Q: Chooser> {
    limits: Limits,
    clients: Vec<Client<Q>>,
}

// By hand: see docs/PROVING.md, "Drops".
impl<Q: Chooser> Drop for WorldClients<Q> {
    fn drop(self) {
        let WorldClients {
            limits: _,
            clients: _,
        } = self;
    }
}

impl<Q: Chooser> Model for WorldClients<Q> {
    ghost use Rattle.cb_schedule.specs.WorldClientsState.{AreWorldClients, WorldClientsState};

    ghost Value = { WorldClientsState };

    ghost view = { λ world_clients. record {
      limits = world_clients.limits;
      clients = world_clients.clients.items;
    } };

    ghost invariant = { λ world_clients. AreWorldClients (record {
      limits = world_clients.limits;
      clients = world_clients.clients.items;
    }) };
}

impl<Q: Chooser> WorldClients<Q> {
    /// The clients of these limits, each at the start of its first incarnation. `AllocError` only
    /// if memory was refused.
    pub fn new(alloc: Global, limits: &Limits) -> Result<WorldClients<Q>, AllocError>
        ensures limits { IfOk result (λ world_clients. world_clients.limits ≡ limits.now) }
        ensures opening { IfOk result (λ world_clients. (opening : Opening)
            → Represents world_clients (new_world (limits_of limits.now) opening)) }
    {
        // The limits are in range by their type: each call on them says so.
        let _known = limits.clients();
        let clients = new_clients(alloc, limits)?;
        Ok(WorldClients {
            limits: *limits,
            clients,
        })
    }

    /// The limits of the world.
    pub fn limits(&self) -> &Limits
        ensures value { result.now ≡ self.now.limits }
        ensures arose { AreWorldClients self.now }
    {
        &self.limits
    }

    /// The client of that number, at its present incarnation. `None` if there is none.
    pub fn client(&self, client: ClientNo) -> Option<&Client<Q>>
        ensures value { IfSome result (λ found. found.now ≡ client_at self.now client) }
        ensures there { is_some result ≡ true ↔ client < self.now.limits.clients }
    {
        if !self.limits.has_client(client.get()) {
            return None;
        }
        Some(&self.clients[client.index()])
    }

    /// Calls the client of that number, if there is one. `AllocError` only if memory was refused
    /// for a call that the client's table accepts. The client may have changed then.
    pub fn call(
        &mut self,
        alloc: Global,
        client: ClientNo,
        call: &Call,
    ) -> Result<Reply, AllocError>
        ensures ok { IfOk result (λ reply. Answers self.old (ClientCalls client (call_of call.now))
            (word_of reply.word) (messages_of reply.said.items) self.new) }
        ensures fits { IfOk result (λ reply.
            AllByRecursion (Fits self.old.limits) reply.said.items) }
        ensures limits { self.new.limits ≡ self.old.limits }
        ensures fails { OnErr result ((client < self.old.limits.clients)
            × IsRefusal (client_at self.old client) (call_of call.now) None) }
    {
        if !self.limits.has_client(client.get()) {
            return Ok(Reply::silent(alloc, AnswerWord::NoClient));
        }
        self.call_at(alloc, client, call)
    }

    /// The same of a client that there is.
    fn call_at(&mut self, alloc: Global, client: ClientNo, call: &Call) -> Result<Reply, AllocError>
        requires { client < self.old.limits.clients }
        ensures called { IfOk result (λ reply. Replies (client_at self.old client)
            (call_of call.now) reply (client_at self.new client)) }
        ensures stays { StaysOne (client_at self.old client) (client_at self.new client) }
        ensures rest { self.new ≡ with_client self.old client (client_at self.new client) }
        ensures fails { OnErr result
            (IsRefusal (client_at self.old client) (call_of call.now) None) }
    {
        let caller = &mut self.clients[client.index()];
        answer(alloc, caller, call)
    }

    /// The client that a frame names takes it, if the frame is of its incarnation. Returns the
    /// frames that the client sends in answer. `AllocError` only if memory was refused; then
    /// nothing changes. It needs no memory, and so isn't refused, if the client sends no frames and
    /// no page comes in; at an ignored frame, for instance.
    pub fn take(&mut self, alloc: Global, frame: Frame) -> Result<Vec<Frame>, AllocError>
        requires { Fits self.old.limits frame }
        ensures ok { IfOk result (λ said. Delivers self.old (message_of frame)
            (messages_of said.items) self.new) }
        ensures fits { IfOk result (λ said. AllByRecursion (Fits self.old.limits) said.items) }
        ensures err { OnErr result (self.new ≡ self.old) }
        ensures none { room_to_take (client_at self.old frame.client) frame ≡ 0
            → brings_page (client_at self.old frame.client) frame ≡ false → IsOk result }
    {
        let taker = &mut self.clients[frame.client.index()];
        deliver(alloc, taker, frame)
    }

    /// Restarts the client of that number, at its next incarnation, if there is such a client and
    /// an incarnation is left. `AllocError` only if memory was refused for its chooser; then
    /// nothing changes. It costs the making of that chooser and [`Client::restart`].
    pub fn restart(&mut self, alloc: Global, client: ClientNo) -> Result<AnswerWord, AllocError>
        ensures ok { IfOk result (λ word. Answers self.old (RestartEvent client) (word_of word) []
            self.new) }
        ensures err { OnErr result (self.new ≡ self.old) }
        ensures fails { OnErr result ((client < self.old.limits.clients)
            × ((client_at self.old client).incarnation < max_number)) }
    {
        if !self.limits.has_client(client.get()) {
            return Ok(AnswerWord::NoClient);
        }
        let Some(next) = self.clients[client.index()].incarnation().next() else {
            return Ok(AnswerWord::Refused(Refusal::Exhausted));
        };
        let chooser = Q::make(alloc, &self.limits)?;
        let restarted = &mut self.clients[client.index()];
        restarted.restart(next, chooser);
        Ok(AnswerWord::Ok)
    }
}

/// The clients of these limits, by rising number, each at the start of its first incarnation.
fn new_clients<Q: Chooser>(alloc: Global, limits: &Limits) -> Result<Vec<Client<Q>>, AllocError>
    ensures { IfOk result (λ clients. clients.items
        ≡ first_clients limits.now limits.now.clients) }
{
    let mut clients = Vec::new(alloc);
    for number in 0..limits.clients() {
        let client = first_client(alloc, limits, ClientNo::new(number))?;
        clients.push(client)?;
    }
    Ok(clients)
}

/// The client of that number at the start of its first incarnation.
fn first_client<Q: Chooser>(
    alloc: Global,
    limits: &Limits,
    number: ClientNo,
) -> Result<Client<Q>, AllocError>
    requires { number < limits.now.clients }
    ensures { IfOk result (λ client. client ≡ new_state number 1 limits.now) }
{
    let chooser = Q::make(alloc, limits)?;
    Client::new(alloc, number, Incarnation::new(1), limits, chooser)
}
