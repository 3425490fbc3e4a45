//! What is to be sent to each client, in order.
ghost use Rattle.std.specs.Prelude.{◌≡◌, ◌≢◌, ◌↔◌, ℕ, ◌<◌, ◌≤◌, [], drop, length, replicate};
ghost use Rattle.std.specs.Prelude.{reverse, slice_get, slice_index_or, slice_set, IfOk, IsTrue};
ghost use Rattle.std.specs.Prelude.{◌||◌, OnErr, OnOk, true};
ghost use Rattle.std.specs.List.{All, list_any};
ghost use Rattle.cb_mailboxes.specs.Mailboxes.{AsBefore, IsNobody, Places, current_in, is_for};
ghost use Rattle.cb_mailboxes.specs.Mailboxes.{is_said_to, mailbox_in};
ghost use Rattle.cb_page.specs.Clients.{has, with, without};
ghost use Rattle.cb_server_state.specs.States.{server_of};

use crate::mailbox::Mailbox;
use cb_frame::Frame;
use cb_links::Admission;
use cb_page::{ClientNo, ClientSet};
use cb_server_state::ServerState;
use std::alloc::{AllocError, Global};
use std::marker::Model;

/// A mailbox for each client, first in first out, and what was said last, which is put into them
/// before anything else is said. And who is to be told that there is something for it.
///
/// So a step of the server, which can't be taken back, needs no room here: the room for what it
/// says is taken by the next call.
#[derive(Drop)]
pub(crate) struct Mailboxes {
    boxes: Vec<Mailbox>,
    /// What was said last, the newest first.
    late: Vec<Frame>,
    /// To whom something was said since it was told.
    untold: ClientSet,
}

impl Model for Mailboxes {
    ghost use Rattle.std.specs.Prelude.{◌<◌, length};
    ghost use Rattle.std.specs.List.{All};
    ghost use Rattle.cb_mailboxes.specs.Mailboxes.{MailboxesState};

    ghost Value = { MailboxesState };

    ghost view = { λ o. record {
      boxes = o.boxes.items;
      late = o.late.items;
      untold = o.untold;
    } };

    ghost invariant = { λ o. All (λ frame. frame.client < length o.boxes.items) o.late.items };
}

impl Mailboxes {
    /// Nothing is to be sent, and nobody is to be told.
    pub(crate) fn new(alloc: Global, clients: u16) -> Result<Mailboxes, AllocError>
        ensures empty { IfOk result (λ o. o ≡ record {
          boxes = replicate clients [];
          late = [];
          untold = o.untold;
        }) }
        ensures nobody { IfOk result (λ o. IsNobody o.untold) }
    {
        Ok(Mailboxes {
            boxes: empty_mailboxes(alloc, clients)?,
            late: Vec::new(alloc),
            untold: ClientSet::empty(),
        })
    }

    /// Puts what was said last into the mailboxes: to each client what is for its current
    /// incarnation.
    ///
    /// `AllocError` only if memory was refused: some of it may still be late.
    pub(crate) fn make_ready(&mut self, state: &ServerState) -> Result<(), AllocError>
        requires { length self.old.boxes ≤ length state.now.sessions }
        ensures as_before { AsBefore (current_in (server_of state.now)) self.old self.new }
        ensures ready { OnOk result (self.new.late ≡ []) }
    {
        while self.place_next(state)? {}
        Ok(())
    }

    /// Puts the oldest of the late frames into its mailbox, if it is for its client's current
    /// incarnation; `false` if none is late.
    fn place_next(&mut self, state: &ServerState) -> Result<bool, AllocError>
        requires { length self.old.boxes ≤ length state.now.sessions }
        ensures as_before { AsBefore (current_in (server_of state.now)) self.old self.new }
        ensures ok { IfOk result (Places self.old.late self.new.late) }
    {
        let Some(last) = self.late.as_slice().last() else {
            return Ok(false);
        };
        let client = last.client;
        match state.admission(client, last.incarnation) {
            Admission::Current => self.boxes[client.index()].take_last(&mut self.late)?,
            Admission::Stale | Admission::Unknown => self.late.truncate(self.late.len() - 1),
        }
        Ok(true)
    }

    /// Whether a frame is to be sent to that client.
    pub(crate) fn has_frame_for(&self, state: &ServerState, client: ClientNo) -> bool
        requires client { client < length self.now.boxes }
        requires clients { length self.now.boxes ≤ length state.now.sessions }
        ensures { IsTrue result
            ↔ (mailbox_in (current_in (server_of state.now)) self.now client ≢ []) }
    {
        !self.boxes[client.index()].is_empty() || self.has_late(state, client)
    }

    /// Whether a late frame is for that client's current incarnation.
    fn has_late(&self, state: &ServerState, client: ClientNo) -> bool
        requires { client < length state.now.sessions }
        ensures { result ≡ list_any (is_for (current_in (server_of state.now)) client)
            self.now.late }
    {
        // No incarnation is 0.
        let current = match state.sessions.session(client).incarnation {
            Some(incarnation) => incarnation.get(),
            None => 0,
        };
        self.late.iter().any(|frame| frame.client == client && frame.incarnation.get() == current)
    }

    /// What is said is to be sent, and to whom it is said is to be told; nothing may be late.
    pub(crate) fn put(&mut self, said: Vec<Frame>)
        requires ready { self.old.late ≡ [] }
        requires clients { All (λ frame. frame.client < length self.old.boxes) said.items }
        ensures boxes { self.new.boxes ≡ self.old.boxes }
        ensures late { self.new.late ≡ reverse said.items }
        ensures untold { (client : ℕ) → has self.new.untold client
            ≡ (has self.old.untold client || is_said_to client said.items) }
    {
        self.untold = self.untold.union(clients_of(said.as_slice()));
        let mut late = said;
        late.reverse();
        self.late = late;
    }

    /// Who is to be told.
    pub(crate) fn untold(&self) -> ClientSet
        ensures { result ≡ self.now.untold }
    {
        self.untold
    }

    /// Notes that the client is to be told too.
    pub(crate) fn notice(&mut self, client: ClientNo)
        ensures rest { self.new ≡ record self.old { untold = self.new.untold } }
        ensures noticed { (other : ℕ) → has self.new.untold other
            ≡ with self.old.untold client other }
    {
        self.untold.insert(client);
    }

    /// Notes that everybody is to be told.
    pub(crate) fn notice_all(&mut self)
        ensures rest { self.new ≡ record self.old { untold = self.new.untold } }
        ensures all { (client : ℕ) → client < 32 → has self.new.untold client ≡ true }
    {
        self.untold = everybody();
    }

    /// The client was told.
    pub(crate) fn told(&mut self, client: ClientNo)
        ensures rest { self.new ≡ record self.old { untold = self.new.untold } }
        ensures told { (other : ℕ) → has self.new.untold other
            ≡ without self.old.untold client other }
    {
        self.untold.remove(client);
    }

    /// Takes the oldest frame to that client; nothing may be late.
    pub(crate) fn collect(&mut self, client: ClientNo) -> Option<Frame>
        requires { client < length self.old.boxes }
        ensures oldest { result ≡ slice_get (slice_index_or self.old.boxes client []) 0 }
        ensures rest { self.new ≡ record self.old {
          boxes = slice_set self.old.boxes client
              (drop 1 (slice_index_or self.old.boxes client []));
        } }
    {
        self.boxes[client.index()].pop()
    }

    /// Nothing is to be sent to that client any more; nothing may be late.
    pub(crate) fn clear(&mut self, client: ClientNo)
        requires { client < length self.old.boxes }
        ensures { self.new ≡ record self.old { boxes = slice_set self.old.boxes client [] } }
    {
        self.boxes[client.index()].clear();
    }
}

fn empty_mailboxes(alloc: Global, clients: u16) -> Result<Vec<Mailbox>, AllocError>
    ensures { IfOk result (λ mailboxes. mailboxes.items ≡ replicate clients []) }
{
    let mut mailboxes = Vec::new(alloc);
    for _client in 0..clients {
        mailboxes.push(Mailbox::new(alloc))?;
    }
    Ok(mailboxes)
}

/// To whom these frames are.
fn clients_of(frames: &[Frame]) -> ClientSet
    ensures { (client : ℕ) → has result client ≡ is_said_to client frames.now }
{
    let mut clients = ClientSet::empty();
    for frame in frames {
        clients.insert(frame.client);
    }
    clients
}

/// All clients that there may be.
fn everybody() -> ClientSet
    ensures { (client : ℕ) → client < 32 → has result client ≡ true }
{
    let mut clients = ClientSet::empty();
    for client in 0..32 {
        clients.insert(ClientNo::new(client));
    }
    clients
}
