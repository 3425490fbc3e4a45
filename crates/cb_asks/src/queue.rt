//! The queue of a page.
ghost use Rattle.std.specs.Prelude.{◌≡◌, ◌≢◌, ◌++◌, ◌∷◌, [], ◌<◌, ◌≤◌, ◌+◌, ℕ, length, OnErr};
ghost use Rattle.std.specs.Prelude.{MatchOption, OnOk};
ghost use Rattle.cb_protocol.specs.Deadlock.{ask_count};
ghost use Rattle.cb_protocol.specs.Server.{after_first, set_called_back};
ghost use Rattle.cb_protocol.specs.Server.{set_downgrade_sent, without_client};
ghost use Rattle.cb_protocol.specs.ServerMessages.{is_empty, new_ask};
ghost use Rattle.std.specs.Option.{option_map};
ghost use Rattle.cb_asks.specs.Entries.{ask_of_entry, asks_of};
ghost use Rattle.cb_asks.specs.Maps.{HasRoom, used};
ghost use Rattle.cb_asks.specs.Queues.{ask_by, client_at, waiting_ask};

use crate::key::Key;
use crate::spare::Spare;
use cb_page::{ClientNo, GrantNo, TxnNo};
use indexmap::IndexMap;
use std::alloc::AllocError;
use std::marker::Model;

/// An ask that waits.
#[derive(Clone, Copy)]
pub struct Waiting {
    pub client: ClientNo,
    /// The grant of the copy that it asks to write; `None`: it asks to read.
    pub write_grant: Option<GrantNo>,
    /// Whether the Callbacks for it were sent.
    pub called_back: bool,
    /// The tag of the last permission for which a Downgrade was sent for it.
    pub downgrade_sent: Option<TxnNo>,
}

/// What a queue keeps of an ask beside its client.
#[derive(Clone, Copy)]
pub(crate) struct Entry {
    pub(crate) write_grant: Option<GrantNo>,
    pub(crate) called_back: bool,
    pub(crate) downgrade_sent: Option<TxnNo>,
}

impl Entry {
    /// The ask, with its client.
    fn of(self, client: ClientNo) -> Waiting
        ensures { waiting_ask result ≡ ask_of_entry (client, self) }
    {
        Waiting {
            client,
            write_grant: self.write_grant,
            called_back: self.called_back,
            downgrade_sent: self.downgrade_sent,
        }
    }
}

/// The asks for one page, in order of arrival. Looking at the first one always costs the same;
/// taking one out shifts those behind it.
#[derive(Drop)]
pub struct Queue {
    /// By client. `None`: nobody waits.
    entries: Option<Box<IndexMap<Key, Entry>>>,
}

impl Model for Queue {
    ghost use Rattle.cb_asks.specs.Queues.{QueueState};
    ghost use Rattle.cb_asks.specs.Maps.{IsKept, asks_in, room_in};

    ghost Value = { QueueState };

    ghost view = { λ q. record { asks = asks_in q.entries; room = room_in q.entries } };

    ghost invariant = { λ q. IsKept q.entries };
}

impl Queue {
    /// Nobody waits. It takes no memory.
    pub(crate) fn new() -> Queue
        ensures { result.asks ≡ [] }
    {
        Queue { entries: None }
    }

    /// How many wait.
    pub fn len(&self) -> usize
        ensures { result ≡ length self.now.asks }
    {
        match &self.entries {
            Some(entries) => entries.len(),
            None => 0,
        }
    }

    /// Whether nobody waits.
    pub fn is_empty(&self) -> bool
        ensures { result ≡ is_empty self.now.asks }
    {
        self.entries.is_none()
    }

    /// The first ask.
    pub fn first(&self) -> Option<Waiting>
        ensures { MatchOption result (self.now.asks ≡ [])
            (λ first. self.now.asks ≡ waiting_ask first ∷ after_first self.now.asks) }
    {
        let Some(entries) = &self.entries else {
            return None;
        };
        let (key, entry) = entries.first()?;
        Some(entry.of(key.client()))
    }

    /// The client whose ask is at that place of the queue, counted from 0.
    pub fn client_at(&self, place: usize) -> Option<ClientNo>
        ensures { result ≡ client_at self.now.asks place }
    {
        let Some(entries) = &self.entries else {
            return None;
        };
        let (key, _) = entries.get_index(place)?;
        Some(key.client())
    }

    /// The client's ask.
    pub fn ask_of(&self, client: ClientNo) -> Option<Waiting>
        ensures { option_map waiting_ask result ≡ ask_by client self.now.asks }
    {
        let Some(entries) = &self.entries else {
            return None;
        };
        let entry = entries.get(&Key::of(client))?;
        Some(entry.of(client))
    }

    /// Makes room for one more ask. If nobody waits there is room.
    ///
    /// `AllocError` only if memory was refused, so never if there is room.
    pub(crate) fn reserve(&mut self) -> Result<(), AllocError>
        ensures asks { self.new.asks ≡ self.old.asks }
        ensures kept { self.old.room ≤ self.new.room }
        ensures ok { OnOk result (0 < self.new.room) }
        ensures err { OnErr result (self.old.asks ≢ []) }
        ensures full { OnErr result (self.old.room ≡ 0) }
    {
        let Some(entries) = &mut self.entries else {
            return Ok(());
        };
        entries.reserve(1)
    }

    /// An ask of a client goes to the end: of a spare map if nobody waits.
    pub(crate) fn enter(
        &mut self,
        spare: &mut Spare,
        client: ClientNo,
        write_grant: Option<GrantNo>,
    )
        requires room { 0 < self.old.room }
        requires spare { self.old.asks ≡ [] → 0 < spare.old }
        requires new { ask_count client self.old.asks ≡ 0 }
        ensures asks { self.new.asks ≡ self.old.asks ++ new_ask client write_grant ∷ [] }
        ensures maps { used self.new.asks + spare.new ≡ used self.old.asks + spare.old }
    {
        let mut entries = self.take_map(spare);
        let entry = Entry {
            write_grant,
            called_back: false,
            downgrade_sent: None,
        };
        match entries.insert(Key::of(client), entry) {
            Ok(_) => {}
            Err(_) => unreachable!(),
        }
        self.entries = Some(entries);
    }

    /// The queue's map, or a spare one if it has none.
    #[tactic(auto, using(crate::proofs::Maps::used_some, crate::proofs::Maps::room_some))]
    fn take_map(&mut self, spare: &mut Spare) -> Box<IndexMap<Key, Entry>>
        requires room { 0 < self.old.room }
        requires spare { self.old.asks ≡ [] → 0 < spare.old }
        ensures asks { asks_of result.value.entries ≡ self.old.asks }
        ensures room { HasRoom result }
        ensures maps { 1 + spare.new ≡ used self.old.asks + spare.old }
    {
        match self.entries.take() {
            Some(entries) => entries,
            None => spare.take(),
        }
    }

    /// The first ask leaves; with the last one the map is a spare one again.
    pub(crate) fn leave(&mut self, spare: &mut Spare) -> Option<Waiting>
        requires { used self.old.asks + spare.old ≤ 32 }
        ensures first { MatchOption result (self.old.asks ≡ [])
            (λ first. self.old.asks ≡ waiting_ask first ∷ after_first self.old.asks) }
        ensures asks { self.new.asks ≡ after_first self.old.asks }
        ensures room { self.old.room ≤ self.new.room }
        ensures maps { used self.new.asks + spare.new ≡ used self.old.asks + spare.old }
    {
        if self.len() == 1 {
            let first = self.first();
            self.close(spare);
            return first;
        }
        let Some(entries) = &mut self.entries else {
            return None;
        };
        let (key, entry) = entries.shift_remove_index(0)?;
        Some(entry.of(key.client()))
    }

    /// The ask of a client goes, wherever it stands; with the last one the map is a spare one
    /// again.
    pub(crate) fn remove(&mut self, spare: &mut Spare, client: ClientNo) -> Option<Waiting>
        requires { used self.old.asks + spare.old ≤ 32 }
        ensures ask { option_map waiting_ask result ≡ ask_by client self.old.asks }
        ensures asks { ask_count client self.old.asks ≤ 1
            → self.new.asks ≡ without_client client self.old.asks }
        ensures room { self.old.room ≤ self.new.room }
        ensures maps { used self.new.asks + spare.new ≡ used self.old.asks + spare.old }
    {
        if self.len() == 1 {
            let ask = self.ask_of(client)?;
            self.close(spare);
            return Some(ask);
        }
        let Some(entries) = &mut self.entries else {
            return None;
        };
        let entry = entries.shift_remove(&Key::of(client))?;
        Some(entry.of(client))
    }

    /// The only ask goes, and the map is a spare one again.
    #[tactic(auto, using(crate::proofs::Maps::used_some, crate::proofs::Maps::room_most))]
    fn close(&mut self, spare: &mut Spare)
        requires some { used self.old.asks ≡ 1 }
        requires few { spare.old < 32 }
        ensures asks { self.new.asks ≡ [] }
        ensures room { self.old.room ≤ self.new.room }
        ensures maps { spare.new ≡ spare.old + 1 }
    {
        if let Some(entries) = self.entries.take() {
            spare.put(entries);
        }
    }

    /// The Callbacks for the first ask were sent.
    pub(crate) fn mark_called_back(&mut self)
        ensures asks { self.new.asks ≡ set_called_back self.old.asks }
        ensures room { self.new.room ≡ self.old.room }
    {
        let Some(entries) = &mut self.entries else {
            return;
        };
        let Some(entry) = entries.first_mut() else {
            return;
        };
        entry.called_back = true;
    }

    /// A Downgrade of the permission with that tag was sent for the first ask.
    pub(crate) fn mark_downgrade_sent(&mut self, tag: TxnNo)
        ensures asks { self.new.asks ≡ set_downgrade_sent tag self.old.asks }
        ensures room { self.new.room ≡ self.old.room }
    {
        let Some(entries) = &mut self.entries else {
            return;
        };
        let Some(entry) = entries.first_mut() else {
            return;
        };
        entry.downgrade_sent = Some(tag);
    }
}
