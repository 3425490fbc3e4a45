//! Where each client's ask waits.
ghost use Rattle.std.specs.Prelude.{◌≡◌, ◌≤◌, ◌<◌, ◌+◌, true, None, Some};
ghost use Rattle.cb_asks.specs.Places.{IsNew, Puts, place_of};
ghost use Rattle.cb_asks.specs.Sums.{one_if};

use cb_page::{ClientNo, ClientSet, PageNo};
use std::marker::Model;

/// Where each client's ask waits, and how many asks are to read.
#[derive(Drop)]
pub(crate) struct Places {
    at: [Option<PageNo>; 32],
    /// The clients whose asks wait.
    waiting: ClientSet,
    /// How many of the asks are to read.
    reads: usize,
}

impl Model for Places {
    ghost use Rattle.cb_asks.specs.Places.{PlacesState};

    ghost Value = { PlacesState };

    ghost view = { λ p. record { at = p.at; waiting = p.waiting; reads = p.reads } };
}

impl Places {
    /// Nobody asks.
    pub(crate) fn new() -> Places
        ensures { IsNew result }
    {
        Places {
            at: [None; 32],
            waiting: ClientSet::empty(),
            reads: 0,
        }
    }

    /// The page at which the client's ask waits.
    pub(crate) fn get(&self, client: ClientNo) -> Option<PageNo>
        ensures { result ≡ place_of self.now client }
    {
        self.at[client.index()]
    }

    /// The clients whose asks wait.
    pub(crate) fn waiting(&self) -> ClientSet
        ensures { result ≡ self.now.waiting }
    {
        self.waiting
    }

    /// How many of the asks are to read.
    pub(crate) fn reads(&self) -> usize
        ensures { result ≡ self.now.reads }
    {
        self.reads
    }

    /// The client's ask waits at this page from now on.
    pub(crate) fn enter(&mut self, client: ClientNo, page: PageNo, is_read: bool)
        requires { self.old.reads ≤ 32 }
        ensures places { Puts self.old client (Some page) self.new }
        ensures reads { self.new.reads ≡ self.old.reads + one_if is_read }
        ensures known { client < 32 }
    {
        self.at[client.index()] = Some(page);
        self.waiting.insert(client);
        if is_read {
            self.reads += 1;
        }
    }

    /// The client's ask waits nowhere.
    pub(crate) fn leave(&mut self, client: ClientNo, is_read: bool)
        requires { is_read ≡ true → 0 < self.old.reads }
        ensures places { Puts self.old client None self.new }
        ensures reads { self.old.reads ≡ self.new.reads + one_if is_read }
    {
        self.at[client.index()] = None;
        self.waiting.remove(client);
        if is_read {
            self.reads -= 1;
        }
    }
}
