//! The type, its opening, and what it shows.
ghost use Rattle.std.specs.Prelude.{◌≡◌, ℕ, ◌<◌, ◌&&◌, List, [], IfOk, IsTrue};
ghost use Rattle.std.specs.Option.{is_some};
ghost use Rattle.cb_page.specs.Flags.{has};
ghost use Rattle.cb_protocol.specs.Cache.{is_open};
ghost use Rattle.cb_protocol.specs.Client.{client_status, new_client};
ghost use Rattle.cb_cache.specs.CacheState.{content_at, copy_at};
ghost use Rattle.cb_client.specs.CallAnswers.{held_copy};
ghost use Rattle.cb_twoq.specs.Pages.{has as on};
ghost use Rattle.cb_twoq.specs.Calls.{IsLed};
ghost use Rattle.cb_protocol.specs.Serial.{Operation};
ghost use Rattle.cb_client_core.specs.ClientState.{IsClient, client_of, new_state, outcome_of};
ghost use Rattle.cb_client_core.specs.ClientState.{status_of};

mod again;
mod calls;
mod ends;
mod finish;
mod taking;

use cb_cache::Cache;
use cb_client_core::{ClientCore, ClientStatus, Outcome, PendingAsk, Stage};
use cb_locks::ReadLocks;
use cb_page::{ClientNo, GrantNo, Incarnation, Limits, PageNo, PageSet, Version};
use cb_twoq::Chooser;
use std::alloc::{AllocError, Global};
use std::marker::Model;

/// One incarnation of a client over any pool; `restart` begins another one. `new`, `finish`,
/// `commit_frame`, `commit_again`, `drop_txn`, `take`, `take_owned`, `take_bytes` and `again` take
/// memory; no other call does.
pub struct Client<Q: Chooser> {
    core: ClientCore<Q>,
}

// By hand: see docs/PROVING.md, "Drops".
impl<Q: Chooser> Drop for Client<Q> {
    fn drop(self) {
        let Client { core: _ } = self;
    }
}

impl<Q: Chooser> Model for Client<Q> {
    ghost use Rattle.cb_client_core.specs.ClientState.{ClientState, IsClient};
    ghost use Rattle.cb_client_core.specs.Parts.{client_in};

    ghost Value = { ClientState };

    ghost view = { λ client. client_in client.core };

    ghost invariant = { λ client. IsClient (client_in client.core) };
}

impl<Q: Chooser> Client<Q> {
    /// A client at the start of an incarnation, with an empty chooser that has as many slots as the
    /// limits say. `AllocError` only if memory was refused.
    pub fn new(
        alloc: Global,
        no: ClientNo,
        incarnation: Incarnation,
        limits: &Limits,
        chooser: Q,
    ) -> Result<Client<Q>, AllocError>
        requires client { no < limits.now.clients }
        requires members { Q.members chooser ≡ [] }
        requires slots { Q.slots chooser ≡ limits.now.slots }
        ensures state { IfOk result (λ client. client ≡ new_state no incarnation limits.now) }
        ensures by_table { IfOk result (λ client. client_of client [] ≡ new_client) }
    {
        // In range by its type: `get` says so.
        let _known = incarnation.get();
        let locks = ReadLocks::new(alloc, no, incarnation, limits)?;
        let copies = Cache::new(alloc, chooser, limits)?;
        Ok(Client {
            core: ClientCore {
                no,
                incarnation,
                welcomed: false,
                txn: None,
                stage: Stage::Idle,
                ask: PendingAsk::Nothing,
                dropped: None,
                last: None,
                copies,
                locks,
            },
        })
    }

    /// The client at the start of a later incarnation, over an empty chooser of as many slots as
    /// before. Nothing is left of the one that ended.
    ///
    /// It takes no memory, and costs what that one touched: what [`Cache::restart`] says of its
    /// copies, and [`ReadLocks`] of the pages due.
    pub fn restart(&mut self, incarnation: Incarnation, chooser: Q)
        requires members { Q.members chooser ≡ [] }
        requires slots { Q.slots chooser ≡ self.old.copies.limits.slots }
        requires later { self.old.incarnation < incarnation }
        ensures state { self.new ≡ new_state self.old.no incarnation self.old.copies.limits }
        ensures by_table { client_of self.new [] ≡ new_client }
    {
        // In range by its type: `get` says so.
        let _known = incarnation.get();
        self.core.incarnation = incarnation;
        self.core.welcomed = false;
        self.core.txn = None;
        self.core.stage = Stage::Idle;
        self.core.ask = PendingAsk::Nothing;
        self.core.dropped = None;
        self.core.last = None;
        self.core.copies.restart(chooser);
        self.core.locks.restart(incarnation);
    }

    /// Its incarnation.
    pub fn incarnation(&self) -> Incarnation
        ensures { result ≡ self.now.incarnation }
    {
        self.core.incarnation
    }

    /// The limits of its store and its pool. A clause says that the client arose by the protocol's
    /// steps, whatever was called and received before. The laws of every client therefore hold of
    /// it.
    pub fn limits(&self) -> &Limits
        ensures value { result.now ≡ self.now.copies.limits }
        ensures arose { IsClient self.now }
    {
        self.core.copies.limits()
    }

    /// Lends the pool's chooser, whose members are the pages of which `peek` has the bytes. The
    /// calls in the pool's history made it, from a chooser with no members. Its references are
    /// those of the client.
    pub fn chooser(&self) -> &Q
        ensures members { (page : ℕ) → on (Q.members result.now) page
            ≡ is_some (content_at self.now.copies page) }
        ensures led { IsLed Q.Chooser self.now.copies.pool.slots self.now.copies.pool.calls
            result.now }
    {
        self.core.copies.chooser()
    }

    /// Whether the client may write the page in the transaction that is open.
    pub fn may_write(&self, page: PageNo) -> bool
        ensures value { (operations : List Operation)
            → result ≡ (is_open (client_of self.now operations).cache.status
            && (client_of self.now operations).cache.may_write page) }
        ensures held { IsTrue result → IsTrue (is_some (copy_at self.now.copies page).held) }
    {
        // What holds of all copies, `limits` says: a permission is of a copy that is held.
        let _known = self.core.copies.limits();
        self.core.stage.is_open() && self.core.copies.may_write(page)
    }

    /// The grant of the client's copy of a page and the copy's version. `None` if it holds none, or
    /// there is no such page.
    pub fn held(&self, page: PageNo) -> Option<(GrantNo, Version)>
        ensures { result ≡ held_copy self.now page }
    {
        // What is kept of each page, `limits` says.
        if !self.core.copies.limits().has_page(page.get()) {
            return None;
        }
        let copy = self.core.copies.at(page);
        match copy.held {
            Some(grant) => Some((grant, copy.version)),
            None => None,
        }
    }

    /// What the client reports about itself.
    pub fn status(&self) -> ClientStatus
        ensures { (operations : List Operation)
            → status_of result ≡ client_status (client_of self.now operations) }
    {
        if !self.core.welcomed {
            return ClientStatus::NotWelcome;
        }
        match (self.core.stage, self.core.ask) {
            (Stage::Idle, _) => ClientStatus::Idle,
            (Stage::Committing, _) => ClientStatus::Committing,
            (Stage::Open, PendingAsk::Nothing) => ClientStatus::Open,
            (Stage::Open, _) => ClientStatus::Waiting,
        }
    }

    /// How the last transaction ended; `None` before the first one did.
    pub fn last(&self) -> Option<Outcome>
        ensures { (operations : List Operation)
            → outcome_of result ≡ (client_of self.now operations).last_outcome }
    {
        self.core.last
    }

    /// The pages that the open or committing transaction has read.
    pub fn locked(&self) -> &PageSet
        ensures { (operations : List Operation) (page : ℕ)
            → has result.now page ≡ (client_of self.now operations).cache.locked page }
    {
        self.core.locks.locked()
    }
}
