//! What a server has, with the view of who waits for whom.
ghost use Rattle.std.specs.Prelude.{◌≡◌, ◌≤◌, IfOk};
ghost use Rattle.cb_asks.specs.Asks.{asks_below};
ghost use Rattle.cb_commit.specs.History.{begun};
ghost use Rattle.cb_commit.specs.Stores.{IsOf};
ghost use Rattle.cb_protocol.specs.Server.{ForgetTransaction, after_server_step, new_server};
ghost use Rattle.cb_protocol.specs.ServerMessages.{has_waiting_ask, read_asks_below};
ghost use Rattle.cb_protocol.specs.WaitsFor.{on_cycle};
ghost use Rattle.cb_protocol.specs.World.{opening_store};
ghost use Rattle.cb_server_state.specs.States.{AreOf, PartsAgree, limits_of, opening_of, server_of};
ghost use Rattle.cb_waits.specs.Follows.{Follows};

mod again;
mod anew;
mod changes;
mod deciding;
mod ends;
mod numbers;
mod settling;

use cb_commit::Store;
use cb_page::{ClientNo, Limits};
use cb_server_state::ServerState;
use cb_waits::{View, closes_cycle, waits_by_place};
use std::alloc::{AllocError, Global};
use std::marker::Model;

/// What a page server knows, and who waits for whom.
pub struct Callbacks {
    state: ServerState,
    view: View,
}

// By hand: see docs/PROVING.md, "Drops".
impl Drop for Callbacks {
    fn drop(self) {
        let Callbacks { state: _, view: _ } = self;
    }
}

impl Model for Callbacks {
    ghost use Rattle.cb_callbacks.specs.Callbacks.{AreCallbacks, CallbacksState};

    ghost Value = { CallbacksState };

    ghost view = { λ c. record { state = c.state; view = c.view } };

    ghost invariant = { λ c. AreCallbacks (record { state = c.state; view = c.view }) };
}

impl Callbacks {
    /// No client is known, and nobody waits.
    ///
    /// The store isn't copied. `AllocError` only if memory was refused.
    pub fn new(alloc: Global, limits: &Limits, store: Store) -> Result<Callbacks, AllocError>
        requires { IsOf limits.now store }
        ensures server { IfOk result (λ callbacks. server_of callbacks.state
            ≡ new_server limits.now.clients limits.now.pages
            (opening_store (limits_of limits.now) (opening_of store))) }
        ensures of { IfOk result (λ callbacks. AreOf limits.now callbacks.state) }
        ensures commits { IfOk result (λ callbacks.
            callbacks.state.commits ≡ begun store) }
    {
        // At most 32 clients, by its type.
        let _known = limits.clients();
        Ok(Callbacks {
            state: ServerState::new(alloc, limits, store)?,
            view: View::nobody(),
        })
    }

    /// What the server knows of its clients and pages, who waits, and who uses a page.
    pub fn state(&self) -> &ServerState
        ensures value { result.now ≡ self.now.state }
        ensures agree { PartsAgree result.now }
    {
        &self.state
    }

    /// Who waits for whom, as it is kept.
    pub fn kept_view(&self) -> &View
        ensures { Follows result.now (server_of self.now.state) }
    {
        &self.view
    }

    /// Whether the client waits, in one or more steps, for itself.
    pub fn closes_cycle(&self, client: ClientNo) -> bool
        ensures { result ≡ on_cycle (server_of self.now.state) client }
    {
        // The law that the view's cycles are the protocol's.
        waits_by_place();
        closes_cycle(&self.view, client)
    }

    /// Whether an ask of the client waits, at any page.
    pub fn waits(&self, client: ClientNo) -> bool
        ensures { result ≡ has_waiting_ask (server_of self.now.state) client
            (server_of self.now.state).pages }
    {
        self.state.asks.waits_at(client).is_some()
    }

    /// How many asks wait.
    pub fn waiting_asks(&self) -> usize
        ensures asks { result ≡ asks_below (server_of self.now.state)
            (server_of self.now.state).pages }
        ensures few { result ≤ 32 }
    {
        self.state.asks.waiting_asks()
    }

    /// How many asks to read wait.
    pub fn read_asks(&self) -> usize
        ensures reads { result ≡ read_asks_below (server_of self.now.state)
            (server_of self.now.state).pages }
        ensures few { result ≤ 32 }
    {
        self.state.asks.read_asks()
    }

    /// How many asks to read would wait once a later transaction of the client has begun, which
    /// removes the client's own ask.
    pub fn read_asks_of_others(&self, client: ClientNo) -> usize
        ensures { result ≡ read_asks_below
            (after_server_step (server_of self.now.state) (ForgetTransaction client))
            (server_of self.now.state).pages }
    {
        self.state.asks.read_asks_of_others(client)
    }
}
