//! Changes at one page.
ghost use Rattle.std.specs.Prelude.{◌≡◌, ◌≢◌, ◌∷◌, ◌<◌, ◌≤◌, [], ℕ, true, false, OnErr, OnOk};
ghost use Rattle.cb_asks.specs.Asks.{room_at};
ghost use Rattle.cb_callbacks.specs.Following.{FollowsPage};
ghost use Rattle.cb_outbox.specs.Saying.{HasRoomFor, Says};
ghost use Rattle.cb_protocol.specs.Basics.{is_none, max_number};
ghost use Rattle.cb_protocol.specs.Server.{ChangeSession, EnterQueue, MarkInUse, UnmarkInUse};
ghost use Rattle.cb_protocol.specs.Server.{after_server_step};
ghost use Rattle.cb_protocol.specs.ServerMessages.{enter_queue, has_waiting_ask, new_ask};
ghost use Rattle.cb_protocol.specs.Session.{EndPermission, RemoveRow, has_live_txn};
ghost use Rattle.cb_protocol.specs.Settling.{give_permission, no_other_holder, sole_row};
ghost use Rattle.cb_protocol.specs.WaitsFor.{on_cycle};
ghost use Rattle.cb_server_state.specs.Granting.{grant_copy};
ghost use Rattle.cb_server_state.specs.States.{Does, HasClient, HasPage, IsAsLarge, PartsAgree};
ghost use Rattle.cb_server_state.specs.States.{Stays, server_of};
ghost use Rattle.cb_server_state.specs.Waits.{HasBegun, IsGreeted};

use crate::Callbacks;
use cb_outbox::Outbox;
use cb_page::{ClientNo, GrantNo, PageNo};
use cb_server_state::ServerState;
use cb_waits::View;
use std::alloc::AllocError;

impl Callbacks {
    /// The client said that its transaction uses the page.
    pub fn mark_in_use(&mut self, client: ClientNo, page: PageNo)
        requires client { HasClient self.old.state client }
        requires page { HasPage self.old.state page }
        ensures { Does self.old.state (MarkInUse client page ∷ []) self.new.state }
    {
        self.state.marks.mark(client, page);
        follow_page(&mut self.view, &self.state, page);
    }

    /// The client's copy of the page was given back, and it doesn't use the page.
    pub fn give_back(&mut self, client: ClientNo, page: PageNo)
        requires client { HasClient self.old.state client }
        requires page { HasPage self.old.state page }
        ensures { (grant : ℕ) → Does self.old.state
            (UnmarkInUse client page ∷ ChangeSession client (RemoveRow page grant) ∷ [])
            self.new.state }
    {
        self.state.marks.unmark(client, page);
        self.state.give_back(client, page);
        follow_page(&mut self.view, &self.state, page);
    }

    /// The client is not the page's write holder any more; its copy stays.
    pub fn end_permission(&mut self, client: ClientNo, page: PageNo)
        requires client { HasClient self.old.state client }
        requires page { HasPage self.old.state page }
        ensures { (grant tag : ℕ) → Does self.old.state
            (ChangeSession client (EndPermission page grant tag) ∷ []) self.new.state }
    {
        self.state.end_permission(client, page);
        follow_page(&mut self.view, &self.state, page);
    }

    /// The page's write holder is permitted again, for its last transaction, and is told so.
    pub fn permit_again(
        &mut self,
        client: ClientNo,
        page: PageNo,
        grant: GrantNo,
        outbox: &mut Outbox,
    )
        requires client { HasClient self.old.state client }
        requires page { HasPage self.old.state page }
        requires greeted { IsGreeted (server_of self.old.state) client }
        requires begun { HasBegun (server_of self.old.state) client }
        requires alone { no_other_holder ((server_of self.old.state).store.holder page) client
            ≡ true }
        requires sole { sole_row (server_of self.old.state) page client
            (server_of self.old.state).clients ≡ true }
        requires room { HasRoomFor (give_permission (server_of self.old.state) client page grant)
            outbox.old }
        ensures says { Says (server_of self.old.state)
            (λ server. give_permission server client page grant)
            (server_of self.new.state) outbox.old outbox.new }
        ensures stays { Stays self.old.state self.new.state }
    {
        self.state.give_permission(client, page, grant, outbox);
        follow_page(&mut self.view, &self.state, page);
    }

    /// The client gets a copy of a page that nobody waits for. Its ask enters no queue.
    pub fn grant(&mut self, client: ClientNo, page: PageNo, outbox: &mut Outbox)
        requires client { HasClient self.old.state client }
        requires page { HasPage self.old.state page }
        requires greeted { IsGreeted (server_of self.old.state) client }
        requires nobody { (server_of self.old.state).queue page ≡ [] }
        requires alone { no_other_holder ((server_of self.old.state).store.holder page) client
            ≡ true }
        requires no_row { is_none (((server_of self.old.state).session client).row page) ≡ true }
        requires left { (server_of self.old.state).next_grant ≤ max_number }
        requires size { IsAsLarge outbox.old self.old.state }
        requires room { HasRoomFor (grant_copy (server_of self.old.state) page client) outbox.old }
        ensures says { Says (server_of self.old.state) (λ server. grant_copy server page client)
            (server_of self.new.state) outbox.old outbox.new }
        ensures stays { Stays self.old.state self.new.state }
    {
        self.state.grant(client, page, outbox);
    }

    /// Makes room for one more ask at the page. Whether it is refused or not, nothing else changes.
    ///
    /// `AllocError` only if memory was refused. It never is if there is room, which there is if
    /// nobody waits for the page.
    pub fn reserve_ask(&mut self, page: PageNo) -> Result<(), AllocError>
        requires { HasPage self.old.state page }
        ensures changes { Does self.old.state [] self.new.state }
        ensures rest { self.new.state ≡ record self.old.state { asks = self.new.state.asks } }
        ensures ok { OnOk result (0 < room_at self.new.state.asks page) }
        ensures err { OnErr result ((server_of self.old.state).queue page ≢ []) }
        ensures full { OnErr result (room_at self.old.state.asks page ≡ 0) }
    {
        self.state.asks.reserve(page)
    }

    /// An ask of the client enters at the end of the page's queue. It is to write by that grant of
    /// the client's copy, or else to read. If it isn't first and closes a cycle, its client is
    /// doomed at once.
    pub fn enter(
        &mut self,
        client: ClientNo,
        page: PageNo,
        write_grant: Option<GrantNo>,
        outbox: &mut Outbox,
    )
        requires client { HasClient self.old.state client }
        requires page { HasPage self.old.state page }
        requires greeted { IsGreeted (server_of self.old.state) client }
        requires live { has_live_txn ((server_of self.old.state).session client) ≡ true }
        requires new { has_waiting_ask (server_of self.old.state) client
            (server_of self.old.state).pages ≡ false }
        requires place { 0 < room_at self.old.state.asks page }
        requires room { HasRoomFor (enter_queue on_cycle (server_of self.old.state) page
            (new_ask client write_grant)) outbox.old }
        ensures says { Says (server_of self.old.state)
            (λ server. enter_queue on_cycle server page (new_ask client write_grant))
            (server_of self.new.state) outbox.old outbox.new }
        ensures stays { Stays self.old.state self.new.state }
    {
        let is_first = self.state.asks.queue(page).is_empty();
        self.enter_last(client, page, write_grant);
        if !is_first && self.closes_cycle(client) {
            self.doom(client, page, outbox);
        }
    }

    /// An ask goes to the end of the queue, and the view follows.
    fn enter_last(&mut self, client: ClientNo, page: PageNo, write_grant: Option<GrantNo>)
        requires client { HasClient self.old.state client }
        requires page { HasPage self.old.state page }
        requires greeted { IsGreeted (server_of self.old.state) client }
        requires live { has_live_txn ((server_of self.old.state).session client) ≡ true }
        requires new { has_waiting_ask (server_of self.old.state) client
            (server_of self.old.state).pages ≡ false }
        requires place { 0 < room_at self.old.state.asks page }
        ensures becomes { server_of self.new.state ≡ after_server_step
            (server_of self.old.state) (EnterQueue page (new_ask client write_grant)) }
        ensures stays { Stays self.old.state self.new.state }
    {
        self.state.asks.enter(page, client, write_grant);
        follow_page(&mut self.view, &self.state, page);
    }
}

/// The view follows a page that has changed.
pub(crate) fn follow_page(view: &mut View, state: &ServerState, page: PageNo)
    requires agree { PartsAgree state.now }
    requires page { HasPage state.now page }
    ensures { FollowsPage view.old (server_of state.now) page view.new }
{
    let held_up_by = state.held_up_by(page);
    view.follow(state.asks.queue(page), held_up_by);
}
