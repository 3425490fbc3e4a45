//! Asks to read and to write.
ghost use Rattle.std.specs.Prelude.{◌≡◌, ◌==◌, ◌<◌, ◌∷◌, [], if◌then◌else◌, false, true, IfErr};
ghost use Rattle.std.specs.Prelude.{OnErr, OnOk};
ghost use Rattle.cb_protocol.specs.Messages.{AskRead, AskWrite};
ghost use Rattle.cb_protocol.specs.Server.{is_write_holder};
ghost use Rattle.cb_protocol.specs.ServerMessages.{enter_queue, has_waiting_ask, new_ask};
ghost use Rattle.cb_protocol.specs.ServerMessages.{take_ask_read, take_ask_write, take_current};
ghost use Rattle.cb_protocol.specs.Session.{has_live_txn};
ghost use Rattle.cb_protocol.specs.Settling.{give_permission, send_granted, sole_row};
ghost use Rattle.cb_protocol.specs.WaitsFor.{on_cycle};
ghost use Rattle.cb_server.specs.Answering.{CanGrant, CanSay, HasClient, HasLimits, HasPage};
ghost use Rattle.cb_server.specs.Answering.{IsCurrent, IsLeft, IsReady, IsStanding, LacksNumber};
ghost use Rattle.cb_server.specs.Answering.{Makes, Serves, answer_to, asks_in_all, is_free};
ghost use Rattle.cb_server.specs.Answering.{places_at, server_in};
ghost use Rattle.cb_server.specs.Taking.{is_exhaustion};

use crate::engine::Engine;
use crate::engine::answers::Begun;
use crate::server_fault::ServerFault;
use cb_callbacks::an_ask_sends_at_most_one;
use cb_links::Standing;
use cb_page::{ClientNo, GrantNo, Incarnation, Limits, PageNo, TxnNo};
use std::alloc::{AllocError, Global};

impl Engine {
    /// Takes an AskRead of the current incarnation. How its transaction stands, and which row the
    /// client has, is asked once, before anything changes.
    pub(crate) fn take_read(
        &mut self,
        alloc: Global,
        limits: &Limits,
        client: ClientNo,
        incarnation: Incarnation,
        txn: TxnNo,
        page: PageNo,
    ) -> Result<(), ServerFault>
        requires ready { IsReady self.old }
        requires of { HasLimits self.old limits.now }
        requires client { HasClient self.old client }
        requires page { HasPage self.old page }
        requires current { IsCurrent self.old client incarnation }
        ensures ok { OnOk result (Serves self.old
            (λ server. take_current on_cycle server client (AskRead txn page)) self.new) }
        ensures taken { OnOk result (LacksNumber self.old client (AskRead txn page) false) }
        ensures err { IfErr result (λ fault.
            LacksNumber self.old client (AskRead txn page) (is_exhaustion fault)) }
        ensures left { OnErr result (IsLeft self.old self.new) }
    {
        let state = self.callbacks.state();
        let standing = state.standing(client, txn);
        let row = state.directory.row(client, page);
        if self.callbacks.lacks_grant(client, standing, row.is_some()) {
            return Err(ServerFault::Exhausted);
        }
        // For a Downgrade or the copy, and for an AbortNow.
        let nobody_waits = self.reserve(alloc, limits, 2, 1)?;
        let at_once = self.is_free(client, page, row, nobody_waits);
        if at_once {
            return Ok(self.grant_free(client, incarnation, txn, page, standing));
        }
        self.ask_read(client, incarnation, txn, page, standing, row)?;
        self.settle();
        Ok(())
    }

    /// Whether the client's ask to read the page, of which it has that row, can be granted at once:
    /// nobody waits for any page, the client has no copy, and no other client may write the page.
    fn is_free(
        &self,
        client: ClientNo,
        page: PageNo,
        row: Option<GrantNo>,
        nobody_waits: bool,
    ) -> bool
        requires page { HasPage self.now page }
        requires row { row ≡ ((server_in self.now).session client).row page }
        requires nobody { nobody_waits ≡ (asks_in_all self.now == 0) }
        ensures { result ≡ is_free self.now client page }
    {
        nobody_waits && row.is_none() && self.callbacks.state().no_other_holder(client, page)
    }

    /// AskRead of a free page, whose transaction stands so. Its ask would enter the page's queue
    /// and be granted, and settling would find no other. So the copy is granted at once.
    fn grant_free(
        &mut self,
        client: ClientNo,
        incarnation: Incarnation,
        txn: TxnNo,
        page: PageNo,
        standing: Standing,
    )
        requires client { HasClient self.old client }
        requires page { HasPage self.old page }
        requires current { IsCurrent self.old client incarnation }
        requires stands { IsStanding self.old client txn standing }
        requires number { LacksNumber self.old client (AskRead txn page) false }
        requires free { is_free self.old client page ≡ true }
        requires room { CanGrant self.old }
        ensures { Makes self.old
            (λ server. take_current on_cycle server client (AskRead txn page)) self.new }
    {
        // It isn't 0, which stands for a client that never greeted.
        let _known = incarnation.get();
        match self.begin_or_abort(client, incarnation, txn, standing) {
            Begun::Live => self.callbacks.grant(client, page, &mut self.outbox),
            Begun::Doomed => {}
            Begun::Ended => {}
        }
    }

    /// AskRead, whose transaction stands so; the client has that row of the page.
    fn ask_read(
        &mut self,
        client: ClientNo,
        incarnation: Incarnation,
        txn: TxnNo,
        page: PageNo,
        standing: Standing,
        row: Option<GrantNo>,
    ) -> Result<(), AllocError>
        requires client { HasClient self.old client }
        requires page { HasPage self.old page }
        requires current { IsCurrent self.old client incarnation }
        requires stands { IsStanding self.old client txn standing }
        requires row { row ≡ ((server_in self.old).session client).row page }
        requires room { CanGrant self.old }
        ensures ok { OnOk result (Makes self.old (answer_to on_cycle client (AskRead txn page))
            self.new) }
        ensures left { OnErr result (IsLeft self.old self.new) }
    {
        self.callbacks.reserve_ask(page)?;
        match self.begin_or_abort(client, incarnation, txn, standing) {
            Begun::Live => self.ask_to_read(client, incarnation, page, row),
            Begun::Doomed => {}
            Begun::Ended => {}
        }
        Ok(())
    }

    /// A live transaction asks to read: it gets its copy again where it has that row of the page,
    /// else its ask waits.
    fn ask_to_read(
        &mut self,
        client: ClientNo,
        incarnation: Incarnation,
        page: PageNo,
        row: Option<GrantNo>,
    )
        requires client { HasClient self.old client }
        requires page { HasPage self.old page }
        requires current { IsCurrent self.old client incarnation }
        requires live { has_live_txn ((server_in self.old).session client) ≡ true }
        requires row { row ≡ ((server_in self.old).session client).row page }
        requires place { 0 < places_at self.old page }
        requires room { CanGrant self.old }
        ensures { Makes self.old
            (λ server. take_ask_read on_cycle server client page ((server.session client).row page))
            self.new }
    {
        match row {
            Some(grant) => self.grant_again(client, incarnation, page, grant),
            None => self.enter(client, incarnation, page, None),
        }
    }

    /// The client's copy is sent again, with the page's present bytes.
    fn grant_again(
        &mut self,
        client: ClientNo,
        incarnation: Incarnation,
        page: PageNo,
        grant: GrantNo,
    )
        requires page { HasPage self.old page }
        requires current { IsCurrent self.old client incarnation }
        requires room { CanGrant self.old }
        ensures { Makes self.old (λ server. send_granted server client page grant ∷ []) self.new }
    {
        let store = self.callbacks.state().commits.store();
        let version = store.version(page);
        self.outbox.grant(client, incarnation, page, grant, version, store.bytes(page));
    }

    /// An ask waits, unless one of the client's does already.
    fn enter(
        &mut self,
        client: ClientNo,
        incarnation: Incarnation,
        page: PageNo,
        write_grant: Option<GrantNo>,
    )
        requires client { HasClient self.old client }
        requires page { HasPage self.old page }
        requires current { IsCurrent self.old client incarnation }
        requires live { has_live_txn ((server_in self.old).session client) ≡ true }
        requires place { 0 < places_at self.old page }
        requires room { CanSay self.old }
        ensures { Makes self.old
            (λ server. if has_waiting_ask server client server.pages then []
            else enter_queue on_cycle server page (new_ask client write_grant)) self.new }
    {
        // It isn't 0, which stands for a client that never greeted.
        let _known = incarnation.get();
        if self.callbacks.waits(client) {
            return;
        }
        // The law of how much it sends.
        an_ask_sends_at_most_one();
        self.callbacks
            .enter(client, page, write_grant, &mut self.outbox);
    }

    /// AskWrite.
    pub(crate) fn ask_write(
        &mut self,
        client: ClientNo,
        incarnation: Incarnation,
        txn: TxnNo,
        page: PageNo,
        grant: GrantNo,
    ) -> Result<(), AllocError>
        requires client { HasClient self.old client }
        requires page { HasPage self.old page }
        requires current { IsCurrent self.old client incarnation }
        requires room { CanSay self.old }
        ensures ok { OnOk result (Makes self.old
            (answer_to on_cycle client (AskWrite txn page grant)) self.new) }
        ensures left { OnErr result (IsLeft self.old self.new) }
    {
        self.callbacks.reserve_ask(page)?;
        let standing = self.callbacks.state().standing(client, txn);
        match self.begin_or_abort(client, incarnation, txn, standing) {
            Begun::Live => self.ask_to_write(client, incarnation, page, grant),
            Begun::Doomed => {}
            Begun::Ended => {}
        }
        Ok(())
    }

    /// A live transaction asks to write its copy: the write holder is permitted again, else its ask
    /// waits.
    fn ask_to_write(
        &mut self,
        client: ClientNo,
        incarnation: Incarnation,
        page: PageNo,
        grant: GrantNo,
    )
        requires client { HasClient self.old client }
        requires page { HasPage self.old page }
        requires current { IsCurrent self.old client incarnation }
        requires live { has_live_txn ((server_in self.old).session client) ≡ true }
        requires place { 0 < places_at self.old page }
        requires room { CanSay self.old }
        ensures { Makes self.old
            (λ server. take_ask_write on_cycle server client page grant) self.new }
    {
        if !self.callbacks.state().has_row(client, page, grant) {
            return;
        }
        if self.callbacks.state().is_write_holder(client, page) {
            self.permit_again(client, incarnation, page, grant);
        } else {
            self.enter(client, incarnation, page, Some(grant));
        }
    }

    /// The write holder is permitted again, for its present transaction.
    fn permit_again(
        &mut self,
        client: ClientNo,
        incarnation: Incarnation,
        page: PageNo,
        grant: GrantNo,
    )
        requires client { HasClient self.old client }
        requires page { HasPage self.old page }
        requires current { IsCurrent self.old client incarnation }
        requires live { has_live_txn ((server_in self.old).session client) ≡ true }
        requires holder { is_write_holder (server_in self.old) client page ≡ true }
        requires sole { sole_row (server_in self.old) page client (server_in self.old).clients
            ≡ true }
        requires room { CanSay self.old }
        ensures { Makes self.old (λ server. give_permission server client page grant) self.new }
    {
        // It isn't 0, which stands for a client that never greeted.
        let _known = incarnation.get();
        self.callbacks
            .permit_again(client, page, grant, &mut self.outbox);
    }
}
