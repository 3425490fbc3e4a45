//! What is done about the first ask of a page.
ghost use Rattle.std.specs.Prelude.{◌≡◌, ◌≤◌, ◌+◌, [], true, None, Some};
ghost use Rattle.cb_asks.specs.Queues.{waiting_ask};
ghost use Rattle.cb_callbacks.specs.Deciding.{IsFirst};
ghost use Rattle.cb_outbox.specs.Saying.{Decides, HasRoomFor, Says};
ghost use Rattle.cb_protocol.specs.Basics.{is_none, max_number};
ghost use Rattle.cb_protocol.specs.Numbers.{first_free_grant};
ghost use Rattle.cb_protocol.specs.Server.{has_ask, has_row};
ghost use Rattle.cb_protocol.specs.Settling.{call_back_once, decide, decide_read, decide_write};
ghost use Rattle.cb_protocol.specs.Settling.{decision_steps, downgrade_once, no_other_holder};
ghost use Rattle.cb_protocol.specs.Settling.{sole_row, wait_or_doom};
ghost use Rattle.cb_protocol.specs.WaitsFor.{on_cycle};
ghost use Rattle.cb_server_state.specs.States.{HasPage, IsAsLarge, Stays, server_of};

use crate::Callbacks;
use cb_asks::Waiting;
use cb_outbox::Outbox;
use cb_page::{ClientNo, ClientSet, GrantNo, PageNo};

impl Callbacks {
    /// What is done about the first ask of the page. The next ask is to be looked at if it answers
    /// true; else the page is settled.
    pub(crate) fn decide(&mut self, page: PageNo, outbox: &mut Outbox) -> bool
        requires page { HasPage self.old.state page }
        requires left { first_free_grant (server_of self.old.state) ≤ max_number + 1 }
        requires size { IsAsLarge outbox.old self.old.state }
        requires room { HasRoomFor (decision_steps (decide on_cycle (server_of self.old.state)
            page ((server_of self.old.state).queue page))) outbox.old }
        ensures decides { Decides (server_of self.old.state)
            (λ server. decide on_cycle server page (server.queue page))
            (server_of self.new.state) result outbox.old outbox.new }
        ensures stays { Stays self.old.state self.new.state }
    {
        let Some(first) = self.state.asks.queue(page).first() else {
            return false;
        };
        match first.write_grant {
            None => self.decide_read(page, first, outbox),
            Some(grant) => self.decide_write(page, first, grant, outbox),
        }
    }

    /// The first ask is to read: it is granted if the client has no copy and no other client has
    /// the write permission.
    fn decide_read(&mut self, page: PageNo, first: Waiting, outbox: &mut Outbox) -> bool
        requires page { HasPage self.old.state page }
        requires first { IsFirst self.old.state page (waiting_ask first) }
        requires reads { first.write_grant ≡ None }
        requires left { first_free_grant (server_of self.old.state) ≤ max_number + 1 }
        requires size { IsAsLarge outbox.old self.old.state }
        requires room { HasRoomFor (decision_steps
            (decide_read on_cycle (server_of self.old.state) page (waiting_ask first)))
            outbox.old }
        ensures decides { Decides (server_of self.old.state)
            (λ server. decide_read on_cycle server page (waiting_ask first))
            (server_of self.new.state) result outbox.old outbox.new }
        ensures stays { Stays self.old.state self.new.state }
    {
        let client = first.client;
        let is_free = self.state.no_other_holder(client, page);
        let has_none = self.state.directory.row(client, page).is_none();
        if is_free && has_none {
            self.grant_first(client, page, outbox);
            true
        } else {
            self.downgrade_once(page, first, outbox);
            self.wait_or_doom(client, page, outbox)
        }
    }

    /// The first ask is to write by that grant: it is permitted if the client has that copy and no
    /// other client has a copy or the write permission.
    fn decide_write(
        &mut self,
        page: PageNo,
        first: Waiting,
        grant: GrantNo,
        outbox: &mut Outbox,
    ) -> bool
        requires page { HasPage self.old.state page }
        requires first { IsFirst self.old.state page (waiting_ask first) }
        requires size { IsAsLarge outbox.old self.old.state }
        requires room { HasRoomFor (decision_steps
            (decide_write on_cycle (server_of self.old.state) page (waiting_ask first) grant))
            outbox.old }
        ensures decides { Decides (server_of self.old.state)
            (λ server. decide_write on_cycle server page (waiting_ask first) grant)
            (server_of self.new.state) result outbox.old outbox.new }
        ensures stays { Stays self.old.state self.new.state }
    {
        let client = first.client;
        let is_free = self.state.no_other_holder(client, page);
        let has_copy = self.state.has_row(client, page, grant);
        let is_alone = self.state.sole_row(client, page);
        if is_free && has_copy && is_alone {
            self.permit_first(client, page, grant, outbox);
            true
        } else {
            self.call_back_once(page, first, outbox);
            self.wait_or_doom(client, page, outbox)
        }
    }

    /// The first ask can't be met: if its client lies on a cycle of waits, its transaction is
    /// doomed.
    fn wait_or_doom(&mut self, client: ClientNo, page: PageNo, outbox: &mut Outbox) -> bool
        requires page { HasPage self.old.state page }
        requires here { has_ask client ((server_of self.old.state).queue page) ≡ true }
        requires room { HasRoomFor
            (decision_steps (wait_or_doom on_cycle (server_of self.old.state) client []))
            outbox.old }
        ensures decides { Decides (server_of self.old.state)
            (λ server. wait_or_doom on_cycle server client [])
            (server_of self.new.state) result outbox.old outbox.new }
        ensures stays { Stays self.old.state self.new.state }
    {
        if self.closes_cycle(client) {
            self.doom(client, page, outbox);
            true
        } else {
            false
        }
    }

    /// Callbacks for the first ask, once.
    fn call_back_once(&mut self, page: PageNo, first: Waiting, outbox: &mut Outbox)
        requires page { HasPage self.old.state page }
        requires first { IsFirst self.old.state page (waiting_ask first) }
        requires room { HasRoomFor
            (call_back_once (server_of self.old.state) page (waiting_ask first)) outbox.old }
        ensures says { Says (server_of self.old.state)
            (λ server. call_back_once server page (waiting_ask first))
            (server_of self.new.state) outbox.old outbox.new }
        ensures here { has_ask first.client ((server_of self.new.state).queue page) ≡ true }
        ensures stays { Stays self.old.state self.new.state }
    {
        if !first.called_back {
            let nobody = ClientSet::empty();
            self.state.call_back(first.client, page, nobody, outbox);
            self.state.asks.mark_called_back(page);
        }
    }

    /// A Downgrade to another client that merely keeps the write permission, once for each tag.
    fn downgrade_once(&mut self, page: PageNo, first: Waiting, outbox: &mut Outbox)
        requires page { HasPage self.old.state page }
        requires first { IsFirst self.old.state page (waiting_ask first) }
        requires room { HasRoomFor
            (downgrade_once (server_of self.old.state) page (waiting_ask first)) outbox.old }
        ensures says { Says (server_of self.old.state)
            (λ server. downgrade_once server page (waiting_ask first))
            (server_of self.new.state) outbox.old outbox.new }
        ensures here { has_ask first.client ((server_of self.new.state).queue page) ≡ true }
        ensures stays { Stays self.old.state self.new.state }
    {
        if !self.state.keep_write {
            return;
        }
        let Some(keeper) = self.state.keeper(page, first.client) else {
            return;
        };
        let tag = self.state.tag(page);
        if first.downgrade_sent == Some(tag) {
            return;
        }
        self.state.ask_down(keeper, page, tag, outbox);
        self.state.asks.mark_downgrade_sent(page, tag);
    }
}
