//! Asks leave their queues, and pages are settled.
ghost use Rattle.std.specs.Prelude.{◌≡◌, ◌≤◌, ◌+◌, ◌*◌, true, length};
ghost use Rattle.cb_asks.specs.Asks.{asks_below};
ghost use Rattle.cb_callbacks.specs.Deciding.{StartsWith};
ghost use Rattle.cb_callbacks.specs.Leaving.{FollowsLeft};
ghost use Rattle.cb_outbox.specs.Saying.{HasRoomFor, OutboxState, Says};
ghost use Rattle.cb_protocol.specs.Basics.{is_none, max_number};
ghost use Rattle.cb_protocol.specs.Numbers.{first_free_grant, messages_for_pages};
ghost use Rattle.cb_protocol.specs.Server.{has_ask};
ghost use Rattle.cb_protocol.specs.ServerMessages.{read_asks_below};
ghost use Rattle.cb_protocol.specs.Settling.{doom_client, grant_row, no_other_holder, permit_write};
ghost use Rattle.cb_protocol.specs.Settling.{settle_page, settle_pages, sole_row};
ghost use Rattle.cb_protocol.specs.WaitsFor.{on_cycle};
ghost use Rattle.cb_server_state.specs.States.{AreOf, HasPage, IsAsLarge, PartsAgree, Stays};
ghost use Rattle.cb_server_state.specs.States.{server_of};

use crate::Callbacks;
use cb_outbox::Outbox;
use cb_page::{ClientNo, ClientSet, GrantNo, Limits, PageNo};
use cb_server_state::ServerState;
use cb_waits::View;

impl Callbacks {
    /// Settles every page that has asks, in rising order.
    pub fn settle(&mut self, outbox: &mut Outbox)
        requires left { first_free_grant (server_of self.old.state) ≤ max_number + 1 }
        requires size { IsAsLarge outbox.old self.old.state }
        requires room { HasRoomFor (settle_pages on_cycle (server_of self.old.state)
            (server_of self.old.state).pages) outbox.old }
        ensures says { Says (server_of self.old.state)
            (λ server. settle_pages on_cycle server server.pages)
            (server_of self.new.state) outbox.old outbox.new }
        ensures stays { Stays self.old.state self.new.state }
    {
        // The invariant of all as it is before the first page, which the proof cites.
        let _known = &self.state;
        let mut from = 0;
        while let Some(page) = self.state.asks.next_page(from) {
            let asks = self.state.asks.queue(page).len();
            self.settle_page(page, asks, outbox);
            from = page.index() + 1;
        }
    }

    /// The most messages that settling sends: two for each ask to read that waits, and for each ask
    /// to write one to each client and one more to its own.
    pub fn messages_to_settle(&self, limits: &Limits) -> usize
        requires { AreOf limits.now self.now.state }
        ensures messages { result ≡ messages_for_pages (server_of self.now.state)
            (server_of self.now.state).pages }
        ensures few { result ≤ 1056 }
    {
        let reads = self.read_asks();
        let writes = self.waiting_asks() - reads;
        2 * reads + (usize::from(limits.clients()) + 1) * writes
    }

    /// A law, for whoever settles and has to make room first. Settling sends at most as many
    /// messages as `messages_to_settle` says. That is at most 33 for each ask that waits (one to
    /// each of 32 clients, and one more to its own), with a copy for each ask to read. At most 32
    /// asks wait, one of each client.
    pub fn settling_is_bounded(&self)
        ensures by_kind { (outbox : OutboxState) → length outbox.sent
            + messages_for_pages (server_of self.now.state) (server_of self.now.state).pages
            ≤ outbox.room
            → read_asks_below (server_of self.now.state) (server_of self.now.state).pages
            ≤ outbox.spare
            → HasRoomFor (settle_pages on_cycle (server_of self.now.state)
            (server_of self.now.state).pages) outbox }
        ensures room { (outbox : OutboxState) → length outbox.sent
            + 33 * asks_below (server_of self.now.state) (server_of self.now.state).pages
            ≤ outbox.room
            → read_asks_below (server_of self.now.state) (server_of self.now.state).pages
            ≤ outbox.spare
            → HasRoomFor (settle_pages on_cycle (server_of self.now.state)
            (server_of self.now.state).pages) outbox }
        ensures few { asks_below (server_of self.now.state) (server_of self.now.state).pages
            ≤ 32 }
    {
        // To look at a field shows the invariant; that few asks wait their count says.
        let _known = self.state.asks.waiting_asks();
    }

    /// The page is settled, in so many decisions at most and one.
    fn settle_page(&mut self, page: PageNo, asks: usize, outbox: &mut Outbox)
        requires page { HasPage self.old.state page }
        requires left { first_free_grant (server_of self.old.state) ≤ max_number + 1 }
        requires size { IsAsLarge outbox.old self.old.state }
        requires room { HasRoomFor
            (settle_page on_cycle (asks + 1) (server_of self.old.state) page) outbox.old }
        ensures says { Says (server_of self.old.state)
            (λ server. settle_page on_cycle (asks + 1) server page)
            (server_of self.new.state) outbox.old outbox.new }
        ensures stays { Stays self.old.state self.new.state }
    {
        let goes_on = self.decide(page, outbox);
        if goes_on && asks > 0 {
            self.settle_page(page, asks - 1, outbox);
        }
    }

    /// The first ask of the page is permitted, and the view follows.
    pub(crate) fn permit_first(
        &mut self,
        client: ClientNo,
        page: PageNo,
        grant: GrantNo,
        outbox: &mut Outbox,
    )
        requires page { HasPage self.old.state page }
        requires first { StartsWith client ((server_of self.old.state).queue page) }
        requires alone { no_other_holder ((server_of self.old.state).store.holder page) client
            ≡ true }
        requires sole { sole_row (server_of self.old.state) page client
            (server_of self.old.state).clients ≡ true }
        requires room { HasRoomFor (permit_write (server_of self.old.state) page client grant)
            outbox.old }
        ensures says { Says (server_of self.old.state)
            (λ server. permit_write server page client grant)
            (server_of self.new.state) outbox.old outbox.new }
        ensures stays { Stays self.old.state self.new.state }
    {
        self.state.permit_first(client, page, grant, outbox);
        follow_left(&mut self.view, &self.state, client, page);
    }

    /// The first ask of the page is granted, and the view follows.
    pub(crate) fn grant_first(&mut self, client: ClientNo, page: PageNo, outbox: &mut Outbox)
        requires page { HasPage self.old.state page }
        requires first { StartsWith client ((server_of self.old.state).queue page) }
        requires alone { no_other_holder ((server_of self.old.state).store.holder page) client
            ≡ true }
        requires no_row { is_none (((server_of self.old.state).session client).row page) ≡ true }
        requires left { (server_of self.old.state).next_grant ≤ max_number }
        requires size { IsAsLarge outbox.old self.old.state }
        requires room { HasRoomFor (grant_row (server_of self.old.state) page client) outbox.old }
        ensures says { Says (server_of self.old.state) (λ server. grant_row server page client)
            (server_of self.new.state) outbox.old outbox.new }
        ensures stays { Stays self.old.state self.new.state }
    {
        self.state.grant_first(client, page, outbox);
        follow_left(&mut self.view, &self.state, client, page);
    }

    /// The client, whose ask waits at the page, is doomed, and the view follows.
    pub(crate) fn doom(&mut self, client: ClientNo, page: PageNo, outbox: &mut Outbox)
        requires page { HasPage self.old.state page }
        requires here { has_ask client ((server_of self.old.state).queue page) ≡ true }
        requires room { HasRoomFor (doom_client (server_of self.old.state) client) outbox.old }
        ensures says { Says (server_of self.old.state) (λ server. doom_client server client)
            (server_of self.new.state) outbox.old outbox.new }
        ensures stays { Stays self.old.state self.new.state }
    {
        self.state.doom(client, outbox);
        follow_left(&mut self.view, &self.state, client, page);
    }
}

/// The view follows a page that the client's ask has left.
fn follow_left(view: &mut View, state: &ServerState, client: ClientNo, page: PageNo)
    requires agree { PartsAgree state.now }
    requires page { HasPage state.now page }
    ensures { FollowsLeft view.old (server_of state.now) client page view.new }
{
    view.put_row(client, ClientSet::empty());
    let held_up_by = state.held_up_by(page);
    view.follow(state.asks.queue(page), held_up_by);
}
