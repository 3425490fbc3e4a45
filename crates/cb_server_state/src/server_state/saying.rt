//! The changes that their client hears of.
ghost use Rattle.std.specs.Option.{option_map};
ghost use Rattle.std.specs.Prelude.{◌≡◌, ◌≢◌, ◌≤◌, [], Some, slice_get, true};
ghost use Rattle.cb_asks.specs.Asks.{IsSpent, queue_at};
ghost use Rattle.cb_asks.specs.Queues.{granted};
ghost use Rattle.cb_asks.specs.declared.ask.Fate.TheVariants as fate;
ghost use Rattle.cb_outbox.specs.Saying.{HasRoomFor, Says};
ghost use Rattle.cb_protocol.specs.Basics.{is_none, max_number};
ghost use Rattle.cb_protocol.specs.Session.{has_live_txn};
ghost use Rattle.cb_protocol.specs.Settling.{doom_client, give_permission, grant_row};
ghost use Rattle.cb_protocol.specs.Settling.{no_other_holder, permit_write, sole_row};
ghost use Rattle.cb_server_state.specs.Granting.{grant_copy};
ghost use Rattle.cb_server_state.specs.States.{HasClient, HasPage, IsAsLarge, PartsAgree, Stays};
ghost use Rattle.cb_server_state.specs.States.{server_of};
ghost use Rattle.cb_server_state.specs.Waits.{HasBegun, IsGreeted};

use crate::ServerState;
use cb_asks::Fate;
use cb_frame::ShortBody;
use cb_outbox::Outbox;
use cb_page::{ClientNo, GrantNo, PageNo};

impl ServerState {
    /// The client becomes the page's write holder, for its last transaction, and is told so.
    pub fn give_permission(
        &mut self,
        client: ClientNo,
        page: PageNo,
        grant: GrantNo,
        outbox: &mut Outbox,
    )
        requires agree { PartsAgree self.old }
        requires client { HasClient self.old client }
        requires page { HasPage self.old page }
        requires greeted { IsGreeted (server_of self.old) client }
        requires begun { HasBegun (server_of self.old) client }
        requires alone { no_other_holder ((server_of self.old).store.holder page) client ≡ true }
        requires sole { sole_row (server_of self.old) page client (server_of self.old).clients
            ≡ true }
        requires room { HasRoomFor (give_permission (server_of self.old) client page grant)
            outbox.old }
        ensures agree { PartsAgree self.new }
        ensures says { Says (server_of self.old)
            (λ server. give_permission server client page grant) (server_of self.new)
            outbox.old outbox.new }
        ensures stays { Stays self.old self.new }
        ensures asks { self.new.asks ≡ self.old.asks }
    {
        let incarnation = self.incarnation(client);
        let txn = self.txn(client);
        self.directory.set_writer(client, page, txn);
        outbox.say(
            client,
            incarnation,
            ShortBody::MayWrite { txn, page, grant },
        );
    }

    /// The first ask of the page is permitted, and leaves as granted.
    pub fn permit_first(
        &mut self,
        client: ClientNo,
        page: PageNo,
        grant: GrantNo,
        outbox: &mut Outbox,
    ) -> Fate
        requires agree { PartsAgree self.old }
        requires client { HasClient self.old client }
        requires page { HasPage self.old page }
        requires some { queue_at self.old.asks page ≢ [] }
        requires greeted { IsGreeted (server_of self.old) client }
        requires begun { HasBegun (server_of self.old) client }
        requires alone { no_other_holder ((server_of self.old).store.holder page) client ≡ true }
        requires sole { sole_row (server_of self.old) page client (server_of self.old).clients
            ≡ true }
        requires room { HasRoomFor (permit_write (server_of self.old) page client grant)
            outbox.old }
        ensures agree { PartsAgree self.new }
        ensures says { Says (server_of self.old) (λ server. permit_write server page client grant)
            (server_of self.new) outbox.old outbox.new }
        ensures stays { Stays self.old self.new }
        ensures fate { option_map granted (slice_get (queue_at self.old.asks page) 0)
            ≡ Some result }
    {
        self.give_permission(client, page, grant, outbox);
        let ask = self.asks.leave(page);
        ask.granted()
    }

    /// The client gets a copy of the page, by the next grant. No ask leaves.
    pub fn grant(&mut self, client: ClientNo, page: PageNo, outbox: &mut Outbox)
        requires agree { PartsAgree self.old }
        requires client { HasClient self.old client }
        requires page { HasPage self.old page }
        requires greeted { IsGreeted (server_of self.old) client }
        requires alone { no_other_holder ((server_of self.old).store.holder page) client ≡ true }
        requires no_row { is_none (((server_of self.old).session client).row page) ≡ true }
        requires left { (server_of self.old).next_grant ≤ max_number }
        requires size { IsAsLarge outbox.old self.old }
        requires room { HasRoomFor (grant_copy (server_of self.old) page client) outbox.old }
        ensures agree { PartsAgree self.new }
        ensures says { Says (server_of self.old) (λ server. grant_copy server page client)
            (server_of self.new) outbox.old outbox.new }
        ensures stays { Stays self.old self.new }
        ensures asks { self.new.asks ≡ self.old.asks }
    {
        let incarnation = self.incarnation(client);
        let grant = self.directory.grant(client, page);
        let store = self.commits.store();
        let version = store.version(page);
        outbox.grant(client, incarnation, page, grant, version, store.bytes(page));
    }

    /// The first ask of the page is granted: its client gets a copy, by the next grant.
    pub fn grant_first(&mut self, client: ClientNo, page: PageNo, outbox: &mut Outbox) -> Fate
        requires agree { PartsAgree self.old }
        requires client { HasClient self.old client }
        requires page { HasPage self.old page }
        requires some { queue_at self.old.asks page ≢ [] }
        requires greeted { IsGreeted (server_of self.old) client }
        requires alone { no_other_holder ((server_of self.old).store.holder page) client ≡ true }
        requires no_row { is_none (((server_of self.old).session client).row page) ≡ true }
        requires left { (server_of self.old).next_grant ≤ max_number }
        requires size { IsAsLarge outbox.old self.old }
        requires room { HasRoomFor (grant_row (server_of self.old) page client) outbox.old }
        ensures agree { PartsAgree self.new }
        ensures says { Says (server_of self.old) (λ server. grant_row server page client)
            (server_of self.new) outbox.old outbox.new }
        ensures stays { Stays self.old self.new }
        ensures fate { option_map granted (slice_get (queue_at self.old.asks page) 0)
            ≡ Some result }
    {
        self.grant(client, page, outbox);
        self.asks.leave(page).granted()
    }

    /// The client's transaction becomes the victim of a deadlock: its ask goes as doomed, and
    /// AbortNow is sent to it.
    pub fn doom(&mut self, client: ClientNo, outbox: &mut Outbox) -> Option<Fate>
        requires agree { PartsAgree self.old }
        requires client { HasClient self.old client }
        requires greeted { IsGreeted (server_of self.old) client }
        requires begun { HasBegun (server_of self.old) client }
        requires live { has_live_txn ((server_of self.old).session client) ≡ true }
        requires room { HasRoomFor (doom_client (server_of self.old) client) outbox.old }
        ensures agree { PartsAgree self.new }
        ensures says { Says (server_of self.old) (λ server. doom_client server client)
            (server_of self.new) outbox.old outbox.new }
        ensures stays { Stays self.old self.new }
        ensures fate { IsSpent self.old.asks client (fate.Doomed client) result }
    {
        let incarnation = self.incarnation(client);
        let txn = self.txn(client);
        self.sessions.doom(client);
        outbox.say(client, incarnation, ShortBody::AbortNow { txn });
        let ask = self.asks.remove(client)?;
        Some(ask.doomed())
    }
}
