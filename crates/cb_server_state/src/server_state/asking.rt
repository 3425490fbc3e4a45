//! Those in the way of a first ask are asked to give way.
ghost use Rattle.std.specs.Prelude.{◌≡◌, false, MatchOption, Some};
ghost use Rattle.cb_outbox.specs.Saying.{HasRoomFor, Says};
ghost use Rattle.cb_page.specs.Clients.{has};
ghost use Rattle.cb_protocol.specs.Settling.{keeps_permission, send_callbacks, send_downgrade};
ghost use Rattle.cb_server_state.specs.Asking.{IsKeeper, callback_to};
ghost use Rattle.cb_server_state.specs.States.{HasClient, HasPage, PartsAgree, server_of};
ghost use Rattle.cb_server_state.specs.Waits.{Waits};

use crate::ServerState;
use cb_frame::ShortBody;
use cb_outbox::Outbox;
use cb_page::{ClientNo, ClientSet, PageNo, TxnNo};

impl ServerState {
    /// Sends a Callback to each other client that has a copy of the page, except those left out.
    pub fn call_back(&self, asker: ClientNo, page: PageNo, left_out: ClientSet, outbox: &mut Outbox)
        requires agree { PartsAgree self.now }
        requires page { HasPage self.now page }
        requires waits { Waits (server_of self.now) }
        requires room { HasRoomFor (send_callbacks (server_of self.now) (has left_out) page asker
            (server_of self.now).clients) outbox.old }
        ensures { Says (server_of self.now)
            (λ server. send_callbacks server (has left_out) page asker server.clients)
            (server_of self.now) outbox.old outbox.new }
    {
        let rows = self.directory.rows_of_page(page);
        let mut from = 0;
        while let Some(client) = rows.next(from) {
            self.call_back_one(client, asker, page, left_out, outbox);
            from = client.index() + 1;
        }
    }

    /// A Callback to a client, if it is another, isn't left out and has a copy.
    fn call_back_one(
        &self,
        client: ClientNo,
        asker: ClientNo,
        page: PageNo,
        left_out: ClientSet,
        outbox: &mut Outbox,
    )
        requires agree { PartsAgree self.now }
        requires client { HasClient self.now client }
        requires page { HasPage self.now page }
        requires waits { Waits (server_of self.now) }
        requires room { HasRoomFor
            (callback_to (server_of self.now) (has left_out) page asker client) outbox.old }
        ensures { Says (server_of self.now)
            (λ server. callback_to server (has left_out) page asker client)
            (server_of self.now) outbox.old outbox.new }
    {
        if client == asker {
            return;
        }
        if left_out.contains(client) {
            return;
        }
        let Some(grant) = self.directory.row(client, page) else {
            return;
        };
        let incarnation = self.incarnation(client);
        outbox.say(client, incarnation, ShortBody::Callback { page, grant });
    }

    /// The client, other than the asker, that merely keeps the page's write permission.
    pub fn keeper(&self, page: PageNo, asker: ClientNo) -> Option<ClientNo>
        requires agree { PartsAgree self.now }
        requires page { HasPage self.now page }
        ensures { MatchOption result
            (keeps_permission (server_of self.now) page asker
            ((server_of self.now).store.holder page) ≡ false)
            (IsKeeper self.now page asker) }
    {
        let holder = self.directory.holder(page)?;
        if holder == asker {
            return None;
        }
        if self.is_live_permission(holder, page) {
            return None;
        }
        Some(holder)
    }

    /// Sends a Downgrade of the permission with that tag to a client, if it has a copy.
    pub fn ask_down(&self, client: ClientNo, page: PageNo, tag: TxnNo, outbox: &mut Outbox)
        requires agree { PartsAgree self.now }
        requires client { HasClient self.now client }
        requires page { HasPage self.now page }
        requires tag { tag ≡ (server_of self.now).store.tag page }
        requires waits { Waits (server_of self.now) }
        requires room { HasRoomFor (send_downgrade (server_of self.now) client page
            (((server_of self.now).session client).row page)) outbox.old }
        ensures { Says (server_of self.now)
            (λ server. send_downgrade server client page ((server.session client).row page))
            (server_of self.now) outbox.old outbox.new }
    {
        let Some(grant) = self.directory.row(client, page) else {
            return;
        };
        let incarnation = self.incarnation(client);
        outbox.say(
            client,
            incarnation,
            ShortBody::Downgrade {
                page,
                grant,
                txn: tag,
            },
        );
    }
}
