//! What may be lost is sent again, page by page and client by client.
ghost use Rattle.std.specs.Prelude.{◌≡◌, ◌≤◌, ℕ, true, false, MatchOption};
ghost use Rattle.cb_outbox.specs.Saying.{HasRoomFor, Says};
ghost use Rattle.cb_page.specs.Clients.{has};
ghost use Rattle.cb_protocol.specs.Resend.{again_doomed, again_page, again_pages};
ghost use Rattle.cb_protocol.specs.Settling.{send_downgrades};
ghost use Rattle.cb_server_state.specs.Asking.{abort_to};
ghost use Rattle.cb_server_state.specs.States.{HasClient, HasPage, PartsAgree, server_of};
ghost use Rattle.cb_server_state.specs.Waits.{IsGreeted, Waits};

use crate::ServerState;
use cb_frame::ShortBody;
use cb_links::Standing;
use cb_outbox::Outbox;
use cb_page::{ClientNo, ClientSet, PageNo, TxnNo};

impl ServerState {
    /// Resends what the first ask of each page waits for, by rising page.
    pub fn again_pages(&self, outbox: &mut Outbox)
        requires agree { PartsAgree self.now }
        requires waits { Waits (server_of self.now) }
        requires room { HasRoomFor (again_pages (server_of self.now) (server_of self.now).pages)
            outbox.old }
        ensures { Says (server_of self.now) (λ server. again_pages server server.pages)
            (server_of self.now) outbox.old outbox.new }
    {
        let mut from = 0;
        while let Some(page) = self.asks.next_page(from) {
            self.again_page(page, outbox);
            from = page.index() + 1;
        }
    }

    /// For the first ask of the page.
    fn again_page(&self, page: PageNo, outbox: &mut Outbox)
        requires agree { PartsAgree self.now }
        requires page { HasPage self.now page }
        requires waits { Waits (server_of self.now) }
        requires room { HasRoomFor
            (again_page (server_of self.now) page ((server_of self.now).queue page)) outbox.old }
        ensures { Says (server_of self.now)
            (λ server. again_page server page (server.queue page))
            (server_of self.now) outbox.old outbox.new }
    {
        let Some(first) = self.asks.queue(page).first() else {
            return;
        };
        let users = self.marks.users(page);
        if first.write_grant.is_some() {
            self.call_back(first.client, page, users, outbox);
        } else if self.keep_write {
            self.ask_down_again(first.client, page, users, outbox);
        }
    }

    /// A Downgrade to another client that merely keeps the page's write permission, unless it is
    /// left out.
    fn ask_down_again(
        &self,
        asker: ClientNo,
        page: PageNo,
        left_out: ClientSet,
        outbox: &mut Outbox,
    )
        requires agree { PartsAgree self.now }
        requires page { HasPage self.now page }
        requires waits { Waits (server_of self.now) }
        requires room { HasRoomFor (send_downgrades (server_of self.now) (has left_out) page asker
            ((server_of self.now).store.holder page)) outbox.old }
        ensures { Says (server_of self.now)
            (λ server. send_downgrades server (has left_out) page asker (server.store.holder page))
            (server_of self.now) outbox.old outbox.new }
    {
        let Some(keeper) = self.keeper(page, asker) else {
            return;
        };
        if left_out.contains(keeper) {
            return;
        }
        let tag = self.tag(page);
        self.ask_down(keeper, page, tag, outbox);
    }

    /// Sends AbortNow to each client whose transaction is doomed, in rising order.
    pub fn again_doomed(&self, clients: u16, outbox: &mut Outbox)
        requires all { clients ≡ (server_of self.now).clients }
        requires few { clients ≤ 32 }
        requires greeted { (client : ℕ) → (server_of self.now).doomed client ≡ true
            → IsGreeted (server_of self.now) client }
        requires room { HasRoomFor (again_doomed (server_of self.now) clients) outbox.old }
        ensures { Says (server_of self.now) (λ server. again_doomed server clients)
            (server_of self.now) outbox.old outbox.new }
    {
        for client in 0..clients {
            self.abort_again(ClientNo::new(client), outbox);
        }
    }

    /// The client's live transaction, if it is the victim of a deadlock.
    pub(crate) fn victim(&self, client: ClientNo) -> Option<TxnNo>
        requires { HasClient self.now client }
        ensures { MatchOption result ((server_of self.now).doomed client ≡ false)
            (λ txn. ((server_of self.now).doomed client ≡ true)
            × (txn ≡ ((server_of self.now).session client).txn)) }
    {
        let sessions = &self.sessions;
        let txn = sessions.session(client).transaction.txn()?;
        match sessions.standing(client, txn) {
            Standing::Doomed => Some(txn),
            _ => None,
        }
    }

    /// AbortNow to a client whose transaction is doomed.
    fn abort_again(&self, client: ClientNo, outbox: &mut Outbox)
        requires client { HasClient self.now client }
        requires greeted { (server_of self.now).doomed client ≡ true
            → IsGreeted (server_of self.now) client }
        requires room { HasRoomFor (abort_to (server_of self.now) client) outbox.old }
        ensures { Says (server_of self.now) (λ server. abort_to server client)
            (server_of self.now) outbox.old outbox.new }
    {
        let Some(txn) = self.victim(client) else {
            return;
        };
        let incarnation = self.incarnation(client);
        outbox.say(client, incarnation, ShortBody::AbortNow { txn });
    }
}
