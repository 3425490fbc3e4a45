//! Whether anything that may be lost is to be sent again, as it is known before room is made.
ghost use Rattle.std.specs.Prelude.{◌≡◌, ◌≤◌};
ghost use Rattle.cb_page.specs.Clients.{has};
ghost use Rattle.cb_protocol.specs.Resend.{again_doomed, again_page, again_pages, server_again};
ghost use Rattle.cb_protocol.specs.Settling.{send_callbacks, send_downgrades};
ghost use Rattle.cb_server_state.specs.Asking.{callback_to, sends_any};
ghost use Rattle.cb_server_state.specs.States.{HasClient, HasPage, PartsAgree, server_of};
ghost use Rattle.cb_server_state.specs.Waits.{Waits};

use crate::ServerState;
use cb_page::{ClientNo, ClientSet, PageNo};

impl ServerState {
    /// Whether anything is to be resent, to those in the way of a first ask or to a client whose
    /// transaction is doomed. It looks no further than the first message that it finds.
    pub fn sends_again(&self, clients: u16) -> bool
        requires agree { PartsAgree self.now }
        requires waits { Waits (server_of self.now) }
        requires all { clients ≡ (server_of self.now).clients }
        requires few { clients ≤ 32 }
        ensures { result ≡ sends_any (server_again (server_of self.now)) }
    {
        self.asks_again() || self.aborts_again(clients)
    }

    /// Whether anything is to be sent again for the first ask of any page.
    fn asks_again(&self) -> bool
        requires agree { PartsAgree self.now }
        requires waits { Waits (server_of self.now) }
        ensures { result
            ≡ sends_any (again_pages (server_of self.now) (server_of self.now).pages) }
    {
        let mut from = 0;
        while let Some(page) = self.asks.next_page(from) {
            if self.asks_again_at(page) {
                return true;
            }
            from = page.index() + 1;
        }
        false
    }

    /// The same for the first ask of one page.
    fn asks_again_at(&self, page: PageNo) -> bool
        requires agree { PartsAgree self.now }
        requires page { HasPage self.now page }
        requires waits { Waits (server_of self.now) }
        ensures { result
            ≡ sends_any (again_page (server_of self.now) page ((server_of self.now).queue page)) }
    {
        let Some(first) = self.asks.queue(page).first() else {
            return false;
        };
        let users = self.marks.users(page);
        if first.write_grant.is_some() {
            self.calls_any_back(first.client, page, users)
        } else if self.keep_write {
            self.asks_any_down(first.client, page, users)
        } else {
            false
        }
    }

    /// Whether another client has a copy of the page, save those left out.
    fn calls_any_back(&self, asker: ClientNo, page: PageNo, left_out: ClientSet) -> bool
        requires agree { PartsAgree self.now }
        requires page { HasPage self.now page }
        requires waits { Waits (server_of self.now) }
        ensures { result ≡ sends_any (send_callbacks (server_of self.now) (has left_out) page asker
            (server_of self.now).clients) }
    {
        let rows = self.directory.rows_of_page(page);
        let mut from = 0;
        while let Some(client) = rows.next(from) {
            if self.calls_one_back(client, asker, page, left_out) {
                return true;
            }
            from = client.index() + 1;
        }
        false
    }

    /// Whether the client is another, isn't left out and has a copy.
    fn calls_one_back(
        &self,
        client: ClientNo,
        asker: ClientNo,
        page: PageNo,
        left_out: ClientSet,
    ) -> bool
        requires agree { PartsAgree self.now }
        requires client { HasClient self.now client }
        requires page { HasPage self.now page }
        ensures { result
            ≡ sends_any (callback_to (server_of self.now) (has left_out) page asker client) }
    {
        if client == asker {
            return false;
        }
        if left_out.contains(client) {
            return false;
        }
        self.directory.row(client, page).is_some()
    }

    /// Whether another client merely keeps the page's write permission, unless it is left out.
    fn asks_any_down(&self, asker: ClientNo, page: PageNo, left_out: ClientSet) -> bool
        requires agree { PartsAgree self.now }
        requires page { HasPage self.now page }
        ensures { result ≡ sends_any (send_downgrades (server_of self.now) (has left_out) page asker
            ((server_of self.now).store.holder page)) }
    {
        let Some(keeper) = self.keeper(page, asker) else {
            return false;
        };
        if left_out.contains(keeper) {
            return false;
        }
        self.directory.row(keeper, page).is_some()
    }

    /// Whether a client's transaction is doomed.
    fn aborts_again(&self, clients: u16) -> bool
        requires all { clients ≡ (server_of self.now).clients }
        requires few { clients ≤ 32 }
        ensures { result ≡ sends_any (again_doomed (server_of self.now) clients) }
    {
        for client in 0..clients {
            if self.victim(ClientNo::new(client)).is_some() {
                return true;
            }
        }
        false
    }
}
