//! What is asked before a step is made; each by the protocol's test.
ghost use Rattle.std.specs.Prelude.{◌≡◌, true};
ghost use Rattle.cb_protocol.specs.Server.{has_row, is_live_permission, is_write_holder};
ghost use Rattle.cb_protocol.specs.Settling.{no_other_holder, sole_row};
ghost use Rattle.cb_server_state.specs.Questions.{IsLastIfLive, admission_in, standing_in};
ghost use Rattle.cb_server_state.specs.States.{HasClient, HasPage, PartsAgree, server_of};

use crate::ServerState;
use cb_links::{Admission, Standing};
use cb_page::{ClientNo, GrantNo, Incarnation, PageNo, TxnNo};

impl ServerState {
    /// How an incarnation compares with the client's current one.
    pub fn admission(&self, client: ClientNo, incarnation: Incarnation) -> Admission
        requires { HasClient self.now client }
        ensures { result ≡ admission_in (server_of self.now) client incarnation }
    {
        // It isn't 0, which stands for a client that never greeted.
        let _known = incarnation.get();
        self.sessions.admit(client, incarnation)
    }

    /// How a transaction of the current incarnation compares with the client's last one.
    pub fn standing(&self, client: ClientNo, txn: TxnNo) -> Standing
        requires agree { PartsAgree self.now }
        requires client { HasClient self.now client }
        ensures value { result ≡ standing_in (server_of self.now) client txn }
        ensures last { IsLastIfLive result (server_of self.now) client txn }
    {
        // It isn't 0, which stands for a client without a transaction.
        let _known = txn.get();
        self.sessions.standing(client, txn)
    }

    /// Whether the client has a copy of the page by this very grant.
    pub fn has_row(&self, client: ClientNo, page: PageNo, grant: GrantNo) -> bool
        requires agree { PartsAgree self.now }
        requires client { HasClient self.now client }
        requires page { HasPage self.now page }
        ensures { result ≡ has_row (server_of self.now) client page grant }
    {
        self.directory.row(client, page) == Some(grant)
    }

    /// Whether no client but this one has a copy of the page.
    pub fn sole_row(&self, client: ClientNo, page: PageNo) -> bool
        requires agree { PartsAgree self.now }
        requires page { HasPage self.now page }
        ensures { result
            ≡ sole_row (server_of self.now) page client (server_of self.now).clients }
    {
        let mut others = self.directory.rows_of_page(page);
        others.remove(client);
        others.first().is_none()
    }

    /// Whether the client has the page's write permission. Then no other client has a copy.
    pub fn is_write_holder(&self, client: ClientNo, page: PageNo) -> bool
        requires agree { PartsAgree self.now }
        requires page { HasPage self.now page }
        ensures value { result ≡ is_write_holder (server_of self.now) client page }
        ensures sole { result ≡ true
            → sole_row (server_of self.now) page client (server_of self.now).clients ≡ true }
    {
        self.directory.holder(page) == Some(client)
    }

    /// Whether no client but this one has the page's write permission.
    pub fn no_other_holder(&self, client: ClientNo, page: PageNo) -> bool
        requires agree { PartsAgree self.now }
        requires page { HasPage self.now page }
        ensures { result ≡ no_other_holder ((server_of self.now).store.holder page) client }
    {
        match self.directory.holder(page) {
            Some(holder) => holder == client,
            None => true,
        }
    }

    /// Whether the client's permission for the page would belong to its live transaction: that
    /// transaction lives, and has the number of the one that was last permitted to write the page.
    pub fn is_live_permission(&self, client: ClientNo, page: PageNo) -> bool
        requires agree { PartsAgree self.now }
        requires client { HasClient self.now client }
        requires page { HasPage self.now page }
        ensures { result ≡ is_live_permission (server_of self.now) client page }
    {
        self.sessions.session(client).transaction.is_live()
            && self.directory.tag(page) == self.sessions.session(client).transaction.txn()
    }
}
