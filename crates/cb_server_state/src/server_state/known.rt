//! What is there by what the server keeps.
ghost use Rattle.std.specs.Prelude.{◌≡◌, ◌≤◌};
ghost use Rattle.cb_server_state.specs.States.{HasClient, HasPage, PartsAgree, server_of};
ghost use Rattle.cb_server_state.specs.Waits.{HasBegun, IsGreeted};

use crate::ServerState;
use cb_page::{ClientNo, Incarnation, PageNo, TxnNo};

impl ServerState {
    /// The incarnation of a client that has greeted.
    pub(crate) fn incarnation(&self, client: ClientNo) -> Incarnation
        requires client { HasClient self.now client }
        requires greeted { IsGreeted (server_of self.now) client }
        ensures { result ≡ ((server_of self.now).session client).current }
    {
        let Some(incarnation) = self.sessions.session(client).incarnation else {
            unreachable!();
        };
        incarnation
    }

    /// The last transaction of a client that has begun one.
    pub(crate) fn txn(&self, client: ClientNo) -> TxnNo
        requires client { HasClient self.now client }
        requires begun { HasBegun (server_of self.now) client }
        ensures { result ≡ ((server_of self.now).session client).txn }
    {
        let Some(txn) = self.sessions.session(client).transaction.txn() else {
            unreachable!();
        };
        txn
    }

    /// The transaction that was last permitted to write a page.
    pub fn tag(&self, page: PageNo) -> TxnNo
        requires agree { PartsAgree self.now }
        requires page { HasPage self.now page }
        requires tagged { 1 ≤ (server_of self.now).store.tag page }
        ensures { result ≡ (server_of self.now).store.tag page }
    {
        let Some(tag) = self.directory.tag(page) else {
            unreachable!();
        };
        tag
    }
}
