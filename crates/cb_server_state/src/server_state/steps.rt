//! The steps that change what the server has of a client; each is the protocol's own.
ghost use Rattle.std.specs.Prelude.{◌≡◌, ℕ, ◌<◌, true, [], ◌∷◌};
ghost use Rattle.cb_protocol.specs.Server.{ChangeSession, ForgetTransaction};
ghost use Rattle.cb_protocol.specs.Session.{Admit, BeginTransaction, DropTransaction};
ghost use Rattle.cb_protocol.specs.Session.{EndPermission, RemoveRow, has_live_txn};
ghost use Rattle.cb_server_state.specs.States.{Does, HasClient, HasPage, PartsAgree, server_of};

use crate::ServerState;
use crate::server_state::forget;
use cb_page::{ClientNo, Incarnation, PageNo, TxnNo};

impl ServerState {
    /// A greater incarnation of the client becomes current: all of the old one goes.
    pub fn admit(&mut self, client: ClientNo, incarnation: Incarnation)
        requires agree { PartsAgree self.old }
        requires client { HasClient self.old client }
        requires newer { ((server_of self.old).session client).current < incarnation }
        ensures agree { PartsAgree self.new }
        ensures does { Does self.old
            (ForgetTransaction client ∷ ChangeSession client (Admit incarnation) ∷ []) self.new }
    {
        self.directory.forget_client(client);
        self.sessions.hello(client, incarnation);
        forget(&mut self.asks, &mut self.marks, client);
    }

    /// A later transaction of the client begins; the one before it, if it lives, ends as dropped.
    pub fn begin(&mut self, client: ClientNo, txn: TxnNo)
        requires agree { PartsAgree self.old }
        requires client { HasClient self.old client }
        requires later { ((server_of self.old).session client).txn < txn }
        ensures agree { PartsAgree self.new }
        ensures does { Does self.old
            (ForgetTransaction client ∷ ChangeSession client (BeginTransaction txn) ∷ []) self.new }
    {
        if self.sessions.session(client).transaction.is_live() {
            self.directory.clear_writers(client);
        }
        self.sessions.begin(client, txn);
        forget(&mut self.asks, &mut self.marks, client);
    }

    /// The client's live transaction ends as dropped, and its permissions with it.
    pub fn drop_transaction(&mut self, client: ClientNo)
        requires agree { PartsAgree self.old }
        requires client { HasClient self.old client }
        requires live { has_live_txn ((server_of self.old).session client) ≡ true }
        ensures agree { PartsAgree self.new }
        ensures does { Does self.old
            (ForgetTransaction client
            ∷ ChangeSession client (DropTransaction ((server_of self.old).session client).txn)
            ∷ []) self.new }
    {
        self.directory.clear_writers(client);
        self.sessions.end(client, None);
        forget(&mut self.asks, &mut self.marks, client);
    }

    /// The client's copy of the page was given back. A permission that is kept goes with it.
    pub fn give_back(&mut self, client: ClientNo, page: PageNo)
        requires agree { PartsAgree self.old }
        requires client { HasClient self.old client }
        requires page { HasPage self.old page }
        ensures agree { PartsAgree self.new }
        ensures does { (grant : ℕ) → Does self.old
            (ChangeSession client (RemoveRow page grant) ∷ []) self.new }
    {
        self.directory.give_back(client, page);
        if self.keep_write {
            self.directory.clear_writer_if(client, page);
        }
    }

    /// The client is not the page's write holder any more; its copy stays.
    pub fn end_permission(&mut self, client: ClientNo, page: PageNo)
        requires agree { PartsAgree self.old }
        requires client { HasClient self.old client }
        requires page { HasPage self.old page }
        ensures agree { PartsAgree self.new }
        ensures does { (grant tag : ℕ) → Does self.old
            (ChangeSession client (EndPermission page grant tag) ∷ []) self.new }
    {
        self.directory.clear_writer_if(client, page);
    }
}
