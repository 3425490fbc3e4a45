//! Commits: which may be applied, and applying one.
ghost use Rattle.std.specs.List.{All};
ghost use Rattle.std.specs.Prelude.{◌≡◌, ℕ, ◌<◌, ◌+◌, ◌&&◌, true, [], ◌∷◌, IfOk, OnOk, IfErr};
ghost use Rattle.std.specs.Prelude.{OnErr};
ghost use Rattle.cb_commit.specs.History.{FitsInto};
ghost use Rattle.cb_outbox.specs.Messages.{page_writes};
ghost use Rattle.cb_protocol.specs.Basics.{max_number};
ghost use Rattle.cb_protocol.specs.Server.{ChangeSession, ForgetTransaction, has_row};
ghost use Rattle.cb_protocol.specs.Server.{is_write_holder};
ghost use Rattle.cb_protocol.specs.ServerMessages.{commit_allowed};
ghost use Rattle.cb_protocol.specs.Session.{ApplyCommit, BeginTransaction, has_live_txn};
ghost use Rattle.cb_server_state.specs.Questions.{begun_server};
ghost use Rattle.cb_server_state.specs.States.{Does, HasClient, HasPage, PartsAgree, server_of};

use crate::ServerState;
use crate::server_state::forget;
use cb_frame::{Write, Writes};
use cb_page::{ClientNo, CommitNo, Incarnation, TxnNo};
use std::alloc::AllocFailed;

impl ServerState {
    /// Whether the client has the write permission of each page, and the copy that the commit
    /// names.
    pub fn commit_allowed(&self, client: ClientNo, writes: &[Write]) -> bool
        requires agree { PartsAgree self.now }
        requires client { HasClient self.now client }
        requires pages { All (λ write. HasPage self.now write.page) writes.now }
        ensures { result ≡ commit_allowed (server_of self.now) client (page_writes writes.now) }
    {
        for write in writes {
            if !self.may_write(client, write) {
                return false;
            }
        }
        true
    }

    /// Whether the commit would be allowed once a later transaction of the client had begun. If a
    /// transaction lives, its permissions go with it.
    pub fn commit_allowed_later(&self, client: ClientNo, writes: &[Write]) -> bool
        requires agree { PartsAgree self.now }
        requires client { HasClient self.now client }
        requires pages { All (λ write. HasPage self.now write.page) writes.now }
        ensures { (txn : ℕ) → result ≡ commit_allowed (begun_server (server_of self.now) client txn)
            client (page_writes writes.now) }
    {
        if self.sessions.session(client).transaction.is_live() {
            writes.is_empty()
        } else {
            self.commit_allowed(client, writes)
        }
    }

    /// Whether the client has the page's write permission, and the copy that the write names.
    fn may_write(&self, client: ClientNo, write: &Write) -> bool
        requires agree { PartsAgree self.now }
        requires client { HasClient self.now client }
        requires page { HasPage self.now write.now.page }
        ensures { result ≡ (is_write_holder (server_of self.now) client write.now.page
            && has_row (server_of self.now) client write.now.page write.now.grant) }
    {
        self.is_write_holder(client, write.page) && self.has_row(client, write.page, write.grant)
    }

    /// Commits the client's live transaction, which is handed in, and returns the commit's number.
    /// The commit keeps the pages that are handed in.
    ///
    /// Refused only if memory was; then the pages come back, and nothing changes.
    pub fn apply_commit(
        &mut self,
        client: ClientNo,
        incarnation: Incarnation,
        txn: TxnNo,
        writes: Writes,
    ) -> Result<CommitNo, AllocFailed<Writes>>
        requires agree { PartsAgree self.old }
        requires client { HasClient self.old client }
        requires current { incarnation ≡ ((server_of self.old).session client).current }
        requires txn { txn ≡ ((server_of self.old).session client).txn }
        requires live { has_live_txn ((server_of self.old).session client) ≡ true }
        requires left { (server_of self.old).store.last_commit < max_number }
        requires fit { FitsInto self.old.commits.store writes }
        ensures number { IfOk result (λ number.
            number ≡ (server_of self.old).store.last_commit + 1) }
        ensures agree { PartsAgree self.new }
        ensures ok { OnOk result (Does self.old
            (ForgetTransaction client
            ∷ ChangeSession client (ApplyCommit txn (page_writes writes)) ∷ []) self.new) }
        ensures err { OnErr result (self.new ≡ self.old) }
        ensures back { IfErr result (λ failed. failed.value ≡ writes) }
    {
        let number = self.commits.apply(client, incarnation, txn, writes)?;
        if !self.keep_write {
            self.directory.clear_writers(client);
        }
        self.sessions.end(client, Some(number));
        forget(&mut self.asks, &mut self.marks, client);
        Ok(number)
    }

    /// A later transaction of the client begins and commits; returns the commit's number. The
    /// transaction before it, if it lives, ends as dropped. The commit keeps the pages that are
    /// handed in.
    ///
    /// Refused only if memory was; then the pages come back, and no transaction begins.
    pub fn commit_later(
        &mut self,
        client: ClientNo,
        incarnation: Incarnation,
        txn: TxnNo,
        writes: Writes,
    ) -> Result<CommitNo, AllocFailed<Writes>>
        requires agree { PartsAgree self.old }
        requires client { HasClient self.old client }
        requires current { incarnation ≡ ((server_of self.old).session client).current }
        requires later { ((server_of self.old).session client).txn < txn }
        requires left { (server_of self.old).store.last_commit < max_number }
        requires fit { FitsInto self.old.commits.store writes }
        ensures number { IfOk result (λ number.
            number ≡ (server_of self.old).store.last_commit + 1) }
        ensures agree { PartsAgree self.new }
        ensures ok { OnOk result (Does self.old
            (ForgetTransaction client ∷ ChangeSession client (BeginTransaction txn)
            ∷ ForgetTransaction client
            ∷ ChangeSession client (ApplyCommit txn (page_writes writes)) ∷ []) self.new) }
        ensures err { OnErr result (self.new ≡ self.old) }
        ensures back { IfErr result (λ failed. failed.value ≡ writes) }
    {
        let commit = self.commits.apply(client, incarnation, txn, writes)?;
        let lives = self.sessions.session(client).transaction.is_live();
        if lives || !self.keep_write {
            self.directory.clear_writers(client);
        }
        self.sessions.begin(client, txn);
        self.sessions.end(client, Some(commit));
        forget(&mut self.asks, &mut self.marks, client);
        Ok(commit)
    }
}
