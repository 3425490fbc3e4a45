//! Transactions and incarnations end: their asks and marks go.
ghost use Rattle.std.specs.Prelude.{◌≡◌, ◌∷◌, ◌<◌, ◌≤◌, ◌+◌, [], true, IfErr, IfOk, OnOk};
ghost use Rattle.std.specs.Prelude.{OnErr};
ghost use Rattle.std.specs.Vec.{vec_capacity, vec_len};
ghost use Rattle.cb_callbacks.specs.Following.{FollowsAll, FollowsPages};
ghost use Rattle.cb_commit.specs.History.{FitsInto};
ghost use Rattle.cb_outbox.specs.Messages.{messages_of, page_writes};
ghost use Rattle.cb_protocol.specs.Basics.{max_number};
ghost use Rattle.cb_protocol.specs.Flush.{can_flush, server_flush};
ghost use Rattle.cb_protocol.specs.Server.{ChangeSession, ForgetTransaction};
ghost use Rattle.cb_protocol.specs.Session.{Admit, ApplyCommit, BeginTransaction, DropTransaction};
ghost use Rattle.cb_protocol.specs.Session.{has_live_txn};
ghost use Rattle.cb_protocol.specs.World.{messages_sent};
ghost use Rattle.cb_server_state.specs.States.{Does, HasClient, PartsAgree, forgot, server_of};
ghost use Rattle.cb_server_state.specs.Waits.{Waits};

use crate::Callbacks;
use crate::callbacks::changes::follow_page;
use cb_frame::{Frame, Writes};
use cb_page::{ClientNo, ClientSet, CommitNo, Incarnation, TxnNo};
use cb_server_state::ServerState;
use cb_waits::View;
use std::alloc::{AllocError, AllocFailed, Global};

impl Callbacks {
    /// A greater incarnation of the client becomes current: all of the old one goes.
    pub fn admit(&mut self, client: ClientNo, incarnation: Incarnation)
        requires client { HasClient self.old.state client }
        requires newer { ((server_of self.old.state).session client).current < incarnation }
        ensures { Does self.old.state
            (ForgetTransaction client ∷ ChangeSession client (Admit incarnation) ∷ [])
            self.new.state }
    {
        self.state.admit(client, incarnation);
        follow_all(&mut self.view, &self.state, client);
    }

    /// A later transaction of the client begins; the one before it, if it lives, ends as dropped.
    pub fn begin(&mut self, client: ClientNo, txn: TxnNo)
        requires client { HasClient self.old.state client }
        requires later { ((server_of self.old.state).session client).txn < txn }
        ensures { Does self.old.state
            (ForgetTransaction client ∷ ChangeSession client (BeginTransaction txn) ∷ [])
            self.new.state }
    {
        self.state.begin(client, txn);
        follow_all(&mut self.view, &self.state, client);
    }

    /// The client's live transaction ends as dropped.
    pub fn drop_transaction(&mut self, client: ClientNo)
        requires client { HasClient self.old.state client }
        requires live { has_live_txn ((server_of self.old.state).session client) ≡ true }
        ensures { Does self.old.state
            (ForgetTransaction client
            ∷ ChangeSession client
            (DropTransaction ((server_of self.old.state).session client).txn) ∷ [])
            self.new.state }
    {
        self.state.drop_transaction(client);
        follow_all(&mut self.view, &self.state, client);
    }

    /// Commits the client's live transaction, which is handed in, and returns the commit's number.
    /// The commit keeps the pages that are handed in.
    ///
    /// Refused only if memory was; then the pages come back, and nothing changes.
    pub fn apply_commit(
        &mut self,
        client: ClientNo,
        incarnation: Incarnation,
        txn: TxnNo,
        writes: Writes,
    ) -> Result<CommitNo, AllocFailed<Writes>>
        requires client { HasClient self.old.state client }
        requires current { incarnation ≡ ((server_of self.old.state).session client).current }
        requires txn { txn ≡ ((server_of self.old.state).session client).txn }
        requires live { has_live_txn ((server_of self.old.state).session client) ≡ true }
        requires left { (server_of self.old.state).store.last_commit < max_number }
        requires fit { FitsInto self.old.state.commits.store writes }
        ensures number { IfOk result (λ number.
            number ≡ (server_of self.old.state).store.last_commit + 1) }
        ensures ok { OnOk result (Does self.old.state
            (ForgetTransaction client
            ∷ ChangeSession client (ApplyCommit txn (page_writes writes)) ∷ [])
            self.new.state) }
        ensures err { OnErr result (self.new ≡ self.old) }
        ensures back { IfErr result (λ failed. failed.value ≡ writes) }
    {
        let number = self.state.apply_commit(client, incarnation, txn, writes)?;
        follow_all(&mut self.view, &self.state, client);
        Ok(number)
    }

    /// A later transaction of the client begins and commits; returns the commit's number. The
    /// transaction before it, if it lives, ends as dropped. The commit keeps the pages that are
    /// handed in.
    ///
    /// Refused only if memory was; then the pages come back, and no transaction begins.
    pub fn commit_later(
        &mut self,
        client: ClientNo,
        incarnation: Incarnation,
        txn: TxnNo,
        writes: Writes,
    ) -> Result<CommitNo, AllocFailed<Writes>>
        requires client { HasClient self.old.state client }
        requires current { incarnation ≡ ((server_of self.old.state).session client).current }
        requires later { ((server_of self.old.state).session client).txn < txn }
        requires left { (server_of self.old.state).store.last_commit < max_number }
        requires fit { FitsInto self.old.state.commits.store writes }
        ensures number { IfOk result (λ number.
            number ≡ (server_of self.old.state).store.last_commit + 1) }
        ensures ok { OnOk result (Does self.old.state
            (ForgetTransaction client ∷ ChangeSession client (BeginTransaction txn)
            ∷ ForgetTransaction client
            ∷ ChangeSession client (ApplyCommit txn (page_writes writes)) ∷ [])
            self.new.state) }
        ensures err { OnErr result (self.new ≡ self.old) }
        ensures back { IfErr result (λ failed. failed.value ≡ writes) }
    {
        let commit = self.state.commit_later(client, incarnation, txn, writes)?;
        follow_all(&mut self.view, &self.state, client);
        Ok(commit)
    }

    /// The commits up to this number are on disk now. Returns a Done for each that wasn't before,
    /// in order, in a list with no more room than that.
    ///
    /// `AllocError` only if memory was refused.
    pub fn flushed(&mut self, alloc: Global, number: CommitNo) -> Result<Vec<Frame>, AllocError>
        requires { can_flush (server_of self.old.state) number ≡ true }
        ensures dones { IfOk result (λ frames. messages_of frames.items
            ≡ messages_sent (server_flush (server_of self.old.state) number)) }
        ensures room { IfOk result (λ frames. vec_capacity frames ≡ vec_len frames) }
        ensures ok { OnOk result (Does self.old.state
            (server_flush (server_of self.old.state) number) self.new.state) }
        ensures err { OnErr result (self.new ≡ self.old) }
    {
        let dones = self.state.commits.flushed(alloc, number)?;
        Ok(dones)
    }

    /// Forgets the commits up to this number, which are on disk: they leave memory.
    pub fn forget(&mut self, number: CommitNo)
        requires on_disk { number ≤ (server_of self.old.state).flushed }
        ensures { self.new ≡ record self.old { state = forgot self.old.state number } }
    {
        self.state.commits.forget(number);
    }
}

/// The view follows the end of the client's transaction: at each page with asks.
fn follow_all(view: &mut View, state: &ServerState, client: ClientNo)
    requires agree { PartsAgree state.now }
    requires waits { Waits (server_of state.now) }
    ensures { FollowsAll view.old (server_of state.now) client view.new }
{
    view.put_row(client, ClientSet::empty());
    follow_pages(view, state);
}

/// The view follows each page with asks.
pub(crate) fn follow_pages(view: &mut View, state: &ServerState)
    requires agree { PartsAgree state.now }
    requires waits { Waits (server_of state.now) }
    ensures { FollowsPages view.old (server_of state.now) (server_of state.now).pages view.new }
{
    let mut from = 0;
    while let Some(page) = state.asks.next_page(from) {
        follow_page(view, state, page);
        from = page.index() + 1;
    }
}
