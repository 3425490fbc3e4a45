//! Commits.
ghost use Rattle.std.specs.Prelude.{◌≡◌, false, true, IfErr, IfOk, List, OnErr, OnOk};
ghost use Rattle.cb_outbox.specs.Messages.{body_of, page_writes};
ghost use Rattle.cb_protocol.specs.Messages.{Commit, PageWrite};
ghost use Rattle.cb_protocol.specs.Server.{has_not_ended};
ghost use Rattle.cb_protocol.specs.ServerMessages.{take_commit, take_current};
ghost use Rattle.cb_protocol.specs.WaitsFor.{on_cycle};
ghost use Rattle.cb_server.specs.Answering.{Awaits, AwaitsBody, CanSay, FitsIn, FitsStore};
ghost use Rattle.cb_server.specs.Answering.{HasClient, HasLimits, IsCurrent, IsLeft, IsReady};
ghost use Rattle.cb_server.specs.Answering.{IsStanding, LacksNumber, Makes, Meets, answer_to};
ghost use Rattle.cb_server.specs.Answering.{applies, server_in};
ghost use Rattle.cb_server.specs.Taking.{is_exhaustion};

use crate::engine::answers::Begun;
use crate::engine::{Engine, Headway};
use crate::server_fault::ServerFault;
use cb_frame::{Body, ShortBody, Writes};
use cb_links::Standing;
use cb_page::{ClientNo, Incarnation, Limits, TxnNo};
use std::alloc::{AllocError, AllocFailed, Global};

impl Engine {
    /// Takes a commit of the current incarnation, unless it is to be applied.
    pub(crate) fn meet_commit(
        &mut self,
        alloc: Global,
        limits: &Limits,
        client: ClientNo,
        incarnation: Incarnation,
        txn: TxnNo,
        writes: &Writes,
    ) -> Result<Headway, ServerFault>
        requires ready { IsReady self.old }
        requires of { HasLimits self.old limits.now }
        requires client { HasClient self.old client }
        requires current { IsCurrent self.old client incarnation }
        requires fits { FitsStore self.old writes.now }
        ensures ok { IfOk result (λ headway. Meets self.old
            (λ server. take_current on_cycle server client (Commit txn (page_writes writes.now)))
            client incarnation (Commit txn (page_writes writes.now)) headway self.new) }
        ensures taken { OnOk result
            (LacksNumber self.old client (Commit txn (page_writes writes.now)) false) }
        ensures err { IfErr result (λ fault. LacksNumber self.old client
            (Commit txn (page_writes writes.now)) (is_exhaustion fault)) }
        ensures left { OnErr result (IsLeft self.old self.new) }
    {
        let standing = self.callbacks.state().standing(client, txn);
        let is_applied = self.is_applied(client, txn, standing, writes);
        if self.lacks_number_if_applied(client, txn, is_applied) {
            return Err(ServerFault::Exhausted);
        }
        self.reserve(alloc, limits, 1, 0)?;
        if is_applied {
            return Ok(Headway::Applies(standing));
        }
        self.pass_over(client, incarnation, txn, standing);
        self.settle();
        Ok(Headway::Taken)
    }

    /// Whether a commit would be applied, and no commit number is left for it.
    pub(crate) fn lacks_commit(&self, client: ClientNo, txn: TxnNo, writes: &Writes) -> bool
        requires client { HasClient self.now client }
        requires fits { FitsStore self.now writes.now }
        ensures { LacksNumber self.now client (Commit txn (page_writes writes.now)) result }
    {
        let standing = self.callbacks.state().standing(client, txn);
        let is_applied = self.is_applied(client, txn, standing, writes);
        self.lacks_number_if_applied(client, txn, is_applied)
    }

    /// Whether no number is left for the client's commit, of which it was asked whether it would be
    /// applied.
    fn lacks_number_if_applied(&self, client: ClientNo, txn: TxnNo, is_applied: bool) -> bool
        ensures { (writes : List PageWrite)
            → is_applied ≡ applies (server_in self.now) client txn writes
            → LacksNumber self.now client (Commit txn writes) result }
    {
        is_applied && self.callbacks.state().commits.next_number().is_none()
    }

    /// Whether a commit would be applied, whose transaction stands so.
    fn is_applied(&self, client: ClientNo, txn: TxnNo, standing: Standing, writes: &Writes) -> bool
        requires client { HasClient self.now client }
        requires fits { FitsStore self.now writes.now }
        requires stands { IsStanding self.now client txn standing }
        ensures { result ≡ applies (server_in self.now) client txn (page_writes writes.now) }
    {
        let state = self.callbacks.state();
        match standing {
            Standing::Later => state.commit_allowed_later(client, writes.as_slice()),
            Standing::Live => state.commit_allowed(client, writes.as_slice()),
            Standing::Doomed => false,
            Standing::Ended => false,
        }
    }

    /// A commit that isn't applied, whose transaction stands so: it begins where it is a later one.
    /// Of the transaction that ended last the commit is a repetition.
    fn pass_over(
        &mut self,
        client: ClientNo,
        incarnation: Incarnation,
        txn: TxnNo,
        standing: Standing,
    )
        requires client { HasClient self.old client }
        requires current { IsCurrent self.old client incarnation }
        requires stands { IsStanding self.old client txn standing }
        requires room { CanSay self.old }
        ensures { (writes : List PageWrite) → applies (server_in self.old) client txn writes ≡ false
            → Makes self.old (answer_to on_cycle client (Commit txn writes)) self.new }
    {
        match self.begin_or_abort(client, incarnation, txn, standing) {
            Begun::Live => {}
            Begun::Doomed => {}
            Begun::Ended => self.done_again(client, incarnation, txn),
        }
    }

    /// A commit of which `meet` said that it is to be applied, and how its transaction stands, is
    /// applied, and all pages are settled.
    ///
    /// Refused only if memory was; then the pages come back, and nothing changes.
    pub(crate) fn apply(
        &mut self,
        client: ClientNo,
        incarnation: Incarnation,
        txn: TxnNo,
        standing: Standing,
        writes: Writes,
    ) -> Result<(), AllocFailed<Writes>>
        requires client { HasClient self.old client }
        requires fits { FitsStore self.old writes }
        requires waits { Awaits self.old client incarnation txn standing (page_writes writes) }
        ensures ok { OnOk result (Makes self.old (λ server.
            take_current on_cycle server client (Commit txn (page_writes writes))) self.new) }
        ensures left { OnErr result (IsLeft self.old self.new) }
        ensures back { IfErr result (λ failed. failed.value ≡ writes) }
    {
        self.commit(client, incarnation, txn, standing, writes)?;
        self.settle();
        Ok(())
    }

    /// The same of a commit's body that is lent: its pages are copied.
    ///
    /// `AllocError` only if memory was refused; nothing changes then.
    pub(crate) fn apply_copy(
        &mut self,
        alloc: Global,
        client: ClientNo,
        incarnation: Incarnation,
        standing: Standing,
        body: &Body,
    ) -> Result<(), AllocError>
        requires client { HasClient self.old client }
        requires fits { FitsIn self.old body.now }
        requires waits { AwaitsBody self.old client incarnation standing (body_of body.now) }
        ensures ok { OnOk result (Makes self.old
            (λ server. take_current on_cycle server client (body_of body.now)) self.new) }
        ensures left { OnErr result (IsLeft self.old self.new) }
    {
        let Body::Commit { txn, writes } = body else {
            unreachable!()
        };
        let copy = Writes::copy_of(alloc, writes.as_slice())?;
        Ok(self.apply(client, incarnation, *txn, standing, copy)?)
    }

    /// The same of a commit's body that is handed over: it comes back where memory is refused.
    pub(crate) fn apply_body(
        &mut self,
        client: ClientNo,
        incarnation: Incarnation,
        standing: Standing,
        body: Body,
    ) -> Result<(), (ServerFault, Body)>
        requires client { HasClient self.old client }
        requires fits { FitsIn self.old body }
        requires waits { AwaitsBody self.old client incarnation standing (body_of body) }
        ensures ok { OnOk result (Makes self.old
            (λ server. take_current on_cycle server client (body_of body)) self.new) }
        ensures err { IfErr result (λ refused. refused.0 ≡ ServerFault.Memory) }
        ensures left { OnErr result (IsLeft self.old self.new) }
        ensures back { IfErr result (λ refused. refused.1 ≡ body) }
    {
        let Body::Commit { txn, writes } = body else {
            unreachable!()
        };
        match self.apply(client, incarnation, txn, standing, writes) {
            Ok(()) => Ok(()),
            Err(failed) => Err((
                ServerFault::Memory,
                Body::Commit {
                    txn,
                    writes: failed.value,
                },
            )),
        }
    }

    /// The commit is applied, and its transaction ends; a later one begins first.
    fn commit(
        &mut self,
        client: ClientNo,
        incarnation: Incarnation,
        txn: TxnNo,
        standing: Standing,
        writes: Writes,
    ) -> Result<(), AllocFailed<Writes>>
        requires client { HasClient self.old client }
        requires current { IsCurrent self.old client incarnation }
        requires fits { FitsStore self.old writes }
        requires stands { IsStanding self.old client txn standing }
        requires number { LacksNumber self.old client (Commit txn (page_writes writes)) false }
        requires applies { applies (server_in self.old) client txn (page_writes writes) ≡ true }
        ensures ok { OnOk result (Makes self.old
            (answer_to on_cycle client (Commit txn (page_writes writes))) self.new) }
        ensures left { OnErr result (IsLeft self.old self.new) }
        ensures back { IfErr result (λ failed. failed.value ≡ writes) }
    {
        match standing {
            Standing::Later => {
                self.callbacks
                    .commit_later(client, incarnation, txn, writes)?;
            }
            _ => {
                self.callbacks
                    .apply_commit(client, incarnation, txn, writes)?;
            }
        }
        Ok(())
    }

    /// A commit of a transaction that has ended: of the last one it is a repetition, and its client
    /// hears Done again where it is on disk.
    fn done_again(&mut self, client: ClientNo, incarnation: Incarnation, txn: TxnNo)
        requires client { HasClient self.old client }
        requires current { IsCurrent self.old client incarnation }
        requires ended { has_not_ended (server_in self.old) client txn ≡ false }
        requires room { CanSay self.old }
        ensures { (writes : List PageWrite) → Makes self.old
            (λ server. take_commit server client txn writes) self.new }
    {
        let state = self.callbacks.state();
        if state.sessions.session(client).transaction.txn() != Some(txn) {
            return;
        }
        let Some(number) = state.sessions.session(client).transaction.commit() else {
            return;
        };
        if number.get() <= state.commits.last_flushed() {
            let done = ShortBody::Done { txn, number };
            self.outbox.say(client, incarnation, done);
        }
    }
}
