//! The direct answers to messages, once their transactions have begun.
ghost use Rattle.std.specs.Prelude.{◌≡◌, ℕ, OnErr, OnOk, false, true};
ghost use Rattle.cb_outbox.specs.Messages.{short_of};
ghost use Rattle.cb_protocol.specs.Messages.{Downgraded, Drop as DropBody, GiveBack, InUse};
ghost use Rattle.cb_protocol.specs.Ranges.{BodyFits};
ghost use Rattle.cb_protocol.specs.Server.{Server, has_not_ended};
ghost use Rattle.cb_protocol.specs.WaitsFor.{on_cycle};
ghost use Rattle.cb_server.specs.Answering.{Begins, CanSay, CanSayTo, HasBegunTold, HasClient};
ghost use Rattle.cb_server.specs.Answering.{HasPage, IsCurrent, IsLeft, IsStanding, Makes, Stands};
ghost use Rattle.cb_server.specs.Answering.{answer_to, is_ask_read, limits_in, server_in};
ghost use Rattle.cb_server.specs.Taking.{may_be_answered};

use crate::engine::Engine;
use cb_frame::ShortBody;
use cb_links::Standing;
use cb_page::{ClientNo, GrantNo, Incarnation, PageNo, TxnNo};
use std::alloc::AllocError;

/// How a message's transaction stands, once it has begun.
#[derive(Clone, Copy)]
pub(crate) enum Begun {
    /// It is the current one.
    Live,
    /// It is the current one, and the victim of a deadlock.
    Doomed,
    /// It has ended, or a later one has begun.
    Ended,
}

impl Begun {
    /// Whether it has not ended.
    pub(crate) fn lives(self) -> bool
        ensures { (server : Server) (client txn : ℕ) → Stands self server client txn
            → has_not_ended server client txn ≡ result }
    {
        match self {
            Begun::Live | Begun::Doomed => true,
            Begun::Ended => false,
        }
    }
}

impl Engine {
    /// Another message without page bytes than AskRead is answered; its transaction begins where it
    /// is a later one.
    ///
    /// `AllocError` only where memory was refused for an ask's place; then nothing has begun
    /// either.
    pub(crate) fn answer(
        &mut self,
        client: ClientNo,
        incarnation: Incarnation,
        body: ShortBody,
    ) -> Result<(), AllocError>
        requires client { HasClient self.old client }
        requires current { IsCurrent self.old client incarnation }
        requires fits { BodyFits (limits_in self.old) (short_of body) }
        requires other { is_ask_read (short_of body) ≡ false }
        requires room { CanSayTo (short_of body) self.old }
        ensures ok { OnOk result (Makes self.old (answer_to on_cycle client (short_of body))
            self.new) }
        ensures needed { OnErr result (may_be_answered (short_of body) ≡ true) }
        ensures left { OnErr result (IsLeft self.old self.new) }
    {
        match body {
            ShortBody::AskRead { .. } => unreachable!(),
            ShortBody::AskWrite { txn, page, grant } => {
                self.ask_write(client, incarnation, txn, page, grant)
            }
            ShortBody::GiveBack { page, grant } => Ok(self.give_back(client, page, grant)),
            ShortBody::InUse { txn, page, grant } => Ok(self.in_use(client, txn, page, grant)),
            ShortBody::Drop { txn } => Ok(self.drop_transaction(client, txn)),
            ShortBody::Downgraded { page, grant, txn } => {
                Ok(self.downgraded(client, page, grant, txn))
            }
            _ => Ok(()),
        }
    }

    /// The transaction, which stands so, begins where it is a later one. How it stands then is
    /// answered.
    fn begin(&mut self, client: ClientNo, txn: TxnNo, standing: Standing) -> Begun
        requires client { HasClient self.old client }
        requires stands { IsStanding self.old client txn standing }
        ensures begins { Begins self.old client txn self.new }
        ensures stands { Stands result (server_in self.new) client txn }
    {
        match standing {
            Standing::Later => {
                self.callbacks.begin(client, txn);
                Begun::Live
            }
            Standing::Live => Begun::Live,
            Standing::Doomed => Begun::Doomed,
            Standing::Ended => Begun::Ended,
        }
    }

    /// The transaction of an ask or a commit, which stands so, begins where it is a later one; a
    /// doomed one's client hears AbortNow. How it stands then is answered.
    pub(crate) fn begin_or_abort(
        &mut self,
        client: ClientNo,
        incarnation: Incarnation,
        txn: TxnNo,
        standing: Standing,
    ) -> Begun
        requires client { HasClient self.old client }
        requires current { IsCurrent self.old client incarnation }
        requires stands { IsStanding self.old client txn standing }
        requires room { CanSay self.old }
        ensures { HasBegunTold result self.old client txn self.new }
    {
        match self.begin(client, txn, standing) {
            Begun::Live => Begun::Live,
            Begun::Doomed => {
                self.outbox
                    .say(client, incarnation, ShortBody::AbortNow { txn });
                Begun::Doomed
            }
            Begun::Ended => Begun::Ended,
        }
    }

    /// GiveBack: the copy of that grant goes.
    fn give_back(&mut self, client: ClientNo, page: PageNo, grant: GrantNo)
        requires client { HasClient self.old client }
        requires page { HasPage self.old page }
        ensures { Makes self.old (answer_to on_cycle client (GiveBack page grant)) self.new }
    {
        if self.callbacks.state().has_row(client, page, grant) {
            self.callbacks.give_back(client, page);
        }
    }

    /// InUse: the copy of that grant is marked as in use.
    fn in_use(&mut self, client: ClientNo, txn: TxnNo, page: PageNo, grant: GrantNo)
        requires client { HasClient self.old client }
        requires page { HasPage self.old page }
        ensures { Makes self.old (answer_to on_cycle client (InUse txn page grant)) self.new }
    {
        let standing = self.callbacks.state().standing(client, txn);
        if !self.begin(client, txn, standing).lives() {
            return;
        }
        if self.callbacks.state().has_row(client, page, grant) {
            self.callbacks.mark_in_use(client, page);
        }
    }

    /// Drop: the transaction ends as dropped.
    fn drop_transaction(&mut self, client: ClientNo, txn: TxnNo)
        requires client { HasClient self.old client }
        ensures { Makes self.old (answer_to on_cycle client (DropBody txn)) self.new }
    {
        let standing = self.callbacks.state().standing(client, txn);
        if self.begin(client, txn, standing).lives() {
            self.callbacks.drop_transaction(client);
        }
    }

    /// Downgraded: the write permission of that very grant and tag ends, where such are kept.
    fn downgraded(&mut self, client: ClientNo, page: PageNo, grant: GrantNo, tag: TxnNo)
        requires client { HasClient self.old client }
        requires page { HasPage self.old page }
        ensures { Makes self.old (answer_to on_cycle client (Downgraded page grant tag)) self.new }
    {
        if self.callbacks.has_kept_permission(client, page, grant, tag) {
            self.callbacks.end_permission(client, page);
        }
    }
}
