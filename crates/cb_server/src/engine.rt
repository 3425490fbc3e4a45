//! What a server does for a message, step by step.
ghost use Rattle.std.specs.Prelude.{◌≡◌, ◌≢◌, ◌==◌, ◌<◌, ◌≤◌, ◌∷◌, [], false, true, IfErr, IfOk};
ghost use Rattle.std.specs.Prelude.{◌+◌, OnErr, OnOk, length, max};
ghost use Rattle.cb_outbox.specs.Messages.{body_of, short_of};
ghost use Rattle.cb_protocol.specs.Messages.{AskRead, Hello, Welcome, to_server};
ghost use Rattle.cb_protocol.specs.Ranges.{BodyFits};
ghost use Rattle.cb_protocol.specs.Resend.{server_again};
ghost use Rattle.cb_protocol.specs.Server.{Send};
ghost use Rattle.cb_protocol.specs.ServerMessages.{admit_incarnation, is_exhausted};
ghost use Rattle.cb_protocol.specs.ServerMessages.{server_take, take_current};
ghost use Rattle.cb_protocol.specs.Settling.{settle_pages};
ghost use Rattle.cb_protocol.specs.WaitsFor.{on_cycle};
ghost use Rattle.cb_protocol.specs.World.{messages_sent};
ghost use Rattle.cb_server.specs.Answering.{CanSettle, FitsIn, HasClient, HasLimits, HasPage};
ghost use Rattle.cb_server.specs.Answering.{HasRoom, IsCurrent, IsLeft, IsReady, LacksNumber};
ghost use Rattle.cb_server.specs.Answering.{Makes, Meets, Serves, asks_in_all, is_ask_read};
ghost use Rattle.cb_server.specs.Answering.{is_hello, limits_in};
ghost use Rattle.cb_server.specs.Answering.{messages_for_body, messages_in_all};
ghost use Rattle.cb_server.specs.Answering.{read_asks_in_all, server_in};
ghost use Rattle.cb_server.specs.Taking.{is_exhaustion, may_want_memory, may_want_room};

mod answers;
mod asks;
mod commit;

use crate::server_fault::ServerFault;
use cb_callbacks::Callbacks;
use cb_frame::{Body, ShortBody};
use cb_links::{Admission, Standing};
use cb_outbox::Outbox;
use cb_page::{ClientNo, Incarnation, Limits, PageNo, TxnNo};
use std::alloc::{AllocError, Global};

/// How far a message has come.
#[derive(Clone, Copy)]
pub(crate) enum Headway {
    /// It was taken.
    Taken,
    /// It is a commit that is to be applied, whose transaction stands so. There is room for what
    /// follows; nothing else changed.
    Applies(Standing),
}

/// What the server has, and what is said while a message is taken.
#[derive(Drop)]
pub(crate) struct Engine {
    pub(crate) callbacks: Callbacks,
    pub(crate) outbox: Outbox,
}

impl Engine {
    /// Takes a message of the client's incarnation. The pages of a commit that is applied are
    /// copied.
    pub(crate) fn take(
        &mut self,
        alloc: Global,
        limits: &Limits,
        client: ClientNo,
        incarnation: Incarnation,
        body: &Body,
    ) -> Result<(), ServerFault>
        requires ready { IsReady self.old }
        requires of { HasLimits self.old limits.now }
        requires client { HasClient self.old client }
        requires fits { FitsIn self.old body.now }
        ensures ok { OnOk result (Serves self.old (λ server.
            server_take on_cycle server client incarnation (body_of body.now)) self.new) }
        ensures taken { OnOk result
            (is_exhausted (server_in self.old) client incarnation (body_of body.now) ≡ false) }
        ensures err { IfErr result (λ fault.
            is_exhausted (server_in self.old) client incarnation (body_of body.now)
            ≡ is_exhaustion fault) }
        ensures needed { OnErr result
            (may_want_memory (server_in self.old) client incarnation (body_of body.now)
            ≡ true) }
        ensures left { OnErr result (IsLeft self.old self.new) }
    {
        let headway = self.meet(alloc, limits, client, incarnation, body)?;
        match headway {
            Headway::Taken => Ok(()),
            Headway::Applies(standing) => {
                Ok(self.apply_copy(alloc, client, incarnation, standing, body)?)
            }
        }
    }

    /// As `take`; the pages of a commit that is applied are moved, and the body comes back with the
    /// fault.
    pub(crate) fn take_owned(
        &mut self,
        alloc: Global,
        limits: &Limits,
        client: ClientNo,
        incarnation: Incarnation,
        body: Body,
    ) -> Result<(), (ServerFault, Body)>
        requires ready { IsReady self.old }
        requires of { HasLimits self.old limits.now }
        requires client { HasClient self.old client }
        requires fits { FitsIn self.old body }
        ensures ok { OnOk result (Serves self.old
            (λ server. server_take on_cycle server client incarnation (body_of body)) self.new) }
        ensures taken { OnOk result
            (is_exhausted (server_in self.old) client incarnation (body_of body) ≡ false) }
        ensures err { IfErr result (λ refused.
            is_exhausted (server_in self.old) client incarnation (body_of body)
            ≡ is_exhaustion refused.0) }
        ensures back { IfErr result (λ refused. refused.1 ≡ body) }
        ensures needed { OnErr result
            (may_want_memory (server_in self.old) client incarnation (body_of body) ≡ true) }
        ensures left { OnErr result (IsLeft self.old self.new) }
    {
        match self.meet(alloc, limits, client, incarnation, &body) {
            Err(fault) => Err((fault, body)),
            Ok(Headway::Taken) => Ok(()),
            Ok(Headway::Applies(standing)) => self.apply_body(client, incarnation, standing, body),
        }
    }

    /// Takes a message of the client's incarnation, unless it is a commit that is to be applied.
    fn meet(
        &mut self,
        alloc: Global,
        limits: &Limits,
        client: ClientNo,
        incarnation: Incarnation,
        body: &Body,
    ) -> Result<Headway, ServerFault>
        requires ready { IsReady self.old }
        requires of { HasLimits self.old limits.now }
        requires client { HasClient self.old client }
        requires fits { FitsIn self.old body.now }
        ensures ok { IfOk result (λ headway. Meets self.old (λ server.
            server_take on_cycle server client incarnation (body_of body.now))
            client incarnation (body_of body.now) headway self.new) }
        ensures taken { OnOk result
            (is_exhausted (server_in self.old) client incarnation (body_of body.now) ≡ false) }
        ensures err { IfErr result (λ fault.
            is_exhausted (server_in self.old) client incarnation (body_of body.now)
            ≡ is_exhaustion fault) }
        ensures needed { OnErr result
            (may_want_memory (server_in self.old) client incarnation (body_of body.now)
            ≡ true) }
        ensures left { OnErr result (IsLeft self.old self.new) }
    {
        if is_hello(body) {
            self.hello(alloc, limits, client, incarnation)?;
            return Ok(Headway::Taken);
        }
        if !self.is_current(client, incarnation) {
            return Ok(Headway::Taken);
        }
        self.meet_current(alloc, limits, client, incarnation, body)
    }

    /// Takes another message than Hello, of the current incarnation, unless it is a commit that is
    /// to be applied.
    fn meet_current(
        &mut self,
        alloc: Global,
        limits: &Limits,
        client: ClientNo,
        incarnation: Incarnation,
        body: &Body,
    ) -> Result<Headway, ServerFault>
        requires ready { IsReady self.old }
        requires of { HasLimits self.old limits.now }
        requires client { HasClient self.old client }
        requires current { IsCurrent self.old client incarnation }
        requires fits { FitsIn self.old body.now }
        ensures ok { IfOk result (λ headway. Meets self.old
            (λ server. take_current on_cycle server client (body_of body.now))
            client incarnation (body_of body.now) headway self.new) }
        ensures taken { OnOk result (LacksNumber self.old client (body_of body.now) false) }
        ensures err { IfErr result (λ fault.
            LacksNumber self.old client (body_of body.now) (is_exhaustion fault)) }
        ensures needed { OnErr result
            (may_want_room (server_in self.old) (body_of body.now) ≡ true) }
        ensures left { OnErr result (IsLeft self.old self.new) }
    {
        match body {
            Body::Commit { txn, writes } => {
                self.meet_commit(alloc, limits, client, incarnation, *txn, writes)
            }
            Body::Granted { .. } => Ok(Headway::Taken),
            Body::Short(body) => {
                self.serve(alloc, limits, client, incarnation, body)?;
                Ok(Headway::Taken)
            }
        }
    }

    /// Takes another message than Hello, of the current incarnation and without page bytes.
    fn serve(
        &mut self,
        alloc: Global,
        limits: &Limits,
        client: ClientNo,
        incarnation: Incarnation,
        body: &ShortBody,
    ) -> Result<(), ServerFault>
        requires ready { IsReady self.old }
        requires of { HasLimits self.old limits.now }
        requires client { HasClient self.old client }
        requires current { IsCurrent self.old client incarnation }
        requires fits { BodyFits (limits_in self.old) (short_of body.now) }
        ensures ok { OnOk result (Serves self.old
            (λ server. take_current on_cycle server client (short_of body.now)) self.new) }
        ensures taken { OnOk result (LacksNumber self.old client (short_of body.now) false) }
        ensures err { IfErr result (λ fault.
            LacksNumber self.old client (short_of body.now) (is_exhaustion fault)) }
        ensures needed { OnErr result
            (may_want_room (server_in self.old) (short_of body.now) ≡ true) }
        ensures left { OnErr result (IsLeft self.old self.new) }
    {
        match body {
            ShortBody::AskRead { txn, page } => {
                self.take_read(alloc, limits, client, incarnation, *txn, *page)
            }
            _ => Ok(self.serve_other(alloc, limits, client, incarnation, body)?),
        }
    }

    /// The same of another message than AskRead, which wants no number.
    fn serve_other(
        &mut self,
        alloc: Global,
        limits: &Limits,
        client: ClientNo,
        incarnation: Incarnation,
        body: &ShortBody,
    ) -> Result<(), AllocError>
        requires ready { IsReady self.old }
        requires of { HasLimits self.old limits.now }
        requires client { HasClient self.old client }
        requires current { IsCurrent self.old client incarnation }
        requires fits { BodyFits (limits_in self.old) (short_of body.now) }
        requires other { is_ask_read (short_of body.now) ≡ false }
        ensures ok { OnOk result (Serves self.old
            (λ server. take_current on_cycle server client (short_of body.now)) self.new) }
        ensures needed { OnErr result
            (may_want_room (server_in self.old) (short_of body.now) ≡ true) }
        ensures left { OnErr result (IsLeft self.old self.new) }
    {
        if !is_for_server(body) {
            return Ok(());
        }
        self.reserve(alloc, limits, messages_for_body(limits, body), 0)?;
        self.answer(client, incarnation, *body)?;
        self.settle();
        Ok(())
    }

    /// Whether no number is left for a message of the client's incarnation.
    pub(crate) fn is_exhausted_by(
        &self,
        client: ClientNo,
        incarnation: Incarnation,
        body: &Body,
    ) -> bool
        requires client { HasClient self.now client }
        requires fits { FitsIn self.now body.now }
        ensures { result
            ≡ is_exhausted (server_in self.now) client incarnation (body_of body.now) }
    {
        self.is_current(client, incarnation) && self.lacks_number(client, body)
    }

    /// Whether the client's current incarnation is this one.
    fn is_current(&self, client: ClientNo, incarnation: Incarnation) -> bool
        requires { HasClient self.now client }
        ensures { result ≡ (incarnation == ((server_in self.now).session client).current) }
    {
        self.callbacks.state().admission(client, incarnation) == Admission::Current
    }

    /// Whether no number would be left for the message, once its transaction has begun.
    fn lacks_number(&self, client: ClientNo, body: &Body) -> bool
        requires client { HasClient self.now client }
        requires fits { FitsIn self.now body.now }
        ensures { LacksNumber self.now client (body_of body.now) result }
    {
        match body {
            Body::Short(body) => self.lacks_grant(client, body),
            Body::Commit { txn, writes } => self.lacks_commit(client, *txn, writes),
            Body::Granted { .. } => false,
        }
    }

    /// The same of a message without page bytes: whether it is an ask to read for which no grant
    /// number would be left.
    fn lacks_grant(&self, client: ClientNo, body: &ShortBody) -> bool
        requires client { HasClient self.now client }
        requires fits { BodyFits (limits_in self.now) (short_of body.now) }
        ensures { LacksNumber self.now client (short_of body.now) result }
    {
        match body {
            ShortBody::AskRead { txn, page } => self.lacks_read(client, *txn, *page),
            _ => false,
        }
    }

    /// Whether no grant number would be left for an AskRead.
    fn lacks_read(&self, client: ClientNo, txn: TxnNo, page: PageNo) -> bool
        requires client { HasClient self.now client }
        requires page { HasPage self.now page }
        ensures { LacksNumber self.now client (AskRead txn page) result }
    {
        let state = self.callbacks.state();
        let standing = state.standing(client, txn);
        let has_row = state.directory.row(client, page).is_some();
        self.callbacks.lacks_grant(client, standing, has_row)
    }

    /// Takes a Hello: of a greater incarnation, which becomes current, or of the current one again.
    fn hello(
        &mut self,
        alloc: Global,
        limits: &Limits,
        client: ClientNo,
        incarnation: Incarnation,
    ) -> Result<(), AllocError>
        requires ready { IsReady self.old }
        requires of { HasLimits self.old limits.now }
        requires client { HasClient self.old client }
        ensures ok { OnOk result (Serves self.old
            (λ server. server_take on_cycle server client incarnation Hello) self.new) }
        ensures needed { OnErr result
            (((server_in self.old).session client).current ≤ incarnation) }
        ensures left { OnErr result (IsLeft self.old self.new) }
    {
        match self.callbacks.state().admission(client, incarnation) {
            Admission::Stale => Ok(()),
            Admission::Current => self.welcome(alloc, client, incarnation),
            Admission::Unknown => self.admit(alloc, limits, client, incarnation),
        }
    }

    /// The current incarnation is welcomed again.
    fn welcome(
        &mut self,
        alloc: Global,
        client: ClientNo,
        incarnation: Incarnation,
    ) -> Result<(), AllocError>
        ensures ok { OnOk result (Serves self.old
            (λ server. Send client incarnation Welcome ∷ []) self.new) }
        ensures left { OnErr result (IsLeft self.old self.new) }
    {
        self.outbox.reserve(alloc, 1, 0)?;
        self.outbox.say(client, incarnation, ShortBody::Welcome);
        Ok(())
    }

    /// A greater incarnation becomes current, and is welcomed.
    fn admit(
        &mut self,
        alloc: Global,
        limits: &Limits,
        client: ClientNo,
        incarnation: Incarnation,
    ) -> Result<(), AllocError>
        requires ready { IsReady self.old }
        requires of { HasLimits self.old limits.now }
        requires client { HasClient self.old client }
        requires newer { ((server_in self.old).session client).current < incarnation }
        ensures ok { OnOk result (Serves self.old
            (λ server. admit_incarnation on_cycle server client incarnation) self.new) }
        ensures left { OnErr result (IsLeft self.old self.new) }
    {
        self.reserve(alloc, limits, 1, 0)?;
        self.callbacks.admit(client, incarnation);
        self.outbox.say(client, incarnation, ShortBody::Welcome);
        self.settle();
        Ok(())
    }

    /// Room for an answer of so many messages and copies of pages, and for settling once that is
    /// given. None is asked for where there is no answer and nobody waits. Whether nobody waits is
    /// answered.
    pub(crate) fn reserve(
        &mut self,
        alloc: Global,
        limits: &Limits,
        messages: usize,
        copies: usize,
    ) -> Result<bool, AllocError>
        requires ready { IsReady self.old }
        requires of { HasLimits self.old limits.now }
        requires few { messages ≤ 33 }
        requires one { copies ≤ 1 }
        ensures ok { OnOk result (HasRoom self.new (messages_in_all self.new + messages)
            (read_asks_in_all self.new + copies)) }
        ensures most { self.new.outbox.spare ≤ max self.old.outbox.spare
            (read_asks_in_all self.old + copies) }
        ensures most_room { self.new.outbox.room ≤ max self.old.outbox.room
            (length self.old.outbox.sent + (messages_in_all self.old + messages)) }
        ensures nobody { IfOk result (λ nobody_waits.
            nobody_waits ≡ (asks_in_all self.old == 0)) }
        ensures callbacks { self.new.callbacks ≡ self.old.callbacks }
        ensures needed { OnErr result (0 < messages + copies + asks_in_all self.old) }
        ensures left { IsLeft self.old self.new }
    {
        let asked = messages;
        let messages = self.callbacks.messages_to_settle(limits) + messages;
        let copies = self.callbacks.read_asks() + copies;
        self.outbox.reserve(alloc, messages, copies)?;
        Ok(messages == asked)
    }

    /// Every page with asks is settled.
    pub(crate) fn settle(&mut self)
        requires { CanSettle self.old }
        ensures { Makes self.old (λ server. settle_pages on_cycle server server.pages) self.new }
    {
        // The law of how much it sends.
        self.callbacks.settling_is_bounded();
        self.callbacks.settle(&mut self.outbox);
    }

    /// Resends what may be lost. Where that is nothing, no room is asked for.
    pub(crate) fn again(&mut self, alloc: Global, limits: &Limits) -> Result<(), AllocError>
        requires of { HasLimits self.old limits.now }
        ensures ok { OnOk result (Serves self.old server_again self.new) }
        ensures needed { OnErr result (messages_sent (server_again (server_in self.old)) ≢ []) }
        ensures callbacks { self.new.callbacks ≡ self.old.callbacks }
        ensures left { OnErr result (IsLeft self.old self.new) }
    {
        let says = self.callbacks.sends_again(limits);
        if !says {
            return Ok(());
        }
        let clients = usize::from(limits.clients());
        let messages = self.callbacks.messages_to_settle(limits) + clients;
        self.outbox.reserve(alloc, messages, 0)?;
        // The law of how much is said.
        self.callbacks.resending_is_bounded();
        self.callbacks.again(limits, &mut self.outbox);
        Ok(())
    }
}

/// Whether the message is a Hello.
fn is_hello(body: &Body) -> bool
    ensures { result ≡ is_hello (body_of body.now) }
{
    match body {
        Body::Short(ShortBody::Hello) => true,
        _ => false,
    }
}

/// Whether the server does anything for a body of that kind: the others go to clients.
fn is_for_server(body: &ShortBody) -> bool
    ensures { result ≡ to_server (short_of body.now) }
{
    match body {
        ShortBody::Welcome
        | ShortBody::MayWrite { .. }
        | ShortBody::Callback { .. }
        | ShortBody::Done { .. }
        | ShortBody::AbortNow { .. }
        | ShortBody::Downgrade { .. } => false,
        _ => true,
    }
}

/// How many messages another body than an AskRead can need beside those for the asks that wait: its
/// answer, or what settling may send for its ask.
fn messages_for_body(limits: &Limits, body: &ShortBody) -> usize
    requires { is_ask_read (short_of body.now) ≡ false }
    ensures messages { result ≡ messages_for_body limits.now.clients (short_of body.now) }
    ensures few { result ≤ 33 }
{
    match body {
        ShortBody::AskWrite { .. } => usize::from(limits.clients()) + 1,
        ShortBody::Hello => 1,
        _ => 0,
    }
}
