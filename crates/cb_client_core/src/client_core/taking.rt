//! What a frame of its server's makes of a client, by the frame's kind.
ghost use Rattle.std.specs.Prelude.{◌≡◌, ◌<◌, ℕ, List, true, false, IfErr, IfOk, IsOk, OnErr};
ghost use Rattle.std.specs.Vec.{vec_capacity};
ghost use Rattle.cb_client_core.specs.ByTable.{Takes, limits_at};
ghost use Rattle.cb_client_core.specs.ClientState.{IsClient};
ghost use Rattle.cb_client_core.specs.Receiving.{BringsSo, IfBrings, IsBrought, Receives};
ghost use Rattle.cb_client_core.specs.Parts.{client_in};
ghost use Rattle.cb_client_core.specs.Room.{brings_in, room_at};
ghost use Rattle.cb_frame.specs.Grammar.{BodyFits, ShortFits};
ghost use Rattle.cb_page.specs.Numbers.{IsNumber};
ghost use Rattle.cb_outbox.specs.Messages.{body_of, messages_of, short_of};
ghost use Rattle.cb_protocol.specs.Messages.{Downgrade, Granted};
ghost use Rattle.cb_protocol.specs.Ranges.{BodyFits as MessageFits};

use crate::client_core::ClientCore;
use crate::client_core::granted::GrantCase;
use cb_frame::{Body, Frame, ShortBody};
use cb_page::{GrantNo, Page, PageNo, TxnNo, Version};
use cb_twoq::Chooser;
use std::alloc::{AllocError, AllocFailed, Global};

/// How far a message was taken.
pub enum Received {
    /// Whole, and the client says this.
    Said(Vec<Frame>),
    /// Not yet, since it brings a page into the pool: nothing has changed.
    Brings(GrantCase),
}

impl<Q: Chooser> ClientCore<Q> {
    /// Takes the body of a frame of its own number and incarnation, and returns the frames that the
    /// client sends in answer. A body for the server is ignored. Before the Welcome, so is every
    /// body but the Welcome. The bytes of a page that comes in are moved.
    ///
    /// It is refused only if a growth was; then nothing changes, and the body comes back. It makes
    /// room for the frames that the message may need and no more. It needs no memory, and so isn't
    /// refused, if the message needs no frame and no page comes into the pool.
    pub fn take_owned(&mut self, alloc: Global, body: Body) -> Result<Vec<Frame>, AllocFailed<Body>>
        requires sound { IsClient (client_in self.old) }
        requires body { BodyFits self.old.copies.limits body }
        ensures ok { IfOk result (λ said. Takes (client_in self.old) (body_of body)
            (messages_of said.items) (client_in self.new)) }
        ensures err { OnErr result (self.new ≡ self.old) }
        ensures back { IfErr result (λ failed. failed.value ≡ body) }
        ensures room { IfOk result (λ said. vec_capacity said
            ≡ room_at (client_in self.old) (body_of body)) }
        ensures none { room_at (client_in self.old) (body_of body) ≡ 0
            → brings_in (client_in self.old) (body_of body) ≡ false → IsOk result }
        ensures sound { IsClient (client_in self.new) }
    {
        match self.receive(alloc, &body) {
            Err(_) => Err(AllocFailed { value: body }),
            Ok(Received::Said(said)) => Ok(said),
            Ok(Received::Brings(case)) => self.bring_body_in(alloc, case, body),
        }
    }

    /// Takes a body as `take_owned` does, unless it brings a page into the pool: whoever has the
    /// page's bytes then calls `bring_in`.
    pub fn receive(&mut self, alloc: Global, body: &Body) -> Result<Received, AllocError>
        requires sound { IsClient (client_in self.old) }
        requires body { BodyFits self.old.copies.limits body.now }
        ensures receives { IfOk result (λ received.
            Receives (client_in self.old) (body_of body.now) received (client_in self.new)) }
        ensures brings { IfOk result (λ received. IfBrings received (self.new ≡ self.old)) }
        ensures err { OnErr result (self.new ≡ self.old) }
        ensures none { room_at (client_in self.old) (body_of body.now) ≡ 0 → IsOk result }
        ensures sound { IsClient (client_in self.new) }
    {
        match body {
            Body::Short(body) => Ok(Received::Said(self.take_short(alloc, *body)?)),
            Body::Commit { .. } => Ok(Received::Said(Vec::new(alloc))),
            Body::Granted {
                page,
                grant,
                version,
                ..
            } => self.receive_granted(alloc, *page, *grant, *version),
        }
    }

    /// Takes a Granted, whatever its bytes, unless it brings its page in.
    fn receive_granted(
        &mut self,
        alloc: Global,
        page: PageNo,
        grant: GrantNo,
        version: Version,
    ) -> Result<Received, AllocError>
        requires sound { IsClient (client_in self.old) }
        requires page { page < self.old.copies.limits.pages }
        requires grant { IsNumber grant }
        ensures receives { IfOk result (λ received. (bytes : List ℕ) → Receives (client_in self.old)
            (Granted page grant version bytes) received (client_in self.new)) }
        ensures brings { IfOk result (λ received. IfBrings received (self.new ≡ self.old)) }
        ensures err { OnErr result (self.new ≡ self.old) }
        ensures none { (bytes : List ℕ)
            → room_at (client_in self.old) (Granted page grant version bytes) ≡ 0 → IsOk result }
        ensures sound { (bytes : List ℕ) → MessageFits (limits_at (client_in self.old))
            (Granted page grant version bytes) → IsClient (client_in self.new) }
    {
        if !self.welcomed {
            return Ok(Received::Said(Vec::new(alloc)));
        }
        let case = self.case_of(page, grant, version);
        if case.comes_in() {
            return Ok(Received::Brings(case));
        }
        let mut frames = Vec::with_capacity(alloc, self.room_of_grant(case))?;
        if let Some(frame) = self.turn_away(case, page, grant) {
            frames.push_reserved(frame);
        }
        Ok(Received::Said(frames))
    }

    /// Takes the body of a Granted whose page comes in.
    fn bring_body_in(
        &mut self,
        alloc: Global,
        case: GrantCase,
        body: Body,
    ) -> Result<Vec<Frame>, AllocFailed<Body>>
        requires sound { IsClient (client_in self.old) }
        requires body { BodyFits self.old.copies.limits body }
        requires brings { BringsSo (client_in self.old) (body_of body) case }
        ensures ok { IfOk result (λ said. Takes (client_in self.old) (body_of body)
            (messages_of said.items) (client_in self.new)) }
        ensures err { OnErr result (self.new ≡ self.old) }
        ensures back { IfErr result (λ failed. failed.value ≡ body) }
        ensures room { IfOk result (λ said. vec_capacity said
            ≡ room_at (client_in self.old) (body_of body)) }
        ensures sound { IsClient (client_in self.new) }
    {
        let Body::Granted {
            page,
            grant,
            version,
            bytes,
        } = body
        else {
            unreachable!()
        };
        match self.bring_in(alloc, case, page, grant, version, bytes) {
            Ok(said) => Ok(said),
            Err(failed) => Err(AllocFailed {
                value: Body::Granted {
                    page,
                    grant,
                    version,
                    bytes: failed.value,
                },
            }),
        }
    }

    /// Takes a body without page bytes.
    fn take_short(&mut self, alloc: Global, body: ShortBody) -> Result<Vec<Frame>, AllocError>
        requires sound { IsClient (client_in self.old) }
        requires body { ShortFits self.old.copies.limits body }
        ensures ok { IfOk result (λ said. Takes (client_in self.old) (short_of body)
            (messages_of said.items) (client_in self.new)) }
        ensures err { OnErr result (self.new ≡ self.old) }
        ensures room { IfOk result (λ said. vec_capacity said
            ≡ room_at (client_in self.old) (short_of body)) }
        ensures none { room_at (client_in self.old) (short_of body) ≡ 0 → IsOk result }
        ensures sound { IsClient (client_in self.new) }
    {
        if let ShortBody::Welcome = body {
            self.take_welcome();
            return Ok(Vec::new(alloc));
        }
        if !self.welcomed {
            return Ok(Vec::new(alloc));
        }
        match body {
            ShortBody::Callback { page, grant } => {
                let mut frames = Vec::with_capacity(alloc, 1)?;
                frames.push_reserved(self.take_callback(page, grant));
                Ok(frames)
            }
            ShortBody::Downgrade { page, grant, txn } => self.say_downgrade(
                alloc, page, grant, txn,
            ),
            ShortBody::MayWrite { txn, page, grant } => {
                self.take_may_write(txn, page, grant);
                Ok(Vec::new(alloc))
            }
            ShortBody::Done { txn, number } => self.take_done(alloc, txn, number),
            ShortBody::AbortNow { txn } => self.take_abort(alloc, txn),
            _ => Ok(Vec::new(alloc)),
        }
    }

    /// Takes a Downgrade, which is ignored if permissions aren't kept.
    fn say_downgrade(
        &mut self,
        alloc: Global,
        page: PageNo,
        grant: GrantNo,
        tag: TxnNo,
    ) -> Result<Vec<Frame>, AllocError>
        requires sound { IsClient (client_in self.old) }
        requires welcomed { self.old.welcomed ≡ true }
        requires fits { MessageFits (limits_at (client_in self.old)) (Downgrade page grant tag) }
        ensures ok { IfOk result (λ said. Takes (client_in self.old) (Downgrade page grant tag)
            (messages_of said.items) (client_in self.new)) }
        ensures err { OnErr result (self.new ≡ self.old) }
        ensures room { IfOk result (λ said. vec_capacity said
            ≡ room_at (client_in self.old) (Downgrade page grant tag)) }
        ensures none { room_at (client_in self.old) (Downgrade page grant tag) ≡ 0 → IsOk result }
        ensures sound { IsClient (client_in self.new) }
    {
        if !self.copies.limits().keep_write() {
            return Ok(Vec::new(alloc));
        }
        let mut frames = Vec::with_capacity(alloc, 1)?;
        frames.push_reserved(self.take_downgrade(page, grant, tag));
        Ok(frames)
    }

    /// Takes a Granted whose page comes in, as `receive` answered. It is refused only if a growth
    /// was; then nothing changes, and the bytes come back.
    pub fn bring_in(
        &mut self,
        alloc: Global,
        case: GrantCase,
        page: PageNo,
        grant: GrantNo,
        version: Version,
        bytes: Page,
    ) -> Result<Vec<Frame>, AllocFailed<Page>>
        requires sound { IsClient (client_in self.old) }
        requires fits { MessageFits (limits_at (client_in self.old))
            (Granted page grant version bytes) }
        requires brings { IsBrought (client_in self.old) page grant version case }
        ensures ok { IfOk result (λ said. Takes (client_in self.old)
            (Granted page grant version bytes)
            (messages_of said.items) (client_in self.new)) }
        ensures err { OnErr result (self.new ≡ self.old) }
        ensures back { IfErr result (λ failed. failed.value ≡ bytes) }
        ensures room { IfOk result (λ said. vec_capacity said
            ≡ room_at (client_in self.old) (Granted page grant version bytes)) }
        ensures sound { IsClient (client_in self.new) }
    {
        let Ok(mut frames) = Vec::with_capacity(alloc, self.room_of_grant(case)) else {
            return Err(AllocFailed { value: bytes });
        };
        if let Some(frame) = self.take_in(case, page, grant, version, bytes)? {
            frames.push_reserved(frame);
        }
        Ok(frames)
    }
}
