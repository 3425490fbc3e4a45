//! Frames that come.
ghost use Rattle.std.specs.Prelude.{◌≡◌, ◌≢◌, ◌==◌, ◌&&◌, Err, false, IfErr, IfOk, IsOk, OnErr};
ghost use Rattle.std.specs.Prelude.{slice_index};
ghost use Rattle.std.specs.List.{AllByRecursion};
ghost use Rattle.std.specs.Vec.{vec_capacity};
ghost use Rattle.cb_frame.specs.Checks.{has_pages, kind_of};
ghost use Rattle.cb_frame.specs.declared.fault.BytesFault.TheVariants as reading;
ghost use Rattle.cb_frame.specs.declared.fault.FrameFault.TheVariants as fault;
ghost use Rattle.cb_frame.specs.Grammar.{Fits};
ghost use Rattle.cb_client.specs.ByTable.{Takes};
ghost use Rattle.cb_client.specs.FramesTaken.{IsBytesFault, TakesBytes, TakesFrame, brings_page};
ghost use Rattle.cb_client.specs.FramesTaken.{room_to_take};
ghost use Rattle.cb_client.specs.declared.client_fault.ClientFault.TheVariants.{Memory};
ghost use Rattle.cb_outbox.specs.Messages.{messages_of};

use crate::client::Client;
use crate::client_fault::ClientFault;
use cb_client_core::Received;
use cb_frame::{Body, BytesFault, Frame, decode};
use cb_page::{ClientNo, Incarnation, Page};
use cb_twoq::Chooser;
use std::alloc::Global;

impl<Q: Chooser> Client<Q> {
    /// Takes a frame, and returns the frames that the client sends in answer. A frame for another
    /// client or another incarnation is ignored, and so is one for the server. Before the Welcome,
    /// so is every frame but the Welcome.
    ///
    /// `Memory` only if a growth was refused. It makes room for the frames that it may send and no
    /// more: for none if a page comes in and a slot is free. It needs no memory, and so isn't
    /// refused, if it sends nothing and no page comes in; at an ignored frame, for instance. The
    /// bytes of a page that comes in are copied, and no others.
    pub fn take(&mut self, alloc: Global, frame: &Frame) -> Result<Vec<Frame>, ClientFault>
        requires { Fits self.old.copies.limits frame.now }
        ensures ok { IfOk result (λ said. TakesFrame self.old frame.now (messages_of said.items)
            self.new) }
        ensures err { IfErr result (λ fault. fault ≡ Memory) }
        ensures unchanged { OnErr result (self.new ≡ self.old) }
        ensures room { IfOk result (λ said. vec_capacity said
            ≡ room_to_take self.old frame.now) }
        ensures none { room_to_take self.old frame.now ≡ 0
            → brings_page self.old frame.now ≡ false → IsOk result }
        ensures fits { IfOk result (λ said.
            AllByRecursion (Fits self.old.copies.limits) said.items) }
    {
        if !self.is_addressed(frame.client, frame.incarnation) {
            return Ok(Vec::new(alloc));
        }
        let case = match self.core.receive(alloc, &frame.body)? {
            Received::Said(said) => return Ok(said),
            Received::Brings(case) => case,
        };
        let Body::Granted {
            page,
            grant,
            version,
            bytes,
        } = &frame.body
        else {
            unreachable!()
        };
        let copy = Page::copy_of(alloc, bytes.as_slice())?;
        match self
            .core
            .bring_in(alloc, case, *page, *grant, *version, copy)
        {
            Ok(said) => Ok(said),
            Err(_) => Err(ClientFault::Memory),
        }
    }

    /// As `take`, but the frame is handed over: the bytes of a page that comes in are moved, and
    /// the frame comes back with a fault.
    pub fn take_owned(
        &mut self,
        alloc: Global,
        frame: Frame,
    ) -> Result<Vec<Frame>, (ClientFault, Frame)>
        requires { Fits self.old.copies.limits frame }
        ensures ok { IfOk result (λ said. TakesFrame self.old frame (messages_of said.items)
            self.new) }
        ensures err { IfErr result (λ refused. refused.0 ≡ Memory) }
        ensures back { IfErr result (λ refused. refused.1 ≡ frame) }
        ensures unchanged { OnErr result (self.new ≡ self.old) }
        ensures room { IfOk result (λ said. vec_capacity said ≡ room_to_take self.old frame) }
        ensures none { room_to_take self.old frame ≡ 0 → brings_page self.old frame ≡ false
            → IsOk result }
        ensures fits { IfOk result (λ said.
            AllByRecursion (Fits self.old.copies.limits) said.items) }
    {
        let Frame {
            client,
            incarnation,
            body,
        } = frame;
        if !self.is_addressed(client, incarnation) {
            return Ok(Vec::new(alloc));
        }
        let failed = match self.core.take_owned(alloc, body) {
            Ok(said) => return Ok(said),
            Err(failed) => failed,
        };
        let frame = Frame {
            client,
            incarnation,
            body: failed.value,
        };
        Err((ClientFault::Memory, frame))
    }

    /// Takes the frame at the front of the bytes, whatever follows it. Returns the frames that the
    /// client sends in answer, and how many bytes the frame has.
    pub fn take_bytes(
        &mut self,
        alloc: Global,
        bytes: &[u8],
    ) -> Result<(Vec<Frame>, usize), BytesFault<ClientFault>>
        ensures ok { IfOk result (λ answered. TakesBytes self.old bytes.now answered.1
            (messages_of answered.0.items) (vec_capacity answered.0) self.new) }
        ensures err { IfErr result (IsBytesFault self.old bytes.now) }
        ensures memory { has_pages (kind_of (slice_index bytes.now 1)) ≡ false →
            result ≢ Err (reading.Frame fault.Memory) }
        ensures unchanged { OnErr result (self.new ≡ self.old) }
        ensures fits { IfOk result (λ answered.
            AllByRecursion (Fits self.old.copies.limits) answered.0.items) }
    {
        match decode(alloc, self.core.copies.limits(), bytes) {
            Err(fault) => Err(BytesFault::Frame(fault)),
            Ok((frame, used)) => match self.take_owned(alloc, frame) {
                Ok(said) => Ok((said, used)),
                Err(refused) => Err(BytesFault::Taker(refused.0)),
            },
        }
    }

    /// Whether a frame for that incarnation of that client is for this one.
    fn is_addressed(&self, client: ClientNo, incarnation: Incarnation) -> bool
        ensures { result ≡ ((client == self.now.no)
            && (incarnation == self.now.incarnation)) }
    {
        client == self.core.no && incarnation == self.core.incarnation
    }
}
