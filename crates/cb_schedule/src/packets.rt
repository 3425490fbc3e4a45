//! The type, how a frame is sent, and how it is found again.
ghost use Rattle.std.specs.Prelude.{◌≡◌, ◌≢◌, ◌<◌, ℕ, [], ◌∷◌, ◌++◌, length, map, take};
ghost use Rattle.std.specs.Prelude.{false, option_copied, slice_get, IfOk, None, OnErr, OnOk};
ghost use Rattle.std.specs.List.{AllByRecursion};
ghost use Rattle.cb_frame.specs.Grammar.{Fits};
ghost use Rattle.cb_frame.specs.Kinds.{is_short, kind_of_body};
ghost use Rattle.cb_frame.specs.Spelling.{spelling};
ghost use Rattle.cb_frame.specs.declared.frame.Frame.{Frame};
ghost use Rattle.cb_schedule.specs.Packets.{IsAt, IsFrameAt};

use crate::packet::{Packet, frame_in};
use cb_frame::{Frame, encode};
use cb_page::Limits;
use std::alloc::{AllocError, Global};
use std::marker::Model;

/// The bytes of every frame that was ever sent, numbered from 0.
pub struct Packets {
    limits: Limits,
    sent: Vec<Packet>,
}

// By hand: see docs/PROVING.md, "Drops".
impl Drop for Packets {
    fn drop(self) {
        let Packets { limits: _, sent: _ } = self;
    }
}

impl Model for Packets {
    ghost use Rattle.cb_schedule.specs.Packets.{ArePackets, PacketsState};

    ghost Value = { PacketsState };

    ghost view = { λ packets. record {
      limits = packets.limits;
      sent = packets.sent.items;
    } };

    ghost invariant = { λ packets. ArePackets (record {
      limits = packets.limits;
      sent = packets.sent.items;
    }) };
}

impl Packets {
    /// No packets yet. It takes no memory.
    pub fn new(alloc: Global, limits: &Limits) -> Packets
        ensures { result ≡ record { limits = limits.now; sent = [] } }
    {
        // The limits are in range by their type: each call on them says so.
        let _known = limits.clients();
        Packets {
            limits: *limits,
            sent: Vec::new(alloc),
        }
    }

    /// How many packets were ever sent.
    pub fn len(&self) -> usize
        ensures { result ≡ length self.now.sent }
    {
        self.sent.len()
    }

    /// Sends a frame: its bytes become the last packet. `AllocError` only if memory was refused;
    /// then nothing is sent.
    pub fn send(&mut self, alloc: Global, frame: &Frame) -> Result<(), AllocError>
        requires { Fits self.old.limits frame.now }
        ensures ok { OnOk result (self.new
            ≡ record self.old { sent = self.old.sent ++ spelling frame.now ∷ [] }) }
        ensures err { OnErr result (self.new ≡ self.old) }
    {
        // The limits are in range by their type: each call on them says so.
        let _known = self.limits.pages();
        let bytes = encode(alloc, frame)?;
        let packet = Packet::new(bytes);
        self.sent.push(packet)?;
        Ok(())
    }

    /// Sends frames, in order. `AllocError` only if memory was refused; then none is sent.
    pub fn send_all(&mut self, alloc: Global, frames: &[Frame]) -> Result<(), AllocError>
        requires { AllByRecursion (Fits self.old.limits) frames.now }
        ensures ok { OnOk result (self.new
            ≡ record self.old { sent = self.old.sent ++ map spelling frames.now }) }
        ensures err { OnErr result (self.new ≡ self.old) }
        ensures fails { OnErr result (0 < length frames.now) }
    {
        let before = self.len();
        let sent = self.send_each(alloc, frames);
        if sent.is_err() {
            self.keep(before);
        }
        sent
    }

    /// The same; if memory is refused the first of them may have been sent.
    fn send_each(&mut self, alloc: Global, frames: &[Frame]) -> Result<(), AllocError>
        requires { AllByRecursion (Fits self.old.limits) frames.now }
        ensures ok { OnOk result (self.new
            ≡ record self.old { sent = self.old.sent ++ map spelling frames.now }) }
        ensures err { OnErr result ((n : ℕ) × (self.new
            ≡ record self.old { sent = self.old.sent ++ map spelling (take n frames.now) })) }
        ensures fails { OnErr result (0 < length frames.now) }
    {
        for frame in frames {
            self.send(alloc, frame)?;
        }
        Ok(())
    }

    /// Keeps the first so many packets. What was sent last is taken back.
    pub fn keep(&mut self, count: usize)
        ensures { self.new ≡ record self.old { sent = take count self.old.sent } }
    {
        self.sent.truncate(count);
    }

    /// The bytes of the packet of that number; `None` if it was not sent yet.
    pub fn bytes(&self, number: u64) -> Option<&[u8]>
        ensures { option_copied result ≡ slice_get self.now.sent number }
    {
        match self.sent.get(number as usize) {
            Some(packet) => Some(packet.as_slice()),
            None => None,
        }
    }

    /// The frame of the packet of that number; `None` if it was not sent yet. `AllocError` only if
    /// memory for the bytes of its pages was refused; so never at a frame without pages.
    pub fn frame(&self, alloc: Global, number: u64) -> Result<Option<Frame>, AllocError>
        ensures ok { IfOk result (IsAt self.now number) }
        ensures fails { OnErr result (slice_get self.now.sent number ≢ None) }
        ensures pages { OnErr result ((frame : Frame) → IsFrameAt self.now number frame
            → is_short (kind_of_body frame.body) ≡ false) }
    {
        // A look at a field tells the prover what holds of all packets.
        let limits = &self.limits;
        match self.bytes(number) {
            Some(bytes) => {
                let frame = frame_in(alloc, limits, bytes)?;
                Ok(Some(frame))
            }
            None => Ok(None),
        }
    }
}
