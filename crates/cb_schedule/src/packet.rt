//! A packet, and the frame that it is.
ghost use Rattle.std.specs.Prelude.{◌≡◌, false, IfOk, OnErr};
ghost use Rattle.cb_frame.specs.Grammar.{IsFrame};
ghost use Rattle.cb_frame.specs.Kinds.{is_short, kind_of_body};
ghost use Rattle.cb_frame.specs.declared.frame.Frame.{Frame};

use cb_frame::{Frame, FrameFault, decode};
use cb_page::Limits;
use std::alloc::{AllocError, Global};
use std::marker::Model;

/// A packet that was sent: the bytes of a frame.
#[derive(Drop)]
pub(crate) struct Packet {
    bytes: Vec<u8>,
}

impl Model for Packet {
    ghost use Rattle.std.specs.Prelude.{List, ℕ};

    ghost Value = { List ℕ };

    ghost view = { λ packet. packet.bytes.items };
}

impl Packet {
    pub(crate) fn new(bytes: Vec<u8>) -> Packet
        ensures { result ≡ bytes.items }
    {
        Packet { bytes }
    }

    pub(crate) fn as_slice(&self) -> &[u8]
        ensures { result.now ≡ self.now }
    {
        self.bytes.as_slice()
    }
}

/// The frame that is spelled. It is refused only if memory for page bytes is: a spelled frame has
/// no other fault.
pub(crate) fn frame_in(alloc: Global, limits: &Limits, bytes: &[u8]) -> Result<Frame, AllocError>
    requires { (frame : Frame) × IsFrame limits.now frame bytes.now }
    ensures found { (frame : Frame) → IsFrame limits.now frame bytes.now
        → IfOk result (λ found. found ≡ frame) }
    ensures memory { OnErr result ((frame : Frame) → IsFrame limits.now frame bytes.now
        → is_short (kind_of_body frame.body) ≡ false) }
{
    match decode(alloc, limits, bytes) {
        Ok((frame, _)) => Ok(frame),
        Err(fault) => match fault {
            FrameFault::Memory => Err(AllocError),
            _ => unreachable!(),
        },
    }
}
