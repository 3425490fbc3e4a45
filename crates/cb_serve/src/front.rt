//! What the bytes of a stream begin with.
ghost use Rattle.std.specs.Prelude.{◌≡◌, ◌<◌, ◌^◌, ◌↔◌, false, length, IsTrue, IfOk};
ghost use Rattle.cb_frame.specs.Checks.{body_length, fault_in_bytes};
ghost use Rattle.cb_serve.specs.Fronts.{IsFront, IsWhole};
ghost use Rattle.cb_serve.specs.Streams.{again_header, header_of, is_no_header, is_of_header};
ghost use Rattle.cb_serve.specs.Streams.{whole_length};

use cb_frame::{Frame, FrameFault, decode};
use cb_page::Limits;
use std::alloc::{AllocError, Global};

/// The length of a frame's header.
const HEADER: usize = 16;

/// The header that stands alone and asks the server to resend what may be lost.
const AGAIN: [u8; 16] = [2, 0, 0, 0, 0, 0, 0, 0, 0, 0, 0, 0, 0, 0, 0, 0];

/// What the bytes of a stream begin with.
#[derive(Drop)]
pub(crate) enum Front {
    /// A frame, of that many bytes.
    Frame(Frame, usize),
    /// The header that asks the server to resend what may be lost.
    Again,
    /// As many bytes as their header says, but no frame.
    Unread(usize),
    /// Less than a whole piece.
    Part,
    /// A header that no frame has.
    NoFrame,
}

/// The length that a header gives to the body.
#[tactic(auto, unfolding(cb_frame::specs::Checks::number))]
fn body_length(header: &[u8]) -> usize
    requires { length header.now ≡ 16 }
    ensures value { result ≡ body_length header.now }
    ensures small { result < 2 ^ 32 }
{
    u32::from_be_bytes([header[12], header[13], header[14], header[15]]) as usize
}

/// Whether a fault is one of a header by itself.
fn is_of_header(fault: FrameFault) -> bool
    ensures { result ≡ is_of_header (fault_in_bytes fault) }
{
    match fault {
        FrameFault::Version => true,
        FrameFault::Kind => true,
        FrameFault::Length => true,
        _ => false,
    }
}

/// Whether no frame has this header.
fn is_no_header(alloc: Global, limits: &Limits, header: &[u8]) -> bool
    ensures { result ≡ is_no_header limits.now header.now }
{
    // In range by their type: `pages` says so.
    let _in_range = limits.pages();
    let Err(fault) = decode(alloc, limits, header) else {
        return false;
    };
    is_of_header(fault)
}

/// Whether the header asks the server to resend what may be lost.
fn asks_again(header: &[u8]) -> bool
    ensures { IsTrue result ↔ (header.now ≡ again_header) }
{
    header == AGAIN.as_slice()
}

/// Whether a fault is want of memory.
fn wants_memory(fault: FrameFault) -> bool
    ensures { IsTrue result ↔ (fault ≡ FrameFault.Memory) }
{
    match fault {
        FrameFault::Memory => true,
        _ => false,
    }
}

/// The piece that the bytes are, as many as their header says.
fn read_whole(alloc: Global, limits: &Limits, bytes: &[u8]) -> Result<Front, AllocError>
    requires header { is_no_header limits.now (header_of bytes.now) ≡ false }
    requires whole { length bytes.now ≡ whole_length bytes.now }
    ensures { IfOk result (IsWhole limits.now bytes.now) }
{
    let fault = match decode(alloc, limits, bytes) {
        Ok((frame, used)) => return Ok(Front::Frame(frame, used)),
        Err(fault) => fault,
    };
    if wants_memory(fault) {
        return Err(AllocError);
    }
    Ok(Front::Unread(bytes.len()))
}

/// What the bytes begin with.
pub(crate) fn read_front(alloc: Global, limits: &Limits, bytes: &[u8]) -> Result<Front, AllocError>
    ensures { IfOk result (IsFront limits.now bytes.now) }
{
    if bytes.len() < HEADER {
        return Ok(Front::Part);
    }
    let header = &bytes[..HEADER];
    if is_no_header(alloc, limits, header) {
        if asks_again(header) {
            return Ok(Front::Again);
        }
        return Ok(Front::NoFrame);
    }
    let whole = HEADER + body_length(header);
    if bytes.len() < whole {
        return Ok(Front::Part);
    }
    read_whole(alloc, limits, &bytes[..whole])
}
