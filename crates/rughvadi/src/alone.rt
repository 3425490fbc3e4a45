//! Calls that need no handle.
ghost use Rattle.std.specs.Prelude.{◌≡◌, ◌≢◌, ◌<◌, ◌≤◌, IfOk, OnErr, drop, length, take};
ghost use Rattle.cb_handle.specs.Causes.{Decides, IsAnswer, reading_may};
ghost use Rattle.cb_handle.specs.Faults.{fault_text};
ghost use Rattle.rughvadi.specs.Heads.{Heads, IsHeadOf, head_cause};
ghost use Rattle.rughvadi.specs.Limits.{bounds_of};

use crate::answers::answer;
use crate::limits::{StoreLimits, limits_of};
use cb_frame::{Frame, decode};
use cb_handle::{HandleRefusal, fault_text};
use std::alloc::Global;

/// What the header of a frame says, as C gets it.
#[repr(C)]
#[derive(Clone, Copy)]
pub struct FrameHead {
    /// The frame's bytes, the header's among them.
    pub length: u64,
    /// The client that it comes from or goes to.
    pub client: u32,
    /// The code of its kind.
    pub kind: u32,
    /// The incarnation of the client.
    pub incarnation: u64,
}

/// The head of a frame of so many bytes.
fn head_of(frame: &Frame, size: usize) -> FrameHead
    ensures { Heads frame.now size result }
{
    FrameHead {
        length: size as u64,
        client: u32::from(frame.client.get()),
        kind: u32::from(frame.kind().code()),
        incarnation: frame.incarnation.get(),
    }
}

/// Reads the frame at the front of the bytes: its length, client, incarnation and kind.
fn read(
    alloc: Global,
    limits: &StoreLimits,
    bytes: &[u8],
    head: &mut FrameHead,
) -> Result<(), HandleRefusal>
    ensures head { IfOk result (λ _. IsHeadOf (bounds_of limits.now) bytes.now head.new) }
    ensures why { Decides (head_cause (bounds_of limits.now) bytes.now) (reading_may bytes.now)
        result }
    ensures kept { OnErr result (head.new ≡ head.old) }
{
    let limits = limits_of(limits)?;
    // In range by their type: `page_size` says so.
    let _known = limits.page_size();
    match decode(alloc, &limits, bytes) {
        Ok((frame, used)) => {
            *head = head_of(&frame, used);
            Ok(())
        }
        Err(fault) => Err(HandleRefusal::Frame(fault)),
    }
}

/// Reads the frame at the front of the bytes. Nothing else happens. By this call a host cuts a
/// stream into frames, and learns whose they are.
#[unsafe(no_mangle)]
pub extern "C" fn rughvadi_frame_read(
    alloc: Global,
    limits: &StoreLimits,
    bytes: &[u8],
    head: &mut FrameHead,
) -> u32
    ensures done { result ≡ 0 → IsHeadOf (bounds_of limits.now) bytes.now head.new }
    ensures why { IsAnswer (head_cause (bounds_of limits.now) bytes.now) (reading_may bytes.now)
        result }
    ensures kept { result ≢ 0 → head.new ≡ head.old }
{
    answer(read(alloc, limits, bytes, head))
}

/// The version of these calls. It changes if a call changes in what it takes or does.
const VERSION: u32 = 1;

/// The version of these calls.
#[unsafe(no_mangle)]
pub extern "C" fn rughvadi_version() -> u32
    ensures { result ≡ 1 }
{
    VERSION
}

/// Writes the text of a fault's number to the front of the room, and puts its length into `size`.
/// If the room is too short, it returns 772 and writes nothing there.
#[unsafe(no_mangle)]
pub extern "C" fn rughvadi_fault_text(fault: u32, room: &mut [u8], size: &mut usize) -> u32
    ensures size { size.new ≡ length (fault_text fault) }
    ensures text { result ≡ 0 → take size.new room.new ≡ fault_text fault }
    ensures rest { result ≡ 0 → drop size.new room.new ≡ drop size.new room.old }
    ensures within { result ≡ 0 → size.new ≤ length room.old }
    ensures kept { result ≢ 0 → room.new ≡ room.old }
    ensures room { result ≢ 0 → (result ≡ 772) × (length room.old < size.new) }
{
    let text = fault_text(fault).as_bytes();
    *size = text.len();
    if text.len() > room.len() {
        return HandleRefusal::Room.number();
    }
    put_front(text, room);
    0
}

/// Copies the bytes to the front of the room.
#[tactic(auto, using(std::proofs::lemmas::List::take_at))]
fn put_front(bytes: &[u8], room: &mut [u8])
    requires { length bytes.now ≤ length room.old }
    ensures front { take (length bytes.now) room.new ≡ bytes.now }
    ensures rest { drop (length bytes.now) room.new ≡ drop (length bytes.now) room.old }
{
    room[..bytes.len()].copy_from_slice(bytes);
}
