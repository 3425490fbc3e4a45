//! Frames and bytes that go out.
ghost use Rattle.std.specs.Prelude.{◌≡◌, ◌++◌, ℕ, take, IfErr, OnErr, OnOk};
ghost use Rattle.std.specs.Io.KnownBytes.{Appends};
ghost use Rattle.std.specs.List.{AllByRecursion, flat_map};
ghost use Rattle.cb_frame.specs.Grammar.{Fits};
ghost use Rattle.cb_frame.specs.Spelling.{spelling};
ghost use Rattle.cb_serve.specs.Calls.{IsFinal};

use crate::calls::{RefusedCall, flush, write_some};
use cb_frame::{Frame, encode};
use cb_page::Limits;
use std::alloc::{AllocError, Global};
use std::io::Write;

/// Appends the bytes of frames.
pub(crate) fn append_frames(
    alloc: Global,
    limits: &Limits,
    frames: &[Frame],
    bytes: &mut Vec<u8>,
) -> Result<(), AllocError>
    requires { AllByRecursion (Fits limits.now) frames.now }
    ensures { OnOk result (bytes.new.items ≡ bytes.old.items ++ flat_map spelling frames.now) }
{
    // In range by their type: `pages` says so.
    let _in_range = limits.pages();
    for frame in frames {
        let spelled = encode(alloc, frame)?;
        bytes.extend_from_slice(spelled.as_slice())?;
    }
    Ok(())
}

/// Puts bytes out, and leaves none of them in a buffer of the writer's. If that is refused, the
/// first ones of them went out.
pub(crate) fn put_out<W: Write>(output: &mut W, bytes: &[u8]) -> Result<(), RefusedCall>
    ensures ok { OnOk result
        (Appends (W.contents output.old) (W.contents output.new) bytes.now) }
    ensures err { OnErr result ((n : ℕ)
        × Appends (W.contents output.old) (W.contents output.new) (take n bytes.now)) }
    ensures last { IfErr result IsFinal }
{
    let mut at = 0;
    while at < bytes.len() {
        let count = write_some(output, &bytes[at..])?;
        at += count;
    }
    flush(output)
}
