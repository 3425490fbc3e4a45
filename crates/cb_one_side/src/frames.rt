//! Frames that are answered, and bytes, by their digits.

use cb_frame::{Frame, encode};
use cb_page::Limits;
use std::alloc::Global;
use std::io;
use std::io::Write;

/// Prints the digits of bytes.
pub(crate) fn put_digits<O: Write>(alloc: Global, bytes: &[u8], out: &mut O) -> io::Result<()> {
    let digits = hex::encode(alloc, bytes)?;
    out.write_all(digits.as_bytes())
}

/// Prints a frame that was answered.
fn put_frame<O: Write>(
    alloc: Global,
    limits: &Limits,
    frame: &Frame,
    out: &mut O,
) -> io::Result<()> {
    if !frame.fits(limits) {
        return writeln!(out, "< a frame that doesn't fit");
    }
    let bytes = encode(alloc, frame)?;
    out.write_all(b"< ")?;
    put_digits(alloc, bytes.as_slice(), out)?;
    writeln!(out)
}

/// Prints the frames that were answered.
pub(crate) fn put_frames<O: Write>(
    alloc: Global,
    limits: &Limits,
    frames: &[Frame],
    out: &mut O,
) -> io::Result<()> {
    for frame in frames {
        put_frame(alloc, limits, frame, out)?;
    }
    Ok(())
}
