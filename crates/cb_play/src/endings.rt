//! How the program ends if a writer fails, or memory is wanted.
ghost use Rattle.std.specs.IoError.{error_kind};
ghost use Rattle.cb_play.specs.Endings.{IsFailed};

use cb_console::NO_MEMORY;
use std::io;
use std::io::{ErrorKind, Write};

/// A writer failed.
const CANNOT_WRITE: u8 = 5;

/// The status of a run that failed, which is said on `err`: `memory`, or `cannot write`. Of a
/// closed pipe nothing is said.
pub(crate) fn end_by<E: Write>(error: &io::Error, err: &mut E) -> u8
    ensures { IsFailed (error_kind error.now) result }
{
    match error.kind() {
        ErrorKind::OutOfMemory => {
            say(err, "memory");
            NO_MEMORY
        }
        ErrorKind::BrokenPipe => CANNOT_WRITE,
        _ => {
            say(err, "cannot write");
            CANNOT_WRITE
        }
    }
}

/// Says a line. If it can't be written there is nobody else to tell.
fn say<E: Write>(err: &mut E, line: &str) {
    let _ = writeln!(err, "{line}");
}
