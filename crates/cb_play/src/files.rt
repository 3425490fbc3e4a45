//! The files that the words name.
ghost use Rattle.std.specs.Prelude.{◌≡◌, ◌∷◌, ◌++◌, [], codes, IfOk, MatchOption};
ghost use Rattle.std.specs.Io.KnownBytes.{Appends};
ghost use Rattle.cb_console.specs.Escaped.{escaped};

use cb_console::Escaped;
use std::io::Write;
use std::{fs, io};

/// The bytes of a file. If it can't be read that is said, and there are none; it fails if memory is
/// refused.
pub(crate) fn read_file<E: Write>(
    rt: &HostRuntime,
    path: &str,
    err: &mut E,
) -> io::Result<Option<Vec<u8>>>
    ensures { IfOk result (λ read. MatchOption read
        (Appends (E.contents err.old) (E.contents err.new)
        (codes "cannot read " ++ (escaped path.now ++ 10 ∷ [])))
        (λ _. E.contents err.new ≡ E.contents err.old)) }
{
    match fs::read(rt, path) {
        Ok(bytes) => Ok(Some(bytes)),
        Err(error) if error.kind() == io::ErrorKind::OutOfMemory => Err(error),
        Err(_) => {
            let path = Escaped(path);
            writeln!(err, "cannot read {path}")?;
            Ok(None)
        }
    }
}

/// The text of a file. If it can't be read, or isn't text, that is said, and there is none.
pub(crate) fn read_text<E: Write>(
    rt: &HostRuntime,
    command: &str,
    path: &str,
    err: &mut E,
) -> io::Result<Option<String>> {
    let Some(bytes) = read_file(rt, path, err)? else {
        return Ok(None);
    };
    match String::from_utf8(bytes) {
        Ok(text) => Ok(Some(text)),
        Err(_) => {
            writeln!(err, "{command}: text")?;
            Ok(None)
        }
    }
}
