//! Command lines from a file.
ghost use Rattle.std.specs.Prelude.{IfOk};
ghost use Rattle.cb_play.specs.Endings.{IsAnswered};

use crate::arguments::request_of;
use crate::endings::end_by;
use crate::files::read_text;
use crate::program::{do_request, tell_words};
use cb_console::{DONE, WRONG_INPUT};
use std::alloc::{AllocError, Global};
use std::io;
use std::io::Write;
use std::sync::Wait;
use std::thread::Threads;
use std::time::Clock;

/// Does the command lines of a file, one after another.
pub(crate) fn do_script<R: Threads + Wait + Clock + Sync, O: Write, E: Write>(
    rt: &HostRuntime,
    threads: &R,
    file: &str,
    out: &mut O,
    err: &mut E,
) -> io::Result<u8>
    ensures { IfOk result IsAnswered }
{
    let Some(text) = read_text(rt, "script", file, err)? else {
        return Ok(WRONG_INPUT);
    };
    for line in text.lines() {
        do_line(rt, threads, line, out)?;
    }
    Ok(DONE)
}

/// Prints a line, what the command of its words prints on either stream, and the status that this
/// would end with.
fn do_line<R: Threads + Wait + Clock + Sync, O: Write>(
    rt: &HostRuntime,
    threads: &R,
    line: &str,
    out: &mut O,
) -> io::Result<()> {
    writeln!(out, "{line}")?;
    let words = words_of(rt.alloc(), line)?;
    let mut said = Vec::new(rt.alloc());
    let done = match request_of(rt.alloc(), words.as_slice()) {
        Ok(request) => match do_request(rt, threads, request, out, &mut said) {
            Ok(ended) => Ok(ended.status),
            Err(error) => Err(error),
        },
        Err(error) => tell_words(rt, words.as_slice(), &error, out, &mut said),
    };
    let status = match done {
        Ok(status) => status,
        Err(error) => end_by(&error, &mut said),
    };
    out.write_all(said.as_slice())?;
    writeln!(out, "status {status}")
}

/// The words of a command line, behind the program's name.
fn words_of(alloc: Global, line: &str) -> Result<Vec<String>, AllocError> {
    let mut words = vec![in alloc; String::from_str(alloc, "cb_play")?]?;
    if line.is_empty() {
        return Ok(words);
    }
    for word in line.split(' ') {
        words.reserve(1)?;
        words.push_reserved(String::from_str(alloc, word)?);
    }
    Ok(words)
}
