//! Plays lists of frames and calls to one side alone, a client or a server. It prints each line of
//! a list with that side's answers, in the form of the lists themselves (`docs/FORMATS.md`).
//! Whoever writes a client or a server of their own can compare its bytes with these.
#![tactic(auto)]

mod client_side;
mod frames;
mod references;
mod server_side;
mod words;

use crate::words::{CLIENT, SERVER};
use std::alloc::Global;
use std::io;
use std::io::Write;

/// Plays all lists of a text, one after another. A list begins with its side and its limits. Lines
/// that begin with `<` or with the words of an answer aren't read, but printed anew. A server's
/// list passes over any other line whose first word it doesn't know. It fails with `InvalidData` at
/// a line that lacks a word, or has a word that can't be read.
pub fn play_lists<O: Write>(alloc: Global, text: &str, out: &mut O) -> io::Result<()> {
    let lines: Vec<&str> = text.lines().collect(alloc)?;
    let mut rest = lines.as_slice();
    for line in lines.as_slice() {
        rest = rest.get(1..).unwrap_or(rest);
        play_list(alloc, line, rest, out)?;
    }
    Ok(())
}

/// Plays the list that this line opens, if it opens one; what follows it ends where another begins.
fn play_list<O: Write>(
    alloc: Global,
    line: &str,
    following: &[&str],
    out: &mut O,
) -> io::Result<()> {
    if line.starts_with(CLIENT) {
        writeln!(out, "{line}")?;
        return client_side::play_list(alloc, line, following, out);
    }
    if line.starts_with(SERVER) {
        writeln!(out, "{line}")?;
        return server_side::play_list(alloc, line, following, out);
    }
    Ok(())
}
