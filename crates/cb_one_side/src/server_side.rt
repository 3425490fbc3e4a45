//! A server alone, as a list plays it, over a store of zeros.
//!
//! A call for which memory was refused is made once more, and so is the server itself. A refused
//! call changed nothing. If one growth of the server's is refused, the output is therefore the same
//! as if none is.

use crate::frames::{put_digits, put_frames};
use crate::words::{bytes, is_opening, limits, next_word, number};
use cb_commit::{Batch, Store};
use cb_frame::{BytesFault, Frame, FrameFault};
use cb_page::{CommitNo, Limits};
use cb_server::{Server, ServerFault};
use std::alloc::{AllocError, Global};
use std::io;
use std::io::Write;
use std::str::SplitWhitespace;

/// Plays the list that the line opens: what follows it, up to where another list begins.
pub(crate) fn play_list<O: Write>(
    alloc: Global,
    line: &str,
    following: &[&str],
    out: &mut O,
) -> io::Result<()> {
    let limits = limits(line)?;
    serve(alloc, &limits, following, out)
}

/// Plays a list to a server of these limits.
fn serve<O: Write>(alloc: Global, limits: &Limits, lines: &[&str], out: &mut O) -> io::Result<()> {
    let mut server = match new_server(alloc, limits) {
        Err(AllocError) => new_server(alloc, limits)?,
        Ok(server) => server,
    };
    play_lines(alloc, &mut server, lines, out)
}

/// A new server over a store of zeros.
fn new_server(alloc: Global, limits: &Limits) -> Result<Server, AllocError> {
    let store = Store::zeros(alloc, limits)?;
    Server::new(alloc, limits, store)
}

/// Plays the lines of a list; at its end the commits are printed.
fn play_lines<O: Write>(
    alloc: Global,
    server: &mut Server,
    lines: &[&str],
    out: &mut O,
) -> io::Result<()> {
    for line in lines {
        if is_opening(line) {
            break;
        }
        play(alloc, server, line, out)?;
    }
    put_commits(server, out)
}

/// Plays one line.
fn play<O: Write>(alloc: Global, server: &mut Server, line: &str, out: &mut O) -> io::Result<()> {
    let mut words = line.split_whitespace();
    match words.next() {
        Some(word) => play_word(alloc, server, word, &mut words, out),
        None => Ok(()),
    }
}

/// Plays a line by its first word.
fn play_word<O: Write>(
    alloc: Global,
    server: &mut Server,
    word: &str,
    words: &mut SplitWhitespace<'_>,
    out: &mut O,
) -> io::Result<()> {
    match word {
        ">" => take(alloc, server, next_word(words)?, out),
        "again" => say_again(alloc, server, out),
        "batch" => batch(alloc, server, out),
        _ => play_flush(alloc, server, word, words, out),
    }
}

/// Plays a line of a flush, which was done or couldn't be, by its first word.
fn play_flush<O: Write>(
    alloc: Global,
    server: &mut Server,
    word: &str,
    words: &mut SplitWhitespace<'_>,
    out: &mut O,
) -> io::Result<()> {
    match word {
        "flushed" => flush(alloc, server, number(words)?, out),
        "cannot" => {
            next_word(words)?;
            flush(alloc, server, number(words)?, out)
        }
        _ => Ok(()),
    }
}

/// A frame comes, whose bytes the word spells.
fn take<O: Write>(alloc: Global, server: &mut Server, digits: &str, out: &mut O) -> io::Result<()> {
    writeln!(out, "> {digits}")?;
    let bytes = bytes(alloc, digits)?;
    take_bytes(alloc, server, bytes.as_slice(), out)
}

/// What the server answers to the frame that the bytes begin with.
fn taken(
    alloc: Global,
    server: &mut Server,
    bytes: &[u8],
) -> Result<(Vec<Frame>, usize), BytesFault<ServerFault>> {
    match server.take_bytes(alloc, bytes) {
        Err(BytesFault::Taker(ServerFault::Memory) | BytesFault::Frame(FrameFault::Memory)) => {
            server.take_bytes(alloc, bytes)
        }
        answer => answer,
    }
}

/// A frame of these bytes comes.
fn take_bytes<O: Write>(
    alloc: Global,
    server: &mut Server,
    bytes: &[u8],
    out: &mut O,
) -> io::Result<()> {
    match taken(alloc, server, bytes) {
        Ok((frames, _)) => put_frames(alloc, server.limits(), frames.as_slice(), out),
        Err(BytesFault::Taker(fault)) => writeln!(out, "! {fault:?}"),
        Err(BytesFault::Frame(fault)) => writeln!(out, "! {fault:?}"),
    }
}

/// What is unanswered is sent again.
fn say_again<O: Write>(alloc: Global, server: &mut Server, out: &mut O) -> io::Result<()> {
    writeln!(out, "again")?;
    let frames = match server.again(alloc) {
        Err(AllocError) => server.again(alloc)?,
        Ok(frames) => frames,
    };
    put_frames(alloc, server.limits(), frames.as_slice(), out)
}

/// What there is to write to the disk.
fn batch<O: Write>(alloc: Global, server: &Server, out: &mut O) -> io::Result<()> {
    let batch = match server.batch(alloc) {
        Err(AllocError) => server.batch(alloc)?,
        Ok(batch) => batch,
    };
    match batch {
        Some(batch) => put_batch(alloc, &batch, out),
        None => writeln!(out, "batch none"),
    }
}

/// Prints a batch: its number, then of each page number, version and bytes.
fn put_batch<O: Write>(alloc: Global, batch: &Batch, out: &mut O) -> io::Result<()> {
    write!(out, "batch {number}", number = batch.number().get())?;
    for page in batch.pages() {
        let number = page.page.get();
        let version = page.version.get();
        write!(out, " {number}:{version}:")?;
        put_digits(alloc, page.bytes.as_slice(), out)?;
    }
    writeln!(out)
}

/// The commits up to a number are on the disk.
fn flush<O: Write>(alloc: Global, server: &mut Server, number: u64, out: &mut O) -> io::Result<()> {
    match CommitNo::checked(number) {
        Some(commit) if server.can_flush(commit) => {
            writeln!(out, "flushed {number}")?;
            let frames = match server.flushed(alloc, commit) {
                Err(AllocError) => server.flushed(alloc, commit)?,
                Ok(frames) => frames,
            };
            put_frames(alloc, server.limits(), frames.as_slice(), out)
        }
        _ => writeln!(out, "cannot flush {number}"),
    }
}

/// Prints all commits.
fn put_commits<O: Write>(server: &Server, out: &mut O) -> io::Result<()> {
    for commit in server.committed() {
        let client = commit.client.get();
        let incarnation = commit.incarnation.get();
        writeln!(
            out,
            "commit {client} {incarnation} {txn}",
            txn = commit.txn.get()
        )?;
    }
    Ok(())
}
