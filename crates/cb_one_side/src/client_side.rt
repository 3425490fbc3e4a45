//! A client alone, as a list plays it: number 0 at incarnation 1, over 2Q of the limits. What plays
//! a line is over any chooser, which is cheaper to prove.
//!
//! A call for which memory was refused is made once more, and so is the client itself. A refused
//! call changed nothing. If one growth of the client's is refused, the output is therefore the same
//! as if none is.
//!
//! At a list's end the references for which the pool's chooser was called are compared with those
//! that the answers tell of. These are each read that was answered with bytes, and each copy that
//! brought in a page whose bytes weren't here.

use crate::frames::{put_digits, put_frames};
use crate::references::Noting;
use crate::words::{bytes, is_opening, limits, next_word, page, page_at};
use cb_client::{Client, ClientFault, Outcome, ReadAnswer, WantAnswer};
use cb_frame::{BytesFault, Frame, FrameFault};
use cb_page::{ClientNo, Incarnation, Limits, PageNo};
use cb_twoq::{Chooser, TwoQ};
use std::alloc::{AllocError, Global};
use std::io::Write;
use std::str::SplitWhitespace;
use std::{io, slice};

/// Plays the list that the line opens: what follows it, up to where another list begins.
pub(crate) fn play_list<O: Write>(
    alloc: Global,
    line: &str,
    following: &[&str],
    out: &mut O,
) -> io::Result<()> {
    let limits = limits(line)?;
    let lines = following.len();
    let mut client = match new_client(alloc, limits, lines) {
        Err(AllocError) => new_client(alloc, limits, lines)?,
        Ok(client) => client,
    };
    let mut told = Vec::with_capacity(alloc, lines)?;
    play_lines(alloc, &mut client, &mut told, following, out)?;
    put_references(&client, told.as_slice(), out)
}

/// A new client, over a chooser that notes at most that many references.
fn new_client(
    alloc: Global,
    limits: Limits,
    references: usize,
) -> Result<Client<Noting<TwoQ>>, AllocError> {
    let chooser = Noting::new(alloc, TwoQ::make(alloc, &limits)?, references)?;
    Client::new(
        alloc,
        ClientNo::new(0),
        Incarnation::new(1),
        &limits,
        chooser,
    )
}

/// Prints how many references there were, if those that were made are those told of.
fn put_references<Q: Chooser, O: Write>(
    client: &Client<Noting<Q>>,
    told: &[PageNo],
    out: &mut O,
) -> io::Result<()> {
    let made = client.chooser().made();
    if made == told {
        writeln!(out, "references {count}", count = made.len())
    } else {
        writeln!(out, "references differ")
    }
}

/// Plays the lines of a list, and adds the references that the answers tell of.
fn play_lines<Q: Chooser, O: Write>(
    alloc: Global,
    client: &mut Client<Q>,
    told: &mut Vec<PageNo>,
    lines: &[&str],
    out: &mut O,
) -> io::Result<()> {
    for line in lines {
        if is_opening(line) {
            break;
        }
        if let Some(page) = play(alloc, client, line, out)? {
            told.push(page)?;
        }
    }
    Ok(())
}

/// Plays one line. Answers the page that its answer tells to be referred to.
fn play<Q: Chooser, O: Write>(
    alloc: Global,
    client: &mut Client<Q>,
    line: &str,
    out: &mut O,
) -> io::Result<Option<PageNo>> {
    let mut words = line.split_whitespace();
    match words.next() {
        Some(">") => take(alloc, client, next_word(&mut words)?, out),
        Some("read") => read(alloc, client, page(&mut words)?, out),
        Some(word) => {
            play_other(alloc, client, word, &mut words, out)?;
            Ok(None)
        }
        None => Ok(None),
    }
}

/// Plays a line that refers to no page.
fn play_other<Q: Chooser, O: Write>(
    alloc: Global,
    client: &mut Client<Q>,
    word: &str,
    words: &mut SplitWhitespace<'_>,
    out: &mut O,
) -> io::Result<()> {
    match word {
        "<" | "!" | "references" => Ok(()),
        "again" => say_again(alloc, client, out),
        "hello" => hello(alloc, client, out),
        "begin" => begin(client, out),
        "finish" => finish(alloc, client, out),
        "drop" => drop_txn(alloc, client, out),
        "status" => writeln!(out, "status = {status:?}", status = client.status()),
        "last" => put_last(client.last(), out),
        _ => play_page(alloc, client, word, words, out),
    }
}

/// A frame comes, whose bytes the word spells. Answers the page whose bytes came into the pool.
fn take<Q: Chooser, O: Write>(
    alloc: Global,
    client: &mut Client<Q>,
    digits: &str,
    out: &mut O,
) -> io::Result<Option<PageNo>> {
    writeln!(out, "> {digits}")?;
    let bytes = bytes(alloc, digits)?;
    match page_at(bytes.as_slice()) {
        Some(page) => take_at(alloc, client, page, bytes.as_slice(), out),
        None => {
            take_bytes(alloc, client, bytes.as_slice(), out)?;
            Ok(None)
        }
    }
}

/// A frame of these bytes comes, which are of that page. Answers it if its bytes came into the
/// pool.
fn take_at<Q: Chooser, O: Write>(
    alloc: Global,
    client: &mut Client<Q>,
    page: PageNo,
    bytes: &[u8],
    out: &mut O,
) -> io::Result<Option<PageNo>> {
    let was_here = client.peek(page).is_some();
    take_bytes(alloc, client, bytes, out)?;
    if !was_here && client.peek(page).is_some() {
        Ok(Some(page))
    } else {
        Ok(None)
    }
}

/// What the client answers to the frame that the bytes begin with.
fn taken<Q: Chooser>(
    alloc: Global,
    client: &mut Client<Q>,
    bytes: &[u8],
) -> Result<(Vec<Frame>, usize), BytesFault<ClientFault>> {
    match client.take_bytes(alloc, bytes) {
        Err(BytesFault::Taker(ClientFault::Memory) | BytesFault::Frame(FrameFault::Memory)) => {
            client.take_bytes(alloc, bytes)
        }
        answer => answer,
    }
}

/// A frame of these bytes comes.
fn take_bytes<Q: Chooser, O: Write>(
    alloc: Global,
    client: &mut Client<Q>,
    bytes: &[u8],
    out: &mut O,
) -> io::Result<()> {
    match taken(alloc, client, bytes) {
        Ok((frames, _)) => put_frames(alloc, client.limits(), frames.as_slice(), out),
        Err(fault) => writeln!(out, "! {fault:?}"),
    }
}

/// What is unanswered is sent again.
fn say_again<Q: Chooser, O: Write>(
    alloc: Global,
    client: &Client<Q>,
    out: &mut O,
) -> io::Result<()> {
    writeln!(out, "again")?;
    let said = match client.again(alloc) {
        Err(ClientFault::Memory) => client.again(alloc),
        said => said,
    };
    match said {
        Ok(frames) => put_frames(alloc, client.limits(), frames.as_slice(), out),
        Err(fault) => refused("again", fault, out),
    }
}

/// The client greets.
fn hello<Q: Chooser, O: Write>(alloc: Global, client: &Client<Q>, out: &mut O) -> io::Result<()> {
    let frame = client.hello();
    put_done(
        alloc,
        client.limits(),
        "hello",
        slice::from_ref(&frame),
        out,
    )
}

/// Prints that a call of one word was refused.
fn refused<O: Write>(word: &str, fault: ClientFault, out: &mut O) -> io::Result<()> {
    writeln!(out, "{word} ! {fault:?}")
}

/// A transaction is opened.
fn begin<Q: Chooser, O: Write>(client: &mut Client<Q>, out: &mut O) -> io::Result<()> {
    match client.begin() {
        Ok(txn) => writeln!(out, "begin = {txn}", txn = txn.get()),
        Err(fault) => refused("begin", fault, out),
    }
}

/// The transaction is committed.
fn finish<Q: Chooser, O: Write>(
    alloc: Global,
    client: &mut Client<Q>,
    out: &mut O,
) -> io::Result<()> {
    let finished = match client.finish(alloc) {
        Err(ClientFault::Memory) => client.finish(alloc),
        finished => finished,
    };
    match finished {
        Ok(frame) => put_done(
            alloc,
            client.limits(),
            "finish",
            slice::from_ref(&frame),
            out,
        ),
        Err(fault) => refused("finish", fault, out),
    }
}

/// The transaction is dropped.
fn drop_txn<Q: Chooser, O: Write>(
    alloc: Global,
    client: &mut Client<Q>,
    out: &mut O,
) -> io::Result<()> {
    let dropped = match client.drop_txn(alloc) {
        Err(ClientFault::Memory) => client.drop_txn(alloc),
        dropped => dropped,
    };
    match dropped {
        Ok(frames) => put_done(alloc, client.limits(), "drop", frames.as_slice(), out),
        Err(fault) => refused("drop", fault, out),
    }
}

/// Prints that a call of one word succeeded, and what is sent.
fn put_done<O: Write>(
    alloc: Global,
    limits: &Limits,
    word: &str,
    frames: &[Frame],
    out: &mut O,
) -> io::Result<()> {
    writeln!(out, "{word} = ok")?;
    put_frames(alloc, limits, frames, out)
}

/// Prints how the last transaction ended, if one did.
fn put_last<O: Write>(last: Option<Outcome>, out: &mut O) -> io::Result<()> {
    match last {
        Some(outcome) => put_outcome(outcome, out),
        None => writeln!(out, "last = none"),
    }
}

/// Prints how a transaction ended.
fn put_outcome<O: Write>(outcome: Outcome, out: &mut O) -> io::Result<()> {
    match outcome {
        Outcome::Committed(number) => {
            writeln!(out, "last = Committed {number}", number = number.get())
        }
        Outcome::Dropped => writeln!(out, "last = Dropped"),
        Outcome::Aborted => writeln!(out, "last = Aborted"),
    }
}

/// A call that names a page.
fn play_page<Q: Chooser, O: Write>(
    alloc: Global,
    client: &mut Client<Q>,
    word: &str,
    words: &mut SplitWhitespace<'_>,
    out: &mut O,
) -> io::Result<()> {
    let page = page(words)?;
    write!(out, "{word} {number}", number = page.get())?;
    match word {
        "want" => want(alloc, client, page, out),
        "write" => write(alloc, client, page, words.next().unwrap_or("!"), out),
        "peek" => put_bytes(alloc, client.peek(page), out),
        _ => writeln!(out, " = {may_write}", may_write = client.may_write(page)),
    }
}

/// Prints the bytes of a page, if there are any.
fn put_bytes<O: Write>(alloc: Global, bytes: Option<&[u8]>, out: &mut O) -> io::Result<()> {
    match bytes {
        Some(bytes) => {
            out.write_all(b" = ")?;
            put_digits(alloc, bytes, out)?;
            out.write_all(b"\n")
        }
        None => out.write_all(b" = none\n"),
    }
}

/// The transaction reads a page. Answers it, if its bytes were answered.
fn read<Q: Chooser, O: Write>(
    alloc: Global,
    client: &mut Client<Q>,
    page: PageNo,
    out: &mut O,
) -> io::Result<Option<PageNo>> {
    write!(out, "read {number}", number = page.get())?;
    match client.read(page) {
        Ok(ReadAnswer::Bytes(bytes)) => {
            put_bytes(alloc, Some(bytes), out)?;
            Ok(Some(page))
        }
        Ok(ReadAnswer::Asked) => {
            asked(alloc, client, out)?;
            Ok(None)
        }
        Err(fault) => {
            writeln!(out, " ! {fault:?}")?;
            Ok(None)
        }
    }
}

/// The transaction wants to write a page.
fn want<Q: Chooser, O: Write>(
    alloc: Global,
    client: &mut Client<Q>,
    page: PageNo,
    out: &mut O,
) -> io::Result<()> {
    match client.want(page) {
        Ok(WantAnswer::Permitted) => writeln!(out, " permitted"),
        Ok(WantAnswer::Asked(_)) => asked(alloc, client, out),
        Err(fault) => writeln!(out, " ! {fault:?}"),
    }
}

/// An ask is out.
fn asked<Q: Chooser, O: Write>(alloc: Global, client: &Client<Q>, out: &mut O) -> io::Result<()> {
    writeln!(out, " asked")?;
    match client.ask() {
        Some(ask) => {
            let frame = Frame::from(ask);
            put_frames(alloc, client.limits(), slice::from_ref(&frame), out)
        }
        None => Ok(()),
    }
}

/// The transaction writes a page, whose bytes the word spells; a mark of refusal stands for none.
fn write<Q: Chooser, O: Write>(
    alloc: Global,
    client: &mut Client<Q>,
    page: PageNo,
    word: &str,
    out: &mut O,
) -> io::Result<()> {
    let digits = if word == "!" { "" } else { word };
    write!(out, " {digits}")?;
    let bytes = bytes(alloc, digits)?;
    match client.write(page, bytes.as_slice()) {
        Ok(()) => writeln!(out, " = ok"),
        Err(fault) => writeln!(out, " ! {fault:?}"),
    }
}
