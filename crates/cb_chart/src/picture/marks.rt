//! What clients and the server do, as marks in their lanes.

use crate::picture::layout::{Layout, SERVER, small};
use crate::{Chart, Mark, TransactionEnd};
use cb_client::Outcome;
use cb_console::{call_name, only_byte};
use cb_page::ClientNo;
use cb_transcript::{AnswerWord, Call, Event, TranscriptEntry};
use std::io;
use std::io::Write;

/// Prints the marks of all events.
pub(crate) fn put_marks<O: Write>(out: &mut O, chart: &Chart, layout: &Layout) -> io::Result<()> {
    let mut commits = 0;
    for (index, entry) in chart.entries().iter().enumerate() {
        let event = small(index);
        put_event_mark(out, layout, entry, event)?;
        if let Some(mark) = chart.marks().get(index) {
            put_mark(out, layout, mark, commits, event)?;
            commits = mark.commits;
        }
    }
    Ok(())
}

/// The mark of an event that isn't the taking of a packet.
fn put_event_mark<O: Write>(
    out: &mut O,
    layout: &Layout,
    entry: &TranscriptEntry,
    event: u16,
) -> io::Result<()> {
    match &entry.event {
        Event::Call { client, call } => match &entry.answer.word {
            AnswerWord::NoClient => Ok(()),
            word => put_call(out, layout, *client, call, word, event),
        },
        Event::Restart { client } => match &entry.answer.word {
            AnswerWord::Ok => put_restart(out, layout, *client, event),
            _ => Ok(()),
        },
        Event::Take { .. } => Ok(()),
        Event::AgainServer => put_server(out, layout, "again", event),
        Event::Flush | Event::FlushTo { .. } => put_flush(out, layout, &entry.answer.word, event),
    }
}

/// A call: its name with its page, and the byte that was read or written.
fn put_call<O: Write>(
    out: &mut O,
    layout: &Layout,
    client: ClientNo,
    call: &Call,
    word: &AnswerWord,
    event: u16,
) -> io::Result<()> {
    put_shape(out, layout, client, call, word, event)?;
    let class = match word {
        AnswerWord::Refused(_) => " refused",
        _ => "",
    };
    let x = layout.label(client);
    let y = layout.row(event) + 4;
    let name = call_name(call);
    write!(
        out,
        "<text class=\"label{class}\" x=\"{x}\" y=\"{y}\">{name}"
    )?;
    put_page(out, call)?;
    put_value(out, call, word)?;
    out.write_all(b"</text>\n")
}

/// A square for a write, a ring for a read that was answered, a point for any other call; nothing
/// is filled where the call was refused.
fn put_shape<O: Write>(
    out: &mut O,
    layout: &Layout,
    client: ClientNo,
    call: &Call,
    word: &AnswerWord,
    event: u16,
) -> io::Result<()> {
    let x = layout.client(client);
    let y = layout.row(event);
    match (call, word) {
        (_, AnswerWord::Refused(_)) => put_ring(out, x, y, "2.5"),
        (Call::Write { .. }, _) => {
            let left = x - 4;
            let top = y - 4;
            write!(
                out,
                "<rect class=\"dot\" x=\"{left}\" y=\"{top}\" width=\"8\" height=\"8\"/>"
            )
        }
        (_, AnswerWord::Bytes(_)) => put_ring(out, x, y, "4"),
        _ => put_dot(out, x, y),
    }
}

fn put_ring<O: Write>(out: &mut O, x: u32, y: u32, radius: &str) -> io::Result<()> {
    write!(
        out,
        "<circle class=\"hollow\" cx=\"{x}\" cy=\"{y}\" r=\"{radius}\"/>"
    )
}

fn put_page<O: Write>(out: &mut O, call: &Call) -> io::Result<()> {
    match call {
        Call::Read { page }
        | Call::Want { page }
        | Call::Peek { page }
        | Call::Write { page, .. } => {
            let page = page.get();
            write!(out, " {page}")
        }
        _ => Ok(()),
    }
}

/// The byte that was read or written; three points for a page of unlike bytes.
fn put_value<O: Write>(out: &mut O, call: &Call, word: &AnswerWord) -> io::Result<()> {
    match (call, word) {
        (Call::Write { bytes, .. }, _) => put_byte(out, bytes.as_slice()),
        (_, AnswerWord::Bytes(bytes)) => put_byte(out, bytes.as_slice()),
        _ => Ok(()),
    }
}

fn put_byte<O: Write>(out: &mut O, bytes: &[u8]) -> io::Result<()> {
    match only_byte(bytes) {
        Some(byte) => write!(out, "={byte:02x}"),
        None => out.write_all(b"=.."),
    }
}

/// A restart: a bar across the lane.
fn put_restart<O: Write>(
    out: &mut O,
    layout: &Layout,
    client: ClientNo,
    event: u16,
) -> io::Result<()> {
    let lane = layout.client(client);
    let left = lane - 9;
    let top = layout.row(event) - 2;
    let x = layout.label(client);
    let y = layout.row(event) + 4;
    write!(
        out,
        "<rect class=\"dot\" x=\"{left}\" y=\"{top}\" width=\"18\" height=\"4\"/>\
        <text class=\"label\" x=\"{x}\" y=\"{y}\">restart</text>\n"
    )
}

/// What the server does without a packet.
fn put_server<O: Write>(out: &mut O, layout: &Layout, what: &str, event: u16) -> io::Result<()> {
    put_dot(out, SERVER, layout.row(event))?;
    begin_label(out, layout, event)?;
    write!(out, "{what}</text>\n")
}

fn put_dot<O: Write>(out: &mut O, x: u32, y: u32) -> io::Result<()> {
    write!(out, "<circle class=\"dot\" cx=\"{x}\" cy=\"{y}\" r=\"3\"/>")
}

/// How a label of the server begins, in that event's row.
fn begin_label<O: Write>(out: &mut O, layout: &Layout, event: u16) -> io::Result<()> {
    let x = SERVER - 9;
    let y = layout.row(event) + 4;
    write!(out, "<text class=\"label left\" x=\"{x}\" y=\"{y}\">")
}

fn put_flush<O: Write>(
    out: &mut O,
    layout: &Layout,
    word: &AnswerWord,
    event: u16,
) -> io::Result<()> {
    match word {
        AnswerWord::Flushed(number) => {
            let number = number.get();
            put_dot(out, SERVER, layout.row(event))?;
            begin_label(out, layout, event)?;
            write!(out, "on disk {number}</text>\n")
        }
        _ => put_server(out, layout, "flush", event),
    }
}

/// The commit that the server made, and the transaction that ended.
fn put_mark<O: Write>(
    out: &mut O,
    layout: &Layout,
    mark: &Mark,
    before: usize,
    event: u16,
) -> io::Result<()> {
    if mark.commits > before {
        put_commit(out, layout, mark.commits, event)?;
    }
    match &mark.ended {
        Some(ending) => put_ending(out, layout, ending, event),
        None => Ok(()),
    }
}

fn put_commit<O: Write>(out: &mut O, layout: &Layout, number: usize, event: u16) -> io::Result<()> {
    put_diamond(out, SERVER, layout.row(event))?;
    begin_label(out, layout, event)?;
    write!(out, "commit {number}</text>\n")
}

fn put_diamond<O: Write>(out: &mut O, x: u32, y: u32) -> io::Result<()> {
    let top = y.saturating_sub(6);
    write!(
        out,
        "<path class=\"dot\" d=\"M{x} {top}l6 6l-6 6l-6 -6z\"/>"
    )
}

/// How the client's transaction ended.
fn put_ending<O: Write>(
    out: &mut O,
    layout: &Layout,
    ending: &TransactionEnd,
    event: u16,
) -> io::Result<()> {
    let lane = layout.client(ending.client);
    let x = layout.label(ending.client);
    let y = layout.row(event);
    let base = y + 4;
    match ending.outcome {
        Outcome::Committed(number) => {
            let number = number.get();
            put_diamond(out, lane, y)?;
            write!(
                out,
                "<text class=\"label\" x=\"{x}\" y=\"{base}\">committed {number}</text>\n"
            )
        }
        Outcome::Dropped => put_cross(out, lane, y),
        Outcome::Aborted => {
            put_cross(out, lane, y)?;
            write!(
                out,
                "<text class=\"label\" x=\"{x}\" y=\"{base}\">aborted</text>\n"
            )
        }
    }
}

fn put_cross<O: Write>(out: &mut O, x: u32, y: u32) -> io::Result<()> {
    let left = x.saturating_sub(5);
    let top = y.saturating_sub(5);
    write!(
        out,
        "<path class=\"cross abort\" d=\"M{left} {top}l10 10m0 -10l-10 10\"/>\n"
    )
}
