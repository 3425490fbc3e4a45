//! Draws a schedule, and prints it.
ghost use Rattle.std.specs.Prelude.{◌≡◌, ◌≢◌, IfOk, IfErr, OnOk, slice_index};
ghost use Rattle.std.specs.List.{flat_map};
ghost use Rattle.std.specs.Io.KnownBytes.{Appends};
ghost use Rattle.cb_console.specs.DrawnText.{arguments_text, call_name, event_text};
ghost use Rattle.cb_console.specs.EventMeaning.{LinesMeanEvents};
ghost use Rattle.cb_console.specs.DrawRuns.{IsDrawn, IsDrawRun, IsConfigRefusal};
ghost use Rattle.cb_console.specs.declared.play.ReadFault.TheVariants as fault;
ghost use Rattle.cb_transcript.specs.declared.event.Event.TheVariants as event;

use crate::config::read_config;
use crate::play::{ReadFault, print_fault};
use crate::statuses::DONE;
use cb_schedule::draw;
use cb_transcript::{Call, Event};
use std::alloc::Global;
use std::io;
use std::io::Write;

/// Draws that many events by the words of a seed, with the configuration's limits, and prints them
/// as the text of a schedule.
///
/// Returns the program's status. A fault of the configuration, or want of memory, is printed to
/// `err`, and then nothing to `out`. It fails only if a writer does.
pub fn draw_to<O: Write, E: Write>(
    alloc: Global,
    config: &[u8],
    seed: u64,
    count: usize,
    out: &mut O,
    err: &mut E,
) -> io::Result<u8>
    ensures { IfOk result (λ status. IsDrawRun config.now seed count status
        (O.contents out.old) (O.contents out.new) (E.contents err.old) (E.contents err.new)) }
{
    match read_and_draw(alloc, config, seed, count) {
        Ok(events) => {
            put_events(out, events.as_slice())?;
            Ok(DONE)
        }
        Err(fault) => print_fault(&fault, err),
    }
}

/// Reads the configuration, and draws that many events.
fn read_and_draw(
    alloc: Global,
    config: &[u8],
    seed: u64,
    count: usize,
) -> Result<Vec<Event>, ReadFault>
    ensures ok { IfOk result (λ events. IsDrawn config.now seed count events.items) }
    ensures fault { IfErr result (λ e. e ≢ fault.Memory → IsConfigRefusal config.now e) }
{
    let config = read_config(alloc, config)?;
    Ok(draw(alloc, &config.limits, seed, count)?)
}

/// Prints events as the text of a schedule, one a line.
pub fn put_events<O: Write>(out: &mut O, events: &[Event]) -> io::Result<()>
    ensures { OnOk result
        (Appends (O.contents out.old) (O.contents out.new) (flat_map event_text events.now)) }
{
    for event in events {
        put_event(out, event)?;
    }
    Ok(())
}

/// Prints an event as a line of a schedule.
pub fn put_event<O: Write>(out: &mut O, event: &Event) -> io::Result<()>
    ensures { OnOk result
        (Appends (O.contents out.old) (O.contents out.new) (event_text event.now)) }
{
    match event {
        Event::Call { client, call } => put_call(out, client.get(), call),
        Event::Take { packet } => write!(out, "take {packet}\n"),
        Event::Restart { client } => {
            let client = client.get();
            write!(out, "restart {client}\n")
        }
        Event::AgainServer => out.write_all(b"again server\n"),
        Event::Flush => out.write_all(b"flush\n"),
        Event::FlushTo { number } => write!(out, "flush {number}\n"),
    }
}

fn put_call<O: Write>(out: &mut O, client: u16, call: &Call) -> io::Result<()>
    ensures { OnOk result (Appends (O.contents out.old) (O.contents out.new)
        (event_text (event.Call client call.now))) }
{
    let name = name_of(call);
    write!(out, "{name} {client}")?;
    put_arguments(out, call)?;
    out.write_all(b"\n")
}

/// The word of a call.
pub fn name_of(call: &Call) -> &'static str
    ensures { result.now ≡ call_name call.now }
{
    match call {
        Call::Hello => "hello",
        Call::Begin => "begin",
        Call::Read { .. } => "read",
        Call::Want { .. } => "want",
        Call::Write { .. } => "write",
        Call::Finish => "finish",
        Call::Drop => "drop",
        Call::Again => "again",
        Call::Peek { .. } => "peek",
    }
}

/// Prints the numbers behind a call's client: its page, and the first byte of what it writes there.
fn put_arguments<O: Write>(out: &mut O, call: &Call) -> io::Result<()>
    ensures { OnOk result
        (Appends (O.contents out.old) (O.contents out.new) (arguments_text call.now)) }
{
    match call {
        Call::Read { page } | Call::Want { page } | Call::Peek { page } => {
            let page = page.get();
            write!(out, " {page}")
        }
        Call::Write { page, bytes } => {
            let page = page.get();
            let byte = first_byte(bytes.as_slice());
            write!(out, " {page} {byte}")
        }
        _ => Ok(()),
    }
}

/// The first byte, or 0 if there is none.
fn first_byte(bytes: &[u8]) -> u8
    ensures { result ≡ slice_index bytes.now 0 }
{
    match bytes {
        [first, ..] => *first,
        [] => 0,
    }
}

/// The law of what is printed of an event: it is one line, which means the event and has no fault.
fn line_law()
    ensures { LinesMeanEvents }
{}
