//! What the words of a schedule's line say.
ghost use Rattle.std.specs.Prelude.{◌≡◌, Some, None, IfOk, OnErr, MatchOption};
ghost use Rattle.cb_transcript.specs.Commands.{command_named, command_of, event_of, told_apart};
ghost use Rattle.cb_transcript.specs.Events.{CallsWithBytes};
ghost use Rattle.cb_transcript.specs.Pieces.{words_of};

use crate::event::{Call, Event};
use crate::pieces::split_word;
use cb_page::{ClientNo, Limits, Page, PageNo};
use std::alloc::{AllocError, Global};

/// What a line says, but for the numbers behind it.
#[derive(Drop)]
pub(crate) enum Command {
    /// This event, with no number.
    Event(Event),
    /// This call, of one client.
    Call(Call),
    Read,
    Want,
    Peek,
    Write,
    Restart,
    Take,
    FlushTo,
}

/// An event as its line spells it, before memory is taken for it.
#[derive(Drop)]
pub(crate) enum SpelledEvent {
    Whole(Event),
    /// A write of a page of this byte.
    Write {
        client: ClientNo,
        page: PageNo,
        byte: u8,
    },
}

impl SpelledEvent {
    /// A call of a client.
    pub(crate) fn call(client: ClientNo, call: Call) -> SpelledEvent
        ensures { result ≡ SpelledEvent.Whole (Event.Call client call) }
    {
        SpelledEvent::Whole(Event::Call { client, call })
    }

    /// The event with its bytes. It fails only where there is no memory for the bytes of a write.
    pub(crate) fn event(self, alloc: Global, limits: &Limits) -> Result<Event, AllocError>
        ensures event { IfOk result (λ event. event ≡ event_of limits.now self) }
        ensures fails { OnErr result (CallsWithBytes (event_of limits.now self)) }
    {
        match self {
            SpelledEvent::Whole(event) => Ok(event),
            SpelledEvent::Write { client, page, byte } => {
                let bytes = vec![in alloc; byte; limits.page_size()]?;
                Ok(Event::Call {
                    client,
                    call: Call::Write {
                        page,
                        bytes: Page::from_vec(bytes),
                    },
                })
            }
        }
    }
}

/// The command that a line's words begin with, and the words behind it.
pub(crate) fn command_of<'a>(first: &[u8], rest: &'a [u8]) -> Option<(Command, &'a [u8])>
    ensures { MatchOption result
        (command_of first.now (words_of rest.now) ≡ None)
        (λ found. command_of first.now (words_of rest.now)
        ≡ Some (found.0, words_of found.1.now)) }
{
    Some(told_apart(command_named(first)?, rest))
}

/// A command and the words behind it, as its next word tells.
fn told_apart(named: Command, rest: &[u8]) -> (Command, &[u8])
    ensures { (result.0, words_of result.1.now) ≡ told_apart named (words_of rest.now) }
{
    match named {
        Command::Call(Call::Again) => server_or_client(rest),
        Command::FlushTo if split_word(rest).is_none() => (Command::Event(Event::Flush), rest),
        other => (other, rest),
    }
}

/// Who sends again, and the words behind.
fn server_or_client(rest: &[u8]) -> (Command, &[u8])
    ensures { (result.0, words_of result.1.now)
        ≡ told_apart (Command.Call Call.Again) (words_of rest.now) }
{
    if let Some((next, behind)) = split_word(rest) {
        if next == b"server".as_slice() {
            return (Command::Event(Event::AgainServer), behind);
        }
    }
    (Command::Call(Call::Again), rest)
}

/// The command of a line's first word.
#[tactic(auto, unfolding(crate::specs::Commands::command_named))]
fn command_named(word: &[u8]) -> Option<Command>
    ensures { result ≡ command_named word.now }
{
    if word == b"hello".as_slice() {
        return Some(Command::Call(Call::Hello));
    }
    if word == b"begin".as_slice() {
        return Some(Command::Call(Call::Begin));
    }
    if word == b"read".as_slice() {
        return Some(Command::Read);
    }
    if word == b"peek".as_slice() {
        return Some(Command::Peek);
    }
    if word == b"want".as_slice() {
        return Some(Command::Want);
    }
    if word == b"write".as_slice() {
        return Some(Command::Write);
    }
    if word == b"finish".as_slice() {
        return Some(Command::Call(Call::Finish));
    }
    if word == b"drop".as_slice() {
        return Some(Command::Call(Call::Drop));
    }
    if word == b"restart".as_slice() {
        return Some(Command::Restart);
    }
    if word == b"take".as_slice() {
        return Some(Command::Take);
    }
    if word == b"again".as_slice() {
        return Some(Command::Call(Call::Again));
    }
    if word == b"flush".as_slice() {
        return Some(Command::FlushTo);
    }
    None
}
