//! Reads the text of a schedule.
ghost use Rattle.std.specs.Prelude.{◌≡◌, List, [], ◌∷◌, Some, None, true, false, map, IfOk, IfErr};
ghost use Rattle.std.specs.Prelude.{OnOk, MatchOption, MatchResult};
ghost use Rattle.cb_page.specs.Faults.{first_fault};
ghost use Rattle.cb_transcript.specs.Commands.{arguments_of, spelled_by};
ghost use Rattle.cb_transcript.specs.FaultTexts.{fault_text};
ghost use Rattle.cb_transcript.specs.Pieces.{is_text, number_of, words_of};
ghost use Rattle.cb_transcript.specs.ScheduleText.{Gives, is_comment, argument_causes, line_causes};
ghost use Rattle.cb_transcript.specs.ScheduleText.{IsSchedule, Refuses, schedule_grammar};
ghost use Rattle.cb_transcript.specs.ScheduleText.{spelled_of_line, spelled_of_words, words_causes};
ghost use Rattle.cb_transcript.specs.declared.event.Event.{Event};
ghost use Rattle.cb_transcript.specs.declared.text.ScheduleFault.TheVariants.{Memory};

use crate::arguments::{
    client_and_page, client_argument, client_page_and_byte, no_words, one_word, spelled_number,
};
use crate::command::{Command, SpelledEvent, command_of};
use crate::event::{Call, Event};
use crate::lines::{LineEvent, read_lines, refuse_long};
use crate::pieces::{is_text, split_word};
use cb_page::Limits;
use std::alloc::{AllocError, AllocFailed, Global};
use std::fmt;
use thiserror::Error;

/// Why a text isn't a schedule, the lowest number first. Lines count from 1, skipped ones too. The
/// text is the line that the program prints.
#[derive(Clone, Copy, Debug, PartialEq, Eq, Error)]
pub enum ScheduleFault {
    /// A byte that is neither a tab nor printable ASCII, in a skipped line too.
    NotText { line: u64 },
    /// The first word is none of the known ones.
    Word { line: u64 },
    /// More or fewer words than the first word wants.
    Count { line: u64 },
    /// A word that is no number: not all decimal digits, or 2^62 and more.
    Number { line: u64 },
    /// There is no such client or page, or a byte above 255. In a text of lives also a floor of 0.
    Range { line: u64 },
    /// The event after the 1,000,000th.
    Long { line: u64 },
    /// There is no memory for the events.
    Memory,
}

impl fmt::Display for ScheduleFault {
    ghost output = { λ fault. Some (fault_text fault) };

    fn fmt<W: fmt::Write>(&self, f: &mut fmt::Formatter<W>) -> fmt::Result {
        match self {
            ScheduleFault::NotText { line } => write!(f, "schedule line {line}: NotText"),
            ScheduleFault::Word { line } => write!(f, "schedule line {line}: Word"),
            ScheduleFault::Count { line } => write!(f, "schedule line {line}: Count"),
            ScheduleFault::Number { line } => write!(f, "schedule line {line}: Number"),
            ScheduleFault::Range { line } => write!(f, "schedule line {line}: Range"),
            ScheduleFault::Long { line } => write!(f, "schedule line {line}: Long"),
            ScheduleFault::Memory => write!(f, "memory"),
        }
    }
}

impl From<AllocError> for ScheduleFault {
    ghost from_gives = { λ _ e. e ≡ Memory };

    fn from(_error: AllocError) -> ScheduleFault {
        ScheduleFault::Memory
    }
}

impl<T: Drop> From<AllocFailed<T>> for ScheduleFault {
    ghost from_gives = { λ _ e. e ≡ Memory };

    fn from(_error: AllocFailed<T>) -> ScheduleFault {
        ScheduleFault::Memory
    }
}

/// What a command and the words behind it spell.
fn command_event(
    limits: &Limits,
    line: u64,
    command: Command,
    words: &[u8],
) -> Result<SpelledEvent, ScheduleFault>
    ensures { Gives
        (first_fault (argument_causes limits.now line (arguments_of command) (words_of words.now)))
        (spelled_by command (map number_of (words_of words.now)))
        result }
{
    Ok(match command {
        Command::Event(event) => {
            no_words(line, words)?;
            SpelledEvent::Whole(event)
        }
        Command::Call(call) => SpelledEvent::call(client_argument(limits, line, words)?, call),
        Command::Read => {
            let (client, page) = client_and_page(limits, line, words)?;
            SpelledEvent::call(client, Call::Read { page })
        }
        Command::Want => {
            let (client, page) = client_and_page(limits, line, words)?;
            SpelledEvent::call(client, Call::Want { page })
        }
        Command::Peek => {
            let (client, page) = client_and_page(limits, line, words)?;
            SpelledEvent::call(client, Call::Peek { page })
        }
        Command::Write => {
            let (client, page, byte) = client_page_and_byte(limits, line, words)?;
            SpelledEvent::Write { client, page, byte }
        }
        Command::Restart => SpelledEvent::Whole(Event::Restart {
            client: client_argument(limits, line, words)?,
        }),
        Command::Take => SpelledEvent::Whole(Event::Take {
            packet: spelled_number(line, one_word(line, words)?)?,
        }),
        Command::FlushTo => SpelledEvent::Whole(Event::FlushTo {
            number: spelled_number(line, one_word(line, words)?)?,
        }),
    })
}

/// The first word of a line, and the line behind it, if it has a word.
pub(crate) fn first_word(line: u64, bytes: &[u8]) -> Result<Option<(&[u8], &[u8])>, ScheduleFault>
    ensures text { OnOk result (is_text bytes.now ≡ true) }
    ensures word { IfOk result (λ found. MatchOption found
        (words_of bytes.now ≡ [])
        (λ r. words_of bytes.now ≡ r.0.now ∷ words_of r.1.now)) }
    ensures fault { IfErr result (λ e. (e ≡ ScheduleFault.NotText line)
        × (is_text bytes.now ≡ false)) }
{
    if !is_text(bytes) {
        return Err(ScheduleFault::NotText { line });
    }
    Ok(split_word(bytes))
}

/// What the words of a line spell, if it isn't skipped.
pub(crate) fn words_event(
    limits: &Limits,
    line: u64,
    first: &[u8],
    rest: &[u8],
) -> Result<Option<SpelledEvent>, ScheduleFault>
    ensures { Gives
        (first_fault (words_causes limits.now line (first.now ∷ words_of rest.now)))
        (spelled_of_words (first.now ∷ words_of rest.now))
        result }
{
    if is_comment(first) {
        return Ok(None);
    }
    let Some((command, words)) = command_of(first, rest) else {
        return Err(ScheduleFault::Word { line });
    };
    Ok(Some(command_event(limits, line, command, words)?))
}

/// What a line spells, if it isn't skipped.
fn line_event(
    limits: &Limits,
    line: u64,
    bytes: &[u8],
) -> Result<Option<SpelledEvent>, ScheduleFault>
    ensures { Gives (first_fault (line_causes limits.now line bytes.now))
        (spelled_of_line bytes.now)
        result }
{
    let Some((first, rest)) = first_word(line, bytes)? else {
        return Ok(None);
    };
    words_event(limits, line, first, rest)
}

fn is_comment(first: &[u8]) -> bool
    ensures { result ≡ is_comment first.now }
{
    matches!(first, [b'#', ..])
}

impl LineEvent for Event {
    ghost grammar = { schedule_grammar };

    #[tactic(auto, using(crate::proofs::TextLemmas::clear_append, crate::proofs::TextLemmas::fault_append))]
    fn of_line(
        alloc: Global,
        limits: &Limits,
        line: u64,
        earlier: usize,
        bytes: &[u8],
    ) -> Result<Option<Event>, ScheduleFault> {
        let Some(spelled) = line_event(limits, line, bytes)? else {
            return Ok(None);
        };
        refuse_long(line, earlier)?;
        Ok(Some(spelled.event(alloc, limits)?))
    }
}

/// Reads a schedule: its events, in order. A text that isn't a schedule is refused by the lowest
/// fault of its first faulty line. `Memory` only if there was no room for an event, or for the page
/// that it writes, and there is no fault up to its line.
pub fn read_schedule(
    alloc: Global,
    limits: &Limits,
    text: &[u8],
) -> Result<Vec<Event>, ScheduleFault>
    ensures events { IfOk result (λ events. IsSchedule limits.now text.now events.items) }
    // A schedule is read, unless memory runs out.
    ensures only { (meant : List Event) → IsSchedule limits.now text.now meant →
        MatchResult result (λ events. events.items ≡ meant) (λ e. e ≡ ScheduleFault.Memory) }
    ensures fault { IfErr result (Refuses limits.now text.now) }
{
    read_lines(alloc, limits, text)
}
