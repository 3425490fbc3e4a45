//! Reads the text of a schedule over several lives of the server.
ghost use Rattle.std.specs.Prelude.{◌≡◌, List, IfOk, IfErr, OnErr, MatchResult};
ghost use Rattle.cb_page.specs.Faults.{first_fault};
ghost use Rattle.cb_transcript.specs.LivesEvents.{CarriesBytes};
ghost use Rattle.cb_transcript.specs.LivesText.{IsLivesSchedule, RefusesLives, line_spelled_by};
ghost use Rattle.cb_transcript.specs.LivesText.{lives_event_of, lives_grammar, lives_line_causes};
ghost use Rattle.cb_transcript.specs.ScheduleText.{Gives};
ghost use Rattle.cb_transcript.specs.declared.lives_event.LivesEvent.{LivesEvent as LivesEventData};
ghost use Rattle.cb_transcript.specs.declared.text.ScheduleFault.TheVariants.{Memory};

use crate::arguments::floor_and_number;
use crate::command::SpelledEvent;
use crate::lines::{LineEvent, read_lines, refuse_long};
use crate::lives_event::LivesEvent;
use crate::text::{ScheduleFault, first_word, words_event};
use cb_page::{Incarnation, Limits};
use std::alloc::{AllocError, Global};

/// What a line spells, before memory is taken for it.
#[derive(Drop)]
pub(crate) enum SpelledLine {
    /// An event of the present life.
    Within(SpelledEvent),
    /// The server restarts.
    Life { floor: Incarnation, number: u64 },
}

impl SpelledLine {
    /// The event with its bytes. It fails only where there is no memory for the bytes of a write.
    fn event(self, alloc: Global, limits: &Limits) -> Result<LivesEvent, AllocError>
        ensures event { IfOk result (λ event. event ≡ lives_event_of limits.now self) }
        ensures fails { OnErr result (CarriesBytes (lives_event_of limits.now self)) }
    {
        Ok(match self {
            SpelledLine::Within(spelled) => LivesEvent::Within(spelled.event(alloc, limits)?),
            SpelledLine::Life { floor, number } => LivesEvent::ServerRestarts { floor, number },
        })
    }
}

/// What a line spells, if it isn't skipped.
fn lives_line(
    limits: &Limits,
    line: u64,
    bytes: &[u8],
) -> Result<Option<SpelledLine>, ScheduleFault>
    ensures { Gives (first_fault (lives_line_causes limits.now line bytes.now))
        (line_spelled_by bytes.now)
        result }
{
    let Some((first, rest)) = first_word(line, bytes)? else {
        return Ok(None);
    };
    if first == b"life".as_slice() {
        let (floor, number) = floor_and_number(line, rest)?;
        return Ok(Some(SpelledLine::Life { floor, number }));
    }
    match words_event(limits, line, first, rest)? {
        Some(event) => Ok(Some(SpelledLine::Within(event))),
        None => Ok(None),
    }
}

impl LineEvent for LivesEvent {
    ghost grammar = { lives_grammar };

    #[tactic(auto, using(crate::proofs::TextLemmas::clear_append, crate::proofs::TextLemmas::fault_append))]
    fn of_line(
        alloc: Global,
        limits: &Limits,
        line: u64,
        earlier: usize,
        bytes: &[u8],
    ) -> Result<Option<LivesEvent>, ScheduleFault> {
        let Some(spelled) = lives_line(limits, line, bytes)? else {
            return Ok(None);
        };
        refuse_long(line, earlier)?;
        Ok(Some(spelled.event(alloc, limits)?))
    }
}

/// Reads a schedule over several lives of the server: the lines of a schedule, and one more,
/// `life FLOOR NUMBER`, by which the server restarts. FLOOR is the floor of its new life, and the
/// disk has the commits up to NUMBER.
///
/// A text that is none is refused as [`read_schedule`](crate::read_schedule) refuses one, and a
/// floor of 0 is out of range.
pub fn read_lives(
    alloc: Global,
    limits: &Limits,
    text: &[u8],
) -> Result<Vec<LivesEvent>, ScheduleFault>
    ensures events { IfOk result (λ events.
        IsLivesSchedule limits.now text.now events.items) }
    // A schedule of lives is read, unless memory runs out.
    ensures only { (meant : List LivesEventData) → IsLivesSchedule limits.now text.now meant →
        MatchResult result (λ events. events.items ≡ meant) (λ e. e ≡ Memory) }
    ensures fault { IfErr result (RefusesLives limits.now text.now) }
{
    read_lines(alloc, limits, text)
}
