//! Reads a text line by line.
ghost use Rattle.std.specs.Prelude.{◌≡◌, ◌≢◌, ◌++◌, List, None, Some, length, IfOk, IfErr, OnOk};
ghost use Rattle.std.specs.Prelude.{true, false, nat_le, IsSome, MatchResult};
ghost use Rattle.std.specs.Option.{option_to_list};
ghost use Rattle.cb_page.specs.Bounds.{Bounds};
ghost use Rattle.cb_page.specs.Faults.{first_fault};
ghost use Rattle.cb_transcript.specs.Lines.{Grammar, IsText, RefusesText};
ghost use Rattle.cb_transcript.specs.ScheduleText.{most_events};
ghost use Rattle.cb_transcript.specs.declared.text.ScheduleFault.TheVariants.{Memory};

use crate::pieces::split_line;
use crate::text::ScheduleFault;
use cb_page::Limits;
use std::alloc::Global;

/// An event that a line of a text means.
pub(crate) trait LineEvent: Drop {
    /// What the lines of the text may say.
    ghost grammar: { Bounds → Grammar Self };

    /// The event of a line, behind so many of earlier lines; none where it is skipped. `Memory`
    /// comes only where there was no room for the event of a line without a fault.
    fn of_line(
        alloc: Global,
        limits: &Limits,
        line: u64,
        earlier: usize,
        bytes: &[u8],
    ) -> Result<Option<Self>, ScheduleFault>
    where
        Self: Sized,
        ensures ok { OnOk result
            (first_fault ((grammar limits.now).causes line earlier bytes.now) ≡ None) }
        ensures event { IfOk result (λ event. event ≡ (grammar limits.now).event bytes.now) }
        ensures fault { IfErr result (λ e. e ≢ Memory →
            first_fault ((grammar limits.now).causes line earlier bytes.now) ≡ Some e) }
        ensures memory { IfErr result (λ e. e ≡ Memory →
            (first_fault ((grammar limits.now).causes line earlier bytes.now) ≡ None)
            × IsSome ((grammar limits.now).event bytes.now)) };
}

/// The most events of a text.
const MOST_EVENTS: usize = 1_000_000;

/// Refuses a line with an event, behind as many as a text may have.
pub(crate) fn refuse_long(line: u64, earlier: usize) -> Result<(), ScheduleFault>
    ensures ok { OnOk result (nat_le most_events earlier ≡ false) }
    ensures fault { IfErr result (λ e.
        (e ≡ ScheduleFault.Long line) × (nat_le most_events earlier ≡ true)) }
{
    if earlier >= MOST_EVENTS {
        return Err(ScheduleFault::Long { line });
    }
    Ok(())
}

/// Adds the event of a line, if it has one.
fn add_line<E: LineEvent>(
    alloc: Global,
    limits: &Limits,
    line: u64,
    bytes: &[u8],
    events: &mut Vec<E>,
) -> Result<(), ScheduleFault>
    ensures ok { OnOk result
        (first_fault ((E.grammar limits.now).causes line (length events.old.items) bytes.now)
        ≡ None) }
    ensures added { OnOk result (events.new.items ≡ events.old.items
        ++ option_to_list ((E.grammar limits.now).event bytes.now)) }
    ensures fault { IfErr result (λ e. e ≢ Memory →
        first_fault ((E.grammar limits.now).causes line (length events.old.items) bytes.now)
        ≡ Some e) }
    ensures memory { IfErr result (λ e. e ≡ Memory →
        (first_fault ((E.grammar limits.now).causes line (length events.old.items) bytes.now)
        ≡ None) × IsSome ((E.grammar limits.now).event bytes.now)) }
{
    let Some(event) = E::of_line(alloc, limits, line, events.len(), bytes)? else {
        return Ok(());
    };
    events.push(event)?;
    Ok(())
}

/// Reads a text: its events, in order. A text that is none is refused by its first faulty line's
/// lowest fault. `Memory` comes only where there was no room for an event, or for the page that it
/// writes, with no fault up to its line.
pub(crate) fn read_lines<E: LineEvent>(
    alloc: Global,
    limits: &Limits,
    text: &[u8],
) -> Result<Vec<E>, ScheduleFault>
    ensures events { IfOk result (λ events.
        IsText (E.grammar limits.now) text.now events.items) }
    // The text is read, unless memory runs out.
    ensures only { (meant : List E) → IsText (E.grammar limits.now) text.now meant →
        MatchResult result (λ events. events.items ≡ meant) (λ e. e ≡ Memory) }
    ensures fault { IfErr result (RefusesText (E.grammar limits.now) text.now) }
{
    let mut events = Vec::new(alloc);
    let mut line = 0;
    let mut rest = text;
    while let Some((bytes, after)) = split_line(rest) {
        line += 1;
        add_line(alloc, limits, line, bytes, &mut events)?;
        rest = after;
    }
    Ok(events)
}
