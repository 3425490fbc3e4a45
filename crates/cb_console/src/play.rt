//! Plays a schedule over a store of zeros, and prints what became of it.
ghost use Rattle.std.specs.Prelude.{◌≡◌, ◌≢◌, ◌↔◌, codes, IfOk, IfErr, OnOk, Some, true, false};
ghost use Rattle.std.specs.Io.KnownBytes.{Appends};
ghost use Rattle.cb_console.specs.Output.{lines_from, lives_lines_from};
ghost use Rattle.cb_console.specs.Runs.{BecomesOfConfig, BecomesOfSchedule, Ends, EndsEarly};
ghost use Rattle.cb_console.specs.Runs.{EndsLives, IsLivesPlayOf, IsLivesPlayOfText, IsPlay};
ghost use Rattle.cb_console.specs.Runs.{IsPlayOf};
ghost use Rattle.cb_console.specs.Runs.{IsPlayOfText, IsPlayRefusal, IsRun, IsScheduleRefusal};
ghost use Rattle.cb_console.specs.Runs.{PrintsFault, PrintsOutcome, PrintsVerdict, read_fault_line};
ghost use Rattle.cb_console.specs.declared.play.ReadFault.TheVariants as fault;
ghost use Rattle.cb_transcript.specs.LivesTranscripts.{IsSerialOverLives};
ghost use Rattle.cb_transcript.specs.declared.serial.Verdict.TheVariants as verdict;

use crate::config::{ConfigFault, read_config};
use crate::output::{put_entries, put_lives_entries, put_verdict};
use crate::statuses::{DONE, NO_MEMORY, NOT_SERIAL, WRONG_INPUT};
use cb_commit::Store;
use cb_page::Limits;
use cb_schedule::{Lives, World};
use cb_transcript::{
    Event, LivesEvent, LivesTranscript, ScheduleFault, Transcript, Verdict, check_serial,
    read_lives, read_schedule,
};
use cb_twoq::TwoQ;
use std::alloc::{AllocError, Global};
use std::io::Write;
use std::{fmt, io};
use thiserror::Error;

/// Why a schedule isn't played. The text is the program's line of it.
#[derive(Debug, Drop, Error)]
pub enum ReadFault {
    Config(ConfigFault),
    Schedule(ScheduleFault),
    Memory,
}

impl fmt::Display for ReadFault {
    ghost output = { λ fault. Some (read_fault_line fault) };

    fn fmt<W: fmt::Write>(&self, f: &mut fmt::Formatter<W>) -> fmt::Result {
        match self {
            ReadFault::Config(fault) => write!(f, "config: {fault}"),
            ReadFault::Schedule(fault) => write!(f, "{fault}"),
            ReadFault::Memory => write!(f, "memory"),
        }
    }
}

impl From<ConfigFault> for ReadFault {
    ghost from_gives = { BecomesOfConfig };

    fn from(fault: ConfigFault) -> ReadFault {
        match fault {
            ConfigFault::Memory => ReadFault::Memory,
            fault => ReadFault::Config(fault),
        }
    }
}

impl From<ScheduleFault> for ReadFault {
    ghost from_gives = { BecomesOfSchedule };

    fn from(fault: ScheduleFault) -> ReadFault {
        match fault {
            ScheduleFault::Memory => ReadFault::Memory,
            fault => ReadFault::Schedule(fault),
        }
    }
}

impl From<AllocError> for ReadFault {
    ghost from_gives = { λ _ e. e ≡ fault.Memory };

    fn from(_error: AllocError) -> ReadFault {
        ReadFault::Memory
    }
}

/// How far a schedule was played.
#[derive(Drop)]
pub enum Play {
    /// To its end.
    Whole(Transcript),
    /// To where memory was refused.
    Part(Transcript),
    /// To its end, over several lives of the server.
    WholeLives(LivesTranscript),
    /// Over several lives of the server, to where memory was refused.
    PartLives(LivesTranscript),
}

/// Plays the schedule over a store of zeros with the configuration's limits, and prints what became
/// of each event, the number of commits, and whether they are serial. Where the configuration says
/// `lives = 1`, the schedule is one over several lives of the server, and the commits are those
/// that count.
///
/// The answer is the program's status. The configuration is checked first, then the schedule; a
/// fault is said on `err`, and then nothing is on `out`. Where memory is refused in the play, the
/// lines so far are printed and the last two are not. It fails only if a writer does.
pub fn play_to<O: Write, E: Write>(
    alloc: Global,
    config: &[u8],
    schedule: &[u8],
    out: &mut O,
    err: &mut E,
) -> io::Result<u8>
    ensures { IfOk result (λ status. IsRun config.now schedule.now status
        (O.contents out.old) (O.contents out.new) (E.contents err.old) (E.contents err.new)) }
{
    let outcome = read_and_play(alloc, config, schedule);
    print_outcome(alloc, outcome, out, err)
}

/// Reads the configuration, then the schedule, and plays it over a store of zeros.
pub fn read_and_play(alloc: Global, config: &[u8], schedule: &[u8]) -> Result<Play, ReadFault>
    ensures ok { IfOk result (IsPlay config.now schedule.now) }
    ensures fault { IfErr result (λ e.
        e ≢ fault.Memory → IsPlayRefusal config.now schedule.now e) }
{
    let config = read_config(alloc, config)?;
    if config.lives {
        return play_lives_text(alloc, &config.limits, schedule);
    }
    play_text(alloc, &config.limits, schedule)
}

/// Reads a schedule and plays it over a store of zeros.
fn play_text(alloc: Global, limits: &Limits, schedule: &[u8]) -> Result<Play, ReadFault>
    ensures ok { IfOk result (IsPlayOfText limits.now schedule.now) }
    ensures fault { IfErr result (λ e.
        e ≢ fault.Memory → IsScheduleRefusal false limits.now schedule.now e) }
{
    let events = read_schedule(alloc, limits, schedule)?;
    Ok(play_from_zeros(alloc, limits, events.as_slice())?)
}

/// Plays events over a store of zeros.
fn play_from_zeros(alloc: Global, limits: &Limits, events: &[Event]) -> Result<Play, AllocError>
    ensures { IfOk result (IsPlayOf limits.now events.now) }
{
    let store = Store::zeros(alloc, limits)?;
    let world: World<TwoQ> = World::new(alloc, limits, store)?;
    match world.play(events) {
        Ok(transcript) => Ok(Play::Whole(transcript)),
        Err(fault) => Ok(Play::Part(fault.transcript)),
    }
}

/// Reads a schedule over several lives of the server, and plays it over a store of zeros.
fn play_lives_text(alloc: Global, limits: &Limits, schedule: &[u8]) -> Result<Play, ReadFault>
    ensures ok { IfOk result (IsLivesPlayOfText limits.now schedule.now) }
    ensures fault { IfErr result (λ e.
        e ≢ fault.Memory → IsScheduleRefusal true limits.now schedule.now e) }
{
    let events = read_lives(alloc, limits, schedule)?;
    Ok(play_lives(alloc, limits, events.as_slice())?)
}

/// Plays events over a store of zeros, restarts of the server among them.
fn play_lives(alloc: Global, limits: &Limits, events: &[LivesEvent]) -> Result<Play, AllocError>
    ensures { IfOk result (IsLivesPlayOf limits.now events.now) }
{
    let store = Store::zeros(alloc, limits)?;
    let lives: Lives<TwoQ> = Lives::new(alloc, limits, store)?;
    match lives.play(events) {
        Ok(transcript) => Ok(Play::WholeLives(transcript)),
        Err(fault) => Ok(Play::PartLives(fault.transcript)),
    }
}

/// Prints the outcome of a play, and to `err` why it was refused. Returns the program's status. If
/// memory ended the play, it prints the lines of the events that were played. It fails only if a
/// writer does.
pub fn print_outcome<O: Write, E: Write>(
    alloc: Global,
    outcome: Result<Play, ReadFault>,
    out: &mut O,
    err: &mut E,
) -> io::Result<u8>
    ensures { IfOk result (λ status. PrintsOutcome outcome status
        (O.contents out.old) (O.contents out.new) (E.contents err.old) (E.contents err.new)) }
{
    match outcome {
        Ok(Play::Whole(transcript)) => print_whole(alloc, &transcript, out, err),
        Ok(Play::Part(transcript)) => print_part(&transcript, out, err),
        Ok(Play::WholeLives(transcript)) => print_whole_lives(alloc, transcript, out, err),
        Ok(Play::PartLives(transcript)) => print_part_lives(&transcript, out, err),
        Err(fault) => print_fault(&fault, err),
    }
}

/// Prints all of a transcript, with the serial check of it.
fn print_whole<O: Write, E: Write>(
    alloc: Global,
    transcript: &Transcript,
    out: &mut O,
    err: &mut E,
) -> io::Result<u8>
    ensures { IfOk result (λ status. Ends transcript.now status
        (O.contents out.old) (O.contents out.new) (E.contents err.old) (E.contents err.new)) }
{
    let checked = check_serial(alloc, transcript);
    put_entries(out, transcript.entries())?;
    print_checked(transcript.commits().len(), checked, out, err)
}

/// Prints all of a transcript over several lives, with the serial check of it.
fn print_whole_lives<O: Write, E: Write>(
    alloc: Global,
    transcript: LivesTranscript,
    out: &mut O,
    err: &mut E,
) -> io::Result<u8>
    ensures { IfOk result (λ status. EndsLives transcript status
        (O.contents out.old) (O.contents out.new) (E.contents err.old) (E.contents err.new)) }
{
    let commits = transcript.commits().len();
    put_lives_entries(out, transcript.entries())?;
    let checked = check_lives(alloc, transcript);
    print_checked(commits, checked, out, err)
}

/// Whether the commits that count are serial over all lives.
fn check_lives(alloc: Global, transcript: LivesTranscript) -> Result<Verdict, AllocError>
    ensures { IfOk result (λ v. (v ≡ verdict.Serial) ↔ IsSerialOverLives transcript) }
{
    let counted = transcript.into_transcript(alloc)?;
    check_serial(alloc, &counted)
}

/// Prints the last two lines, by what the serial check answered.
fn print_checked<O: Write, E: Write>(
    commits: usize,
    checked: Result<Verdict, AllocError>,
    out: &mut O,
    err: &mut E,
) -> io::Result<u8>
    ensures { IfOk result (λ status. PrintsVerdict commits checked status
        (O.contents out.old) (O.contents out.new) (E.contents err.old) (E.contents err.new)) }
{
    match checked {
        Ok(Verdict::Serial) => {
            put_verdict(out, commits, true)?;
            Ok(DONE)
        }
        Ok(Verdict::Not { .. }) => {
            put_verdict(out, commits, false)?;
            Ok(NOT_SERIAL)
        }
        Err(_) => say_memory(err),
    }
}

/// Prints the lines of the events that were played before memory was refused.
fn print_part<O: Write, E: Write>(
    transcript: &Transcript,
    out: &mut O,
    err: &mut E,
) -> io::Result<u8>
    ensures { IfOk result (λ status. EndsEarly (lines_from 1 transcript.now.entries) status
        (O.contents out.old) (O.contents out.new) (E.contents err.old) (E.contents err.new)) }
{
    put_entries(out, transcript.entries())?;
    say_memory(err)
}

/// The same of events over several lives.
fn print_part_lives<O: Write, E: Write>(
    transcript: &LivesTranscript,
    out: &mut O,
    err: &mut E,
) -> io::Result<u8>
    ensures { IfOk result (λ status. EndsEarly (lives_lines_from 1 transcript.now.entries) status
        (O.contents out.old) (O.contents out.new) (E.contents err.old) (E.contents err.new)) }
{
    put_lives_entries(out, transcript.entries())?;
    say_memory(err)
}

/// Says that memory was refused.
fn say_memory<E: Write>(err: &mut E) -> io::Result<u8>
    ensures status { IfOk result (λ status. status ≡ 4) }
    ensures said { OnOk result
        (Appends (E.contents err.old) (E.contents err.new) (codes "memory\n")) }
{
    writeln!(err, "memory")?;
    Ok(NO_MEMORY)
}

/// Prints why a text was refused, or that memory was.
pub fn print_fault<E: Write>(fault: &ReadFault, err: &mut E) -> io::Result<u8>
    ensures { IfOk result
        (λ status. PrintsFault fault.now status (E.contents err.old) (E.contents err.new)) }
{
    writeln!(err, "{fault}")?;
    match fault {
        ReadFault::Memory => Ok(NO_MEMORY),
        _ => Ok(WRONG_INPUT),
    }
}
