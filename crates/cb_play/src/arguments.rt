//! The command line.

ghost use Rattle.std.specs.Prelude.{IfSome};
ghost use Rattle.clap.specs.Words.{subcommand_rows_of};
ghost use Rattle.cb_play.specs.Requests.{IsAsked};

use clap::error::ErrorKind;
use clap::{Arg, ArgAction, ArgMatches, Command, Error, value_parser};
use std::alloc::{AllocError, Global};
use std::convert::AsStr;

/// A schedule to be drawn: the path of the configuration, the seed, and how many events.
#[derive(Clone, Copy)]
pub(crate) struct DrawRequest<'a> {
    pub(crate) config: &'a str,
    pub(crate) seed: u64,
    pub(crate) count: usize,
}

/// Workers to be run: the paths of the configuration and of the store, and whether it is to be
/// shown how far they are.
#[derive(Clone, Copy)]
pub(crate) struct RunRequest<'a> {
    pub(crate) config: &'a str,
    pub(crate) store: &'a str,
    pub(crate) progress: bool,
}

/// What the command line asks for.
#[derive(Clone, Copy)]
pub(crate) enum Request<'a> {
    /// Play a schedule: the paths of the configuration and of the schedule.
    Play {
        config: &'a str,
        schedule: &'a str,
    },
    /// Draw the picture of a schedule that is played: the paths of the configuration and of the
    /// schedule.
    Chart {
        config: &'a str,
        schedule: &'a str,
    },
    /// Draw a schedule.
    Draw(DrawRequest<'a>),
    /// Run workers.
    Run(RunRequest<'a>),
    /// Serve frames: the paths of the configuration and of the store, and whether the life is told
    /// before any frame.
    Serve {
        config: &'a str,
        store: &'a str,
        announces: bool,
    },
    /// Play the lists of frames and calls in the file of this path, each at one side alone.
    Sides(&'a str),
    /// Do the command lines in the file of this path.
    Script(&'a str),
}

/// The program's version.
const VERSION: &str = "0.1.0";

const ABOUT: &str =
    "A page server with callback locking and its clients, played from a schedule or run on threads";

const PLAY_ABOUT: &str =
    "Plays a schedule on a store of zeros and prints what became of each event";

const CHART_ABOUT: &str = "Plays a schedule on a store of zeros and prints a picture of it, as SVG";

const DRAW_ABOUT: &str =
    "Draws a schedule by the words of a generator, and prints it, one event a line";

const RUN_ABOUT: &str =
    "Runs each client on a thread of its own, over the store in a file, until its jobs are done";

const SERVE_ABOUT: &str =
    "Serves the frames of the standard input over the store in a file, and answers on the output";

const SIDES_ABOUT: &str =
    "Plays lists of frames and calls at a client or a server alone, and prints what it answers";

const SCRIPT_ABOUT: &str =
    "Does the command lines of a file one after another, and prints what comes of each";

/// Every seed is below this.
const SEEDS: i64 = 1 << 62;

/// The most events of a drawn schedule.
const MOST_EVENTS: i64 = 1_000_000;

const EXAMPLE: &str = "\
Example:
  $ cat first.toml
  clients = 1
  pages = 8
  page_size = 16
  slots = 4
  $ cat first.schedule
  hello 0
  take 0
  take 1
  $ cb_play play first.toml first.schedule
  1 ok 0:Hello:0
  2 taken 1:Welcome:0
  3 taken
  commits 0
  serial: yes

Statuses:
  0  done
  1  the serial check said no
  2  wrong words, configuration or schedule
  3  the store or a worker refused
  4  no memory
  5  cannot write";

const PLAY_HELP: &str = "\
For each event there is one line: its place, its answer, and each packet that it sent as
number:kind:client. Then come the number of commits and whether a serial run gives the same.

CONFIG has whole numbers as TOML: clients, pages, page_size, slots, and if wanted kin, kout, jobs,
keep_write.

SCHEDULE has one event on a line; lines that begin with # are skipped:
  hello C       client C greets the server
  begin C       client C begins a transaction
  read C P      client C reads page P
  peek C P      the bytes of client C's copy of page P, without a read
  want C P      client C wants to write page P
  write C P B   client C writes page P: every byte is B, 0 to 255
  finish C      client C's transaction ends, to be committed
  drop C        client C's transaction is dropped
  restart C     client C is new, with its next incarnation
  take N        packet N arrives (packets are numbered from 0)
  again C       client C sends again what is unanswered
  again server  the server sends again what is unanswered
  flush         all that was committed is on the disk
  flush N       the commits up to N are on the disk

Statuses:
  0  done
  1  the serial check said no
  2  wrong words, configuration or schedule
  4  no memory
  5  cannot write";

const CHART_HELP: &str = "\
The picture stands alone, in light and dark by the viewer's setting. It has a lane for the server
and one for each client; time goes downwards, one row an event. An arrow goes from the event that
sent a packet to each that took it. A bar stands while a client can read its copy of the page, a
darker one while it may write it.

CONFIG and SCHEDULE are as for play, with at most 2,000 events.

Statuses:
  0  done
  2  wrong words, configuration or schedule
  4  no memory
  5  cannot write";

const DRAW_HELP: &str = "\
The events are drawn while they are played, on a store of zeros: a packet to take was sent before.
The same CONFIG, seed and number of events give the same schedule.

Statuses:
  0  done
  2  wrong words or configuration
  4  no memory
  5  cannot write";

const RUN_HELP: &str = "\
STORE is a database file, made where it isn't there. Each client has as many jobs as CONFIG says
(jobs, up to 100,000). A job adds one to the counters that pages 0 and 1 begin with, in one
transaction; it is done once that is on disk. Then come how many jobs were committed, and the sum of
the two counters in the store.

With --progress the standard error shows, at most twice a second, how many jobs are committed of how
many, and how many commits a write to disk carries since the line before:
  committed 5230 of 40000, 3.8 a batch

CONFIG is as for play; there must be 2 pages, and keep_write must be 0.

Statuses:
  0  done
  2  wrong words or configuration
  3  the store or a worker refused
  4  no memory
  5  cannot write";

const SERVE_HELP: &str = "\
The standard input has frames of all clients, one after another; what is said to clients goes out
the same way, until the input ends. STORE is a database file, made where it isn't there. A commit is
answered once it is on disk; those that came together are written together.

A frame that can't be read is passed over by the length in its header; how many were is said at the
end, on the standard error. A header of version 2 and kind 0, whose other bytes are 0, stands alone:
what may be lost is said again.

Each start begins a life of the store, whose floor is above every incarnation that was ever welcome:
frames of incarnations below it are let go. With --announce such a header goes out first, whose
incarnation is the floor.

CONFIG is as for play; jobs counts for nothing.

Statuses:
  0  the input ended, and all is written
  2  wrong words or configuration
  3  the store refused, or the input is no frames
  4  no memory
  5  cannot write";

const SIDES_HELP: &str = "\
A list of FILE begins with its side and its limits. Each line behind that is a frame that comes or a
call, and is printed with all that the side answers.

Statuses:
  0  done
  2  wrong words, or a line that is none of a list
  4  no memory
  5  cannot write";

const SCRIPT_HELP: &str = "\
A line of FILE has the words of one command with a space between them, without the program's name.
For each there is the line itself, what the command prints on either stream, and the status that it
would end with. None of the commands can be a script.

Statuses:
  0  every line was done, whatever its status
  2  wrong words, or FILE is no text
  4  no memory
  5  cannot write";

fn path<'a>(alloc: Global, name: &'a str, help: &'a str) -> Arg<'a> {
    Arg::new(alloc, name)
        .required(true)
        .action(ArgAction::Set)
        .help(help)
}

/// A command that plays the schedule of a file under the configuration of a file.
fn schedule_command<'a>(
    alloc: Global,
    name: &'a str,
    about: &'a str,
    after_help: &'a str,
) -> Result<Command<'a>, AllocError> {
    Command::new(alloc, name)
        .about(about)
        .after_help(after_help)
        .arg(path(alloc, "CONFIG", "File with the settings, as TOML"))?
        .arg(path(alloc, "SCHEDULE", "File with the events, one a line"))
}

fn play_command<'a>(alloc: Global) -> Result<Command<'a>, AllocError> {
    schedule_command(alloc, "play", PLAY_ABOUT, PLAY_HELP)
}

fn chart_command<'a>(alloc: Global) -> Result<Command<'a>, AllocError> {
    schedule_command(alloc, "chart", CHART_ABOUT, CHART_HELP)
}

/// An option whose value is a whole number from 0 to the most.
fn number<'a>(alloc: Global, name: &'a str, most: i64, help: &'a str) -> Arg<'a> {
    Arg::new(alloc, name)
        .long(name)
        .required(true)
        .action(ArgAction::Set)
        .value_name("N")
        .value_parser(value_parser!(u64).range(0..=most))
        .help(help)
}

fn draw_command<'a>(alloc: Global) -> Result<Command<'a>, AllocError> {
    Command::new(alloc, "draw")
        .about(DRAW_ABOUT)
        .after_help(DRAW_HELP)
        .arg(path(alloc, "CONFIG", "File with the settings, as TOML"))?
        .arg(number(
            alloc,
            "seed",
            SEEDS - 1,
            "Where the generator starts, below 2^62",
        ))?
        .arg(number(
            alloc,
            "events",
            MOST_EVENTS,
            "How many events, up to 1,000,000",
        ))
}

fn run_command<'a>(alloc: Global) -> Result<Command<'a>, AllocError> {
    Command::new(alloc, "run")
        .about(RUN_ABOUT)
        .after_help(RUN_HELP)
        .arg(path(alloc, "CONFIG", "File with the settings, as TOML"))?
        .arg(path(alloc, "STORE", "File with the store's tables"))?
        .arg(
            Arg::new(alloc, "progress")
                .long("progress")
                .action(ArgAction::SetTrue)
                .help("Show how far it is, on the standard error"),
        )
}

fn serve_command<'a>(alloc: Global) -> Result<Command<'a>, AllocError> {
    Command::new(alloc, "serve")
        .about(SERVE_ABOUT)
        .after_help(SERVE_HELP)
        .arg(path(alloc, "CONFIG", "File with the settings, as TOML"))?
        .arg(path(alloc, "STORE", "File with the store's tables"))?
        .arg(
            Arg::new(alloc, "announce")
                .long("announce")
                .action(ArgAction::SetTrue)
                .help("Tell the life's floor before anything else"),
        )
}

/// A command that reads one file.
fn file_command<'a>(
    alloc: Global,
    name: &'a str,
    about: &'a str,
    after_help: &'a str,
    help: &'a str,
) -> Result<Command<'a>, AllocError> {
    Command::new(alloc, name)
        .about(about)
        .after_help(after_help)
        .arg(path(alloc, "FILE", help))
}

fn sides_command<'a>(alloc: Global) -> Result<Command<'a>, AllocError> {
    file_command(
        alloc,
        "sides",
        SIDES_ABOUT,
        SIDES_HELP,
        "File with the lists, one after another",
    )
}

fn script_command<'a>(alloc: Global) -> Result<Command<'a>, AllocError> {
    file_command(
        alloc,
        "script",
        SCRIPT_ABOUT,
        SCRIPT_HELP,
        "File with the command lines",
    )
}

/// The command with one more below it.
fn with<'a>(
    command: Command<'a>,
    below: Result<Command<'a>, AllocError>,
) -> Result<Command<'a>, AllocError> {
    command.subcommand(below?)
}

fn command<'a>(alloc: Global) -> Result<Command<'a>, AllocError> {
    let command = Command::new(alloc, "cb_play")
        .version(VERSION)
        .about(ABOUT)
        .after_help(EXAMPLE)
        .subcommand_required(true)
        .arg_required_else_help(true);
    let command = with(command, play_command(alloc))?;
    let command = with(command, chart_command(alloc))?;
    let command = with(command, draw_command(alloc))?;
    let command = with(command, run_command(alloc))?;
    let command = with(command, serve_command(alloc))?;
    let command = with(command, sides_command(alloc))?;
    with(command, script_command(alloc))
}

/// What a command line that was read asks for, if it asks for anything.
fn asked<'a>(matches: &ArgMatches<'a>) -> Option<Request<'a>>
    ensures { IfSome result (λ request. IsAsked (subcommand_rows_of matches.now) request) }
{
    match matches.subcommand() {
        Some(("play", matches)) => Some(Request::Play {
            config: matches.get_str("CONFIG")?,
            schedule: matches.get_str("SCHEDULE")?,
        }),
        Some(("chart", matches)) => Some(Request::Chart {
            config: matches.get_str("CONFIG")?,
            schedule: matches.get_str("SCHEDULE")?,
        }),
        Some(("draw", matches)) => Some(Request::Draw(DrawRequest {
            config: matches.get_str("CONFIG")?,
            seed: matches.get_one("seed")?,
            count: matches.get_one("events")?,
        })),
        Some(("run", matches)) => Some(Request::Run(RunRequest {
            config: matches.get_str("CONFIG")?,
            store: matches.get_str("STORE")?,
            progress: matches.get_flag("progress"),
        })),
        Some(("serve", matches)) => Some(Request::Serve {
            config: matches.get_str("CONFIG")?,
            store: matches.get_str("STORE")?,
            announces: matches.get_flag("announce"),
        }),
        Some(("sides", matches)) => Some(Request::Sides(matches.get_str("FILE")?)),
        Some(("script", matches)) => Some(Request::Script(matches.get_str("FILE")?)),
        _ => None,
    }
}

/// What to print if there is nothing to do.
fn nothing_to_do(alloc: Global) -> Result<Error, AllocError> {
    command(alloc)?.error(ErrorKind::MissingSubcommand, "there is nothing to do")
}

/// What these words ask for; the first is the program's name. Else what to print, as clap has it:
/// help or the version, if it was asked for, or what is wrong with the words.
pub(crate) fn request_of<'a, S: AsStr>(
    alloc: Global,
    words: &'a [S],
) -> Result<Request<'a>, Error> {
    let matches = command(alloc)?.try_get_matches_from(words)?;
    match asked(&matches) {
        Some(request) => Ok(request),
        None => Err(nothing_to_do(alloc)?),
    }
}
