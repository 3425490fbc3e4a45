//! What the program does with the words of its command line.
ghost use Rattle.std.specs.Prelude.{◌≡◌, IfOk};
ghost use Rattle.cb_play.specs.Endings.{IsAnswered, IsStatus};
ghost use Rattle.cb_play.specs.Requests.{IsOver, IsOverNamed};

use crate::arguments::{DrawRequest, Request, RunRequest, request_of};
use crate::endings::end_by;
use crate::files::{read_file, read_text};
use crate::script::do_script;
use crate::serve_run::serve_store;
use crate::store_file::StoreEnd;
use crate::store_run::{AnyTime, run_store};
use cb_chart::chart_to;
use cb_console::{DONE, Escaped, WRONG_INPUT, draw_to, play_to};
use cb_office::{Progress, Unwatched};
use cb_one_side::play_lists;
use clap::Error;
use clap::error::ErrorKind;
use std::io::Write;
use std::sync::Wait;
use std::thread::Threads;
use std::time::Clock;
use std::{env, io};

/// The words of the process's command line; the first is the program's name. `InvalidData` if one
/// isn't text.
pub(crate) fn command_line(rt: &HostRuntime) -> io::Result<Vec<String>> {
    Ok(env::args(rt)?.collect(rt.alloc())?)
}

/// Does what the words ask for, and leaves nothing of it in the buffer of `out`. The answer is the
/// program's status.
///
/// Help and the version, if asked for, go to `out`; what is wrong with the words, or with a file,
/// goes to `err`, as does the line of a writer that failed. Only workers use `threads`.
pub(crate) fn run<R: Threads + Wait + Clock + Sync, O: Write, E: Write>(
    rt: &HostRuntime,
    threads: &R,
    words: io::Result<Vec<String>>,
    out: &mut O,
    err: &mut E,
) -> u8
    ensures { IsStatus result }
{
    match answer(rt, threads, words, out, err) {
        Ok(status) => status,
        Err(error) => end_by(&error, err),
    }
}

/// Answers the words and flushes.
fn answer<R: Threads + Wait + Clock + Sync, O: Write, E: Write>(
    rt: &HostRuntime,
    threads: &R,
    words: io::Result<Vec<String>>,
    out: &mut O,
    err: &mut E,
) -> io::Result<u8>
    ensures { IfOk result IsAnswered }
{
    let status = match words {
        Ok(words) => answer_words(rt, threads, words.as_slice(), out, err)?,
        Err(error) if error.kind() == io::ErrorKind::InvalidData => {
            writeln!(err, "words: text")?;
            WRONG_INPUT
        }
        Err(error) => return Err(error),
    };
    out.flush()?;
    Ok(status)
}

/// Does what words of text ask for.
fn answer_words<R: Threads + Wait + Clock + Sync, O: Write, E: Write>(
    rt: &HostRuntime,
    threads: &R,
    words: &[String],
    out: &mut O,
    err: &mut E,
) -> io::Result<u8>
    ensures { IfOk result IsAnswered }
{
    match request_of(rt.alloc(), words) {
        Ok(Request::Script(file)) => do_script(rt, threads, file, out, err),
        Ok(request) => Ok(do_request(rt, threads, request, out, err)?.status),
        Err(error) => tell_words(rt, words, &error, out, err),
    }
}

/// Does one request that is no script. The answer has the program's status and, if the request
/// names a store, which file was opened.
pub(crate) fn do_request<'a, R: Threads + Wait + Clock + Sync, O: Write, E: Write>(
    rt: &HostRuntime,
    threads: &R,
    request: Request<'a>,
    out: &mut O,
    err: &mut E,
) -> io::Result<StoreEnd<'a>>
    ensures status { IfOk result (λ ended. IsAnswered ended.status) }
    ensures store { IfOk result (λ ended.
        IsOverNamed request.entry ended (O.contents out.old) (O.contents out.new)) }
{
    match request {
        Request::Play { config, schedule } => {
            Ok(StoreEnd::none(play_files(rt, config, schedule, out, err)?))
        }
        Request::Chart { config, schedule } => {
            Ok(StoreEnd::none(chart_files(rt, config, schedule, out, err)?))
        }
        Request::Draw(request) => Ok(StoreEnd::none(draw_file(rt, &request, out, err)?)),
        Request::Run(request) => run_workers(rt, threads, &request, out, err),
        Request::Serve {
            config,
            store,
            announces,
        } => serve_frames(rt, config, store, announces, out, err),
        Request::Sides(file) => Ok(StoreEnd::none(play_sides(rt, file, out, err)?)),
        Request::Script(_) => {
            writeln!(err, "script: a script in a script")?;
            Ok(StoreEnd::none(WRONG_INPUT))
        }
    }
}

/// Prints what there is to say of words that ask for nothing that is done: help, the version, or
/// what is wrong with them.
pub(crate) fn tell_words<O: Write, E: Write>(
    rt: &HostRuntime,
    words: &[String],
    error: &Error,
    out: &mut O,
    err: &mut E,
) -> io::Result<u8>
    ensures { IfOk result IsAnswered }
{
    if error.kind() == ErrorKind::OutOfMemory {
        return Err(io::Error::from(io::ErrorKind::OutOfMemory));
    }
    if error.use_stderr() {
        return refuse_words(rt, words, err);
    }
    write!(out, "{error}")?;
    Ok(DONE)
}

/// Says what is wrong with wrong words, with their control characters escaped. An escaped word is
/// as wrong as it was.
fn refuse_words<E: Write>(rt: &HostRuntime, words: &[String], err: &mut E) -> io::Result<u8>
    ensures { IfOk result (λ status. status ≡ 2) }
{
    let mut shown: Vec<String> = Vec::new(rt.alloc());
    for word in words {
        let word = Escaped(word.as_str());
        shown.push(format!(in rt.alloc(); "{word}")?)?;
    }
    if let Err(error) = request_of(rt.alloc(), shown.as_slice()) {
        write!(err, "{error}")?;
    }
    Ok(WRONG_INPUT)
}

/// Plays the schedule of a file under the configuration of a file.
fn play_files<O: Write, E: Write>(
    rt: &HostRuntime,
    config: &str,
    schedule: &str,
    out: &mut O,
    err: &mut E,
) -> io::Result<u8>
    ensures { IfOk result IsAnswered }
{
    let Some((config, schedule)) = read_both(rt, config, schedule, err)? else {
        return Ok(WRONG_INPUT);
    };
    play_to(rt.alloc(), config.as_slice(), schedule.as_slice(), out, err)
}

/// Prints the picture of the schedule of a file that is played under the configuration of a file.
fn chart_files<O: Write, E: Write>(
    rt: &HostRuntime,
    config: &str,
    schedule: &str,
    out: &mut O,
    err: &mut E,
) -> io::Result<u8>
    ensures { IfOk result IsAnswered }
{
    let Some((config, schedule)) = read_both(rt, config, schedule, err)? else {
        return Ok(WRONG_INPUT);
    };
    chart_to(rt.alloc(), config.as_slice(), schedule.as_slice(), out, err)
}

/// The bytes of a configuration and of a schedule, read in this order. If one can't be read that is
/// said, and there are none.
fn read_both<E: Write>(
    rt: &HostRuntime,
    config: &str,
    schedule: &str,
    err: &mut E,
) -> io::Result<Option<(Vec<u8>, Vec<u8>)>> {
    let Some(config) = read_file(rt, config, err)? else {
        return Ok(None);
    };
    let Some(schedule) = read_file(rt, schedule, err)? else {
        return Ok(None);
    };
    Ok(Some((config, schedule)))
}

/// Draws a schedule under the configuration of a file.
fn draw_file<O: Write, E: Write>(
    rt: &HostRuntime,
    request: &DrawRequest<'_>,
    out: &mut O,
    err: &mut E,
) -> io::Result<u8>
    ensures { IfOk result IsAnswered }
{
    let Some(config) = read_file(rt, request.config, err)? else {
        return Ok(WRONG_INPUT);
    };
    let (seed, count) = (request.seed, request.count);
    draw_to(rt.alloc(), config.as_slice(), seed, count, out, err)
}

/// Runs workers under the configuration of a file. If it is asked for, the process's standard error
/// shows how far they are; `err` has the same as without it.
fn run_workers<'a, R: Threads + Wait + Clock + Sync, O: Write, E: Write>(
    rt: &HostRuntime,
    threads: &R,
    request: &RunRequest<'a>,
    out: &mut O,
    err: &mut E,
) -> io::Result<StoreEnd<'a>>
    ensures status { IfOk result (λ ended. IsAnswered ended.status) }
    ensures store { IfOk result (λ ended.
        IsOver request.now.store.now ended (O.contents out.old) (O.contents out.new)) }
{
    let Some(config) = read_file(rt, request.config, err)? else {
        return Ok(StoreEnd::none(WRONG_INPUT));
    };
    let (config, store) = (config.as_slice(), request.store);
    if request.progress {
        let mut progress = Progress::new(rt, rt.stderr());
        run_store(
            rt,
            threads,
            config,
            store,
            &AnyTime,
            &mut progress,
            out,
            err,
        )
    } else {
        run_store(
            rt,
            threads,
            config,
            store,
            &AnyTime,
            &mut Unwatched,
            out,
            err,
        )
    }
}

/// Serves the frames of the standard input under the configuration of a file.
fn serve_frames<'a, O: Write, E: Write>(
    rt: &HostRuntime,
    config: &str,
    store: &'a str,
    announces: bool,
    out: &mut O,
    err: &mut E,
) -> io::Result<StoreEnd<'a>>
    ensures status { IfOk result (λ ended. IsAnswered ended.status) }
    ensures store { IfOk result (λ ended.
        IsOver store.now ended (O.contents out.old) (O.contents out.new)) }
{
    let Some(config) = read_file(rt, config, err)? else {
        return Ok(StoreEnd::none(WRONG_INPUT));
    };
    let mut input = rt.stdin();
    serve_store(
        rt,
        config.as_slice(),
        store,
        announces,
        &mut input,
        out,
        err,
    )
}

/// Plays the lists of a file, each at one side alone.
fn play_sides<O: Write, E: Write>(
    rt: &HostRuntime,
    file: &str,
    out: &mut O,
    err: &mut E,
) -> io::Result<u8>
    ensures { IfOk result IsAnswered }
{
    let Some(text) = read_text(rt, "sides", file, err)? else {
        return Ok(WRONG_INPUT);
    };
    match play_lists(rt.alloc(), text.as_str(), out) {
        Ok(()) => Ok(DONE),
        Err(error) if error.kind() == io::ErrorKind::InvalidData => {
            writeln!(err, "sides: no such line")?;
            Ok(WRONG_INPUT)
        }
        Err(error) => Err(error),
    }
}
