//! The program. It plays a page server with callback locking and its clients from a schedule of
//! events, or runs them on threads over a store on disk.
//!
//! `cb_console` reads configurations, plays and draws; `cb_chart` makes pictures; `cb_office` runs
//! workers; `cb_serve` serves frames; `cb_one_side` plays at one side alone. This crate has the
//! words of the command line, the files that are read for them, scripts of such words, and how the
//! program ends.
#![tactic(auto)]

mod arguments;
mod endings;
mod files;
mod program;
mod script;
mod serve_run;
mod store_file;
mod store_run;

use crate::endings::end_by;
use crate::program::{command_line, run};
use std::io;
use std::io::BufWriter;
use std::process::ExitCode;
use std::sync::Wait;
use std::thread::Threads;
use std::time::Clock;

/// Does what the command line asks for, on the standard streams; the answer is the program's
/// status.
fn run_on_streams<R: Threads + Wait + Clock + Sync>(rt: &HostRuntime, threads: &R) -> u8 {
    let mut err = rt.stderr();
    match BufWriter::new(rt.alloc(), io::writer(rt)) {
        Ok(mut out) => run(rt, threads, command_line(rt), &mut out, &mut err),
        Err(error) => end_by(&error, &mut err),
    }
}

fn main(rt: HostRuntime) -> ExitCode {
    ExitCode::from(run_on_streams(&rt, &rt))
}
