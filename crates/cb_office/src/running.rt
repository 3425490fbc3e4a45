//! Workers and the flusher, to their end.
ghost use Rattle.std.specs.Prelude.{◌≡◌, ◌*◌, IfOk, IfSome, Some};
ghost use Rattle.cb_office.specs.Outcomes.{PrintsCounted};
ghost use Rattle.cb_office.specs.Runs.{IsCounted, cut_off_of};

use crate::client::{give_up, job_list, run_part};
use crate::counting::{Counting, adds_up, all_jobs, sum_up};
use crate::over::Over;
use crate::parts::{Parts, RunOver};
use crate::results::Results;
use crate::run::Run;
use crate::tries::flush_in_tries;
use crate::{Counted, EarlyEnding, Gate, Unwatched, Watch, print_run};
use cb_page::Limits;
use cb_shelf::{Shelf, ShelfFault};
use cb_station::Office;
use cb_twoq::TwoQ;
use sqlite::Alter;
use std::alloc::Global;
use std::io::Write;
use std::sync::{Mutex, Wait};
use std::thread::Threads;
use std::time::Clock;
use std::{io, thread};

/// How a run ended: the status and, if its jobs were counted, that it was over at its office.
#[derive(Drop)]
pub struct RunEnd<'a> {
    pub status: u8,
    pub over: Option<RunOver<'a>>,
}

/// Starts a worker for each client, with so many jobs each, runs the flusher, and says what came of
/// it: on `out` how many jobs were committed and the sum of the counters, else on `err` why not.
/// Fewer than all jobs are told as committed only if the answer says that this run was cut off.
///
/// The office is halted when it returns.
pub fn run_on<'a, R, G, S, O, E>(
    rt: &'a R,
    alloc: Global,
    limits: &Limits,
    office: &'a Office,
    shelf: &mut Shelf<S>,
    jobs: u32,
    gate: &'a G,
    out: &mut O,
    err: &mut E,
) -> io::Result<RunEnd<'a>>
where
    R: Threads + Wait + Clock + Sync,
    G: Gate + Sync,
    S: Alter,
    O: Write,
    E: Write,
    ensures office { IfOk result (λ ended.
        IfSome ended.over (λ over. over.office ≡ office.entry.ref_ptr)) }
    ensures prints { IfOk result (λ ended. PrintsCounted (IsCounted S.Store
        (limits.now.clients * jobs) (cut_off_of ended.over) shelf.new.conn) ended.status
        (O.contents out.old) (O.contents out.new) (E.contents err.old) (E.contents err.new)) }
{
    let watch = &mut Unwatched;
    run_on_watched(
        rt, alloc, limits, office, shelf, jobs, gate, watch, out, err,
    )
}

/// As [`run_on`]. Meanwhile `watch` is told of each batch that is on disk, and when the flusher
/// waits.
pub fn run_on_watched<'a, R, G, S, W, O, E>(
    rt: &'a R,
    alloc: Global,
    limits: &Limits,
    office: &'a Office,
    shelf: &mut Shelf<S>,
    jobs: u32,
    gate: &'a G,
    watch: &mut W,
    out: &mut O,
    err: &mut E,
) -> io::Result<RunEnd<'a>>
where
    R: Threads + Wait + Clock + Sync,
    G: Gate + Sync,
    S: Alter,
    W: Watch,
    O: Write,
    E: Write,
    ensures office { IfOk result (λ ended.
        IfSome ended.over (λ over. over.office ≡ office.entry.ref_ptr)) }
    ensures prints { IfOk result (λ ended. PrintsCounted (IsCounted S.Store
        (limits.now.clients * jobs) (cut_off_of ended.over) shelf.new.conn) ended.status
        (O.contents out.old) (O.contents out.new) (E.contents err.old) (E.contents err.new)) }
{
    match run_and_count(rt, alloc, limits, office, shelf, jobs, gate, watch) {
        Ok((counted, over)) => {
            let status = print_run(Ok(counted), out, err)?;
            let over = Some(over);
            Ok(RunEnd { status, over })
        }
        Err(ending) => {
            let status = print_run(Err(ending), out, err)?;
            let over = None;
            Ok(RunEnd { status, over })
        }
    }
}

/// Starts a worker for each client, with so many jobs each, and runs the flusher to the end of all:
/// how many jobs were committed, the sum of the counters as the tables have them, and that the run
/// was over at this office. Fewer than all jobs are committed only if it says that this run was cut
/// off.
///
/// The office is halted when it returns, unless memory was refused before any thread started.
pub fn run_and_count<'a, R, G, S, W>(
    rt: &'a R,
    alloc: Global,
    limits: &Limits,
    office: &'a Office,
    shelf: &mut Shelf<S>,
    jobs: u32,
    gate: &'a G,
    watch: &mut W,
) -> Result<(Counted, RunOver<'a>), EarlyEnding>
where
    R: Threads + Wait + Clock + Sync,
    G: Gate + Sync,
    S: Alter,
    W: Watch,
    ensures office { IfOk result (λ done. done.1.office ≡ office.entry.ref_ptr) }
    ensures counted { IfOk result (λ done. IsCounted S.Store (limits.now.clients * jobs)
        (Some done.1.cut_off) shelf.new.conn done.0) }
{
    let run = Run {
        rt,
        alloc,
        office,
        gate,
    };
    counted(run, limits, shelf, jobs, watch)
}

/// Runs all to their end, and counts the results as they come: how many jobs were committed, and
/// the sum of the counters as the tables have them. Where not all were committed, and nobody cut
/// the run off, a worker is at fault.
fn counted<'a, R, G, S, W>(
    run: Run<'a, R, G>,
    limits: &Limits,
    shelf: &mut Shelf<S>,
    jobs: u32,
    watch: &mut W,
) -> Result<(Counted, RunOver<'a>), EarlyEnding>
where
    R: Threads + Wait + Clock + Sync,
    G: Gate + Sync,
    S: Alter,
    W: Watch,
    ensures office { IfOk result (λ done. done.1.office ≡ run.entry.office.ref_ptr) }
    ensures counted { IfOk result (λ done. IsCounted S.Store (limits.now.clients * jobs)
        (Some done.1.cut_off) shelf.new.conn done.0) }
{
    let Ok(results) = Results::new(run.alloc) else {
        return Err(EarlyEnding::Memory);
    };
    let mut counting = Counting::new(run.rt, run.alloc, limits, jobs, &results, watch)?;
    let over = run_all(run, limits, shelf, jobs, &mut counting, &results)?;
    let committed = counting.committed()?;
    let cut_off = over.is_cut_off();
    if !adds_up(committed, all_jobs(limits, jobs), cut_off) {
        return Err(EarlyEnding::Worker);
    }
    let sum = sum_up(run.alloc, shelf)?;
    Ok((Counted { committed, sum }, over))
}

/// The name of a run, under which its clients' endings are noted.
#[derive(Drop)]
struct ThisRun;

/// Runs the workers on threads of their own, and the flusher on this one, until all have ended. The
/// flusher ends once the last worker has; should it end before, the others are halted. Who ends
/// well holds that the run is over, and whether others cut it off: they halted the office, or
/// closed it before all had begun to work. It ends well only where as many parts as there are
/// clients ended with nothing to tell.
fn run_all<'a, R, G, S, W>(
    run: Run<'a, R, G>,
    limits: &Limits,
    shelf: &mut Shelf<S>,
    jobs: u32,
    watch: &mut W,
    results: &Results,
) -> Result<RunOver<'a>, EarlyEnding>
where
    R: Threads + Wait + Clock + Sync,
    G: Gate + Sync,
    S: Alter,
    W: Watch,
    ensures { IfOk result (λ over. over.office ≡ run.entry.office.ref_ptr) }
{
    let ended = Mutex::new(Parts::none(ThisRun));
    let parts = &ended;
    let flushed = thread::scope(
        thread::scope_env(),
        run.rt,
        |scope| -> Result<Over<'_>, ShelfFault>
            ensures { IfOk result (λ over. over.office ≡ run.entry.office.ref_ptr) }
        {
            for client in 0..limits.clients() {
                let started = match job_list(run.rt, run.alloc, jobs) {
                    Ok(list) => scope
                        .spawn(move || {
                            run_part::<TwoQ, R, G, ThisRun>(
                                run, limits, client, &list, results, parts,
                            )
                        })
                        .is_ok(),
                    Err(_) => false,
                };
                if !started {
                    let _noted = give_up(run.rt, run.office, parts, client, EarlyEnding::Memory);
                }
            }
            let flushed = flush_in_tries(run.rt, run.alloc, run.office, shelf, watch);
            run.office.halt(run.rt);
            flushed
        },
    );
    ended.lock(run.rt).end(flushed, limits.clients())
}
