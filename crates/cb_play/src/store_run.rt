//! Workers over a store in a file.
ghost use Rattle.std.specs.Prelude.{◌≡◌, ◌*◌, false, Err, IfOk, None};
ghost use Rattle.cb_commit.specs.Stores.{IsOf};
ghost use Rattle.cb_office.specs.Outcomes.{PrintsCounted, PrintsRun};
ghost use Rattle.cb_office.specs.Runs.{IsCounted, cut_off_of};
ghost use Rattle.cb_play.specs.StoreRuns.{IsStoreRun, PrintsOver, PrintsReached, all_jobs};

use crate::store_file::{StoreEnd, StoreFile};
use cb_commit::Store;
use cb_console::{Config, print_refusal, run_settings};
use cb_office::{
    EarlyEnding, Gate, PastRun, RunEnd, Turn, Watch, of_shelf, print_run, run_on_watched,
};
use cb_page::{ClientNo, Incarnation, Limits};
use cb_shelf::{Life, Shelf};
use cb_station::{Office, Station};
use sqlite::{Alter, Connection};
use std::alloc::Global;
use std::io;
use std::io::Write;
use std::sync::Wait;
use std::thread::Threads;
use std::time::Clock;

/// A gate that lets every job begin at once.
#[derive(Drop)]
pub(crate) struct AnyTime;

impl Gate for AnyTime {
    fn before_job(&self, _client: ClientNo, _job: u64) -> Turn {
        Turn::Go
    }

    fn after_commit(&self, _client: ClientNo, _job: u64) {}
}

/// What was said of a run over a store: the status, and, where its jobs were counted, that it was
/// over.
#[derive(Drop)]
struct Printed {
    status: u8,
    run: Option<PastRun>,
}

/// Runs workers under a configuration's text, over the store in a file, which is made where it
/// isn't there. It says on `out` how many jobs were committed and the sum of the counters, else on
/// `err` why not; the answer has the program's status, and which file was opened. Fewer than all
/// jobs are told as committed only if the answer says that this run was cut off. Meanwhile `watch`
/// is told how far it is.
///
/// The file isn't opened before the configuration was checked. That the store is closed at the end
/// is said by no clause: what was committed is on disk before that, beside the file if not in it.
pub(crate) fn run_store<'a, R, G, W, O, E>(
    rt: &HostRuntime,
    threads: &R,
    config: &[u8],
    store: &'a str,
    gate: &G,
    watch: &mut W,
    out: &mut O,
    err: &mut E,
) -> io::Result<StoreEnd<'a>>
where
    R: Threads + Wait + Clock + Sync,
    G: Gate + Sync,
    W: Watch,
    O: Write,
    E: Write,
    ensures { IfOk result (λ ended. IsStoreRun config.now store.now ended
        (O.contents out.old) (O.contents out.new) (E.contents err.old) (E.contents err.new)) }
{
    match run_settings(rt.alloc(), config) {
        Ok(config) => run_file(rt, threads, &config, store, gate, watch, out, err),
        Err(fault) => {
            let status = print_refusal(&fault, err)?;
            Ok(StoreEnd::none(status))
        }
    }
}

/// Opens the file, runs, and closes it.
fn run_file<'a, R, G, W, O, E>(
    rt: &HostRuntime,
    threads: &R,
    config: &Config,
    store: &'a str,
    gate: &G,
    watch: &mut W,
    out: &mut O,
    err: &mut E,
) -> io::Result<StoreEnd<'a>>
where
    R: Threads + Wait + Clock + Sync,
    G: Gate + Sync,
    W: Watch,
    O: Write,
    E: Write,
    requires { config.now.limits.keep_write ≡ false }
    ensures { IfOk result (λ ended. PrintsOver store.now config.now ended
        (O.contents out.old) (O.contents out.new) (E.contents err.old) (E.contents err.new)) }
{
    let (mut file, opened) = StoreFile::open(rt, store);
    let conn = match opened {
        Ok(conn) => conn,
        Err(fault) => {
            let status = print_run(Err(of_shelf(fault)), out, err)?;
            return Ok(StoreEnd::over(status, file, None));
        }
    };
    let alloc = rt.alloc();
    let (printed, conn) = run_over(
        threads, alloc, config, conn, &mut file, gate, watch, out, err,
    );
    // What is still in the log beside the file, the next open finds.
    let _ = conn.close();
    let ended = printed?;
    let Printed { status, run } = ended;
    Ok(StoreEnd::over(status, file, run))
}

/// Runs workers over the store in a database, and gives the connection back.
fn run_over<R, S, G, W, O, E>(
    threads: &R,
    alloc: Global,
    config: &Config,
    conn: Connection<S>,
    file: &mut StoreFile<'_>,
    gate: &G,
    watch: &mut W,
    out: &mut O,
    err: &mut E,
) -> (io::Result<Printed>, Connection<S>)
where
    R: Threads + Wait + Clock + Sync,
    S: Alter,
    G: Gate + Sync,
    W: Watch,
    O: Write,
    E: Write,
    requires { config.now.limits.keep_write ≡ false }
    ensures path { file.new.path.now ≡ file.old.path.now }
    ensures prints { IfOk result.0 (λ printed. PrintsReached file.new.reach
        (IsCounted S.Store (all_jobs config.now) printed.run result.1) printed.status
        (O.contents out.old) (O.contents out.new) (E.contents err.old) (E.contents err.new)) }
{
    match file.lay_out(alloc, conn, &config.limits) {
        Ok(mut shelf) => {
            let printed = run_in(
                threads, alloc, config, &mut shelf, file, gate, watch, out, err,
            );
            (printed, shelf.close())
        }
        Err((fault, conn)) => (refuse(of_shelf(fault), out, err), conn),
    }
}

/// Runs workers over the store in a shelf.
fn run_in<R, S, G, W, O, E>(
    threads: &R,
    alloc: Global,
    config: &Config,
    shelf: &mut Shelf<S>,
    file: &mut StoreFile<'_>,
    gate: &G,
    watch: &mut W,
    out: &mut O,
    err: &mut E,
) -> io::Result<Printed>
where
    R: Threads + Wait + Clock + Sync,
    S: Alter,
    G: Gate + Sync,
    W: Watch,
    O: Write,
    E: Write,
    requires plain { config.now.limits.keep_write ≡ false }
    requires shelf { shelf.old.limits ≡ config.now.limits }
    ensures path { file.new.path.now ≡ file.old.path.now }
    ensures prints { IfOk result (λ printed. PrintsReached file.new.reach
        (IsCounted S.Store (all_jobs config.now) printed.run shelf.new.conn) printed.status
        (O.contents out.old) (O.contents out.new) (E.contents err.old) (E.contents err.new)) }
{
    let life = match file.begin_life(shelf) {
        Ok(life) => life,
        Err(fault) => return refuse(of_shelf(fault), out, err),
    };
    match file.read(alloc, shelf) {
        Ok(store) => run_from(
            threads, alloc, config, store, life, shelf, gate, watch, out, err,
        ),
        Err(fault) => refuse(of_shelf(fault), out, err),
    }
}

/// Runs workers from a store on that lies in the shelf. A life has begun over it, so whoever joins
/// has an incarnation above its floor.
fn run_from<R, S, G, W, O, E>(
    threads: &R,
    alloc: Global,
    config: &Config,
    store: Store,
    life: Life,
    shelf: &mut Shelf<S>,
    gate: &G,
    watch: &mut W,
    out: &mut O,
    err: &mut E,
) -> io::Result<Printed>
where
    R: Threads + Wait + Clock + Sync,
    S: Alter,
    G: Gate + Sync,
    W: Watch,
    O: Write,
    E: Write,
    requires plain { config.now.limits.keep_write ≡ false }
    requires store { IsOf config.now.limits store }
    ensures { IfOk result (λ printed. PrintsCounted
        (IsCounted S.Store (all_jobs config.now) printed.run shelf.new.conn) printed.status
        (O.contents out.old) (O.contents out.new) (E.contents err.old) (E.contents err.new)) }
{
    let (limits, jobs) = (&config.limits, config.jobs);
    match office_over(alloc, limits, store, life.floor(), jobs, watch) {
        Ok(office) => run_at(
            threads, alloc, config, &office, shelf, gate, watch, out, err,
        ),
        Err(ending) => refuse(ending, out, err),
    }
}

/// Runs workers in an office over the store in a shelf. Once the run is over the office may go.
fn run_at<R, S, G, W, O, E>(
    threads: &R,
    alloc: Global,
    config: &Config,
    office: &Office,
    shelf: &mut Shelf<S>,
    gate: &G,
    watch: &mut W,
    out: &mut O,
    err: &mut E,
) -> io::Result<Printed>
where
    R: Threads + Wait + Clock + Sync,
    S: Alter,
    G: Gate + Sync,
    W: Watch,
    O: Write,
    E: Write,
    ensures { IfOk result (λ printed. PrintsCounted
        (IsCounted S.Store (all_jobs config.now) printed.run shelf.new.conn) printed.status
        (O.contents out.old) (O.contents out.new) (E.contents err.old) (E.contents err.new)) }
{
    let (limits, jobs) = (&config.limits, config.jobs);
    let ended = run_on_watched(
        threads, alloc, limits, office, shelf, jobs, gate, watch, out, err,
    )?;
    Ok(printed_of(ended))
}

/// What is left of a run with this end, once its office is gone.
fn printed_of(ended: RunEnd<'_>) -> Printed
    ensures status { result.status ≡ ended.entry.status }
    ensures run { result.run ≡ cut_off_of ended.entry.over }
{
    let RunEnd { status, over } = ended;
    match over {
        Some(over) => Printed {
            status,
            run: Some(over.into_past()),
        },
        None => Printed { status, run: None },
    }
}

/// Says why nothing was counted.
fn refuse<O: Write, E: Write>(ending: EarlyEnding, out: &mut O, err: &mut E) -> io::Result<Printed>
    ensures prints { IfOk result (λ printed. PrintsRun (Err ending) printed.status
        (O.contents out.old) (O.contents out.new) (E.contents err.old) (E.contents err.new)) }
    ensures none { IfOk result (λ printed. printed.run ≡ None) }
{
    let status = print_run(Err(ending), out, err)?;
    Ok(Printed { status, run: None })
}

/// An office over a store, in a life from this floor on, that each client's work will use; `watch`
/// is told of the run.
fn office_over<W: Watch>(
    alloc: Global,
    limits: &Limits,
    store: Store,
    floor: Incarnation,
    jobs: u32,
    watch: &mut W,
) -> Result<Office, EarlyEnding>
    requires plain { limits.now.keep_write ≡ false }
    requires store { IsOf limits.now store }
    ensures { IfOk result (λ office. office.expected ≡ limits.now.clients) }
{
    let all = u64::from(limits.clients()).saturating_mul(u64::from(jobs));
    watch.begins(all, store.number());
    match Station::resume(alloc, limits, store, floor) {
        Ok(station) => Ok(Office::new(station, usize::from(limits.clients()))),
        Err(_) => Err(EarlyEnding::Memory),
    }
}
