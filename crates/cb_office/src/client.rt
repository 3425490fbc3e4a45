//! One client's part of a run.
ghost use Rattle.std.specs.Prelude.{◌≡◌, IfOk};
ghost use Rattle.cb_office.specs.Parts.{EndsHalted, EndsPart, IsEndOf};
ghost use Rattle.cb_office.specs.Runs.{of_client};

use crate::faults::of_worker;
use crate::halted::halted_at;
use crate::parts::{PartEnd, Parts};
use crate::results::Results;
use crate::run::Run;
use crate::working::work;
use crate::{EarlyEnding, Gate, Noted};
use cb_client::ClientFault;
use cb_page::{ClientNo, Limits};
use cb_station::{Office, OfficeFault};
use cb_twoq::Chooser;
use cb_worker::{Left, Worker, WorkerFault};
use crossbeam_channel::Receiver;
use std::alloc::{AllocError, Global};
use std::sync::{Mutex, Wait};
use std::time::Clock;

/// A channel that holds the jobs, with no sender left.
pub(crate) fn job_list<R: Wait>(
    rt: &R,
    alloc: Global,
    jobs: u32,
) -> Result<Receiver<u64>, AllocError> {
    let (to, from) = crossbeam_channel::unbounded(alloc)?;
    for job in 0..jobs {
        // The other end is here, so that it fails only where memory is refused.
        if to.send(rt, u64::from(job)).is_err() {
            return Err(AllocError);
        }
    }
    Ok(from)
}

/// Notes how a client's part of the run of this name ended, and halts the office.
pub(crate) fn give_up<R: Wait, N: Drop>(
    rt: &R,
    office: &Office,
    parts: &Mutex<Parts<N>>,
    client: u16,
    ending: EarlyEnding,
) -> Noted<N>
    ensures { result ≡ of_client client ending }
{
    let noted = parts.lock(rt).note(client, ending);
    office.halt(rt);
    noted
}

/// How a client's part of a run ended whose work was answered so. A fault is noted, and the office
/// halted. A client that was halted says nothing of why.
fn end_part<'a, R: Wait, N: Drop>(
    rt: &R,
    office: &'a Office,
    parts: &Mutex<Parts<N>>,
    client: u16,
    worked: Result<Left<'a>, WorkerFault>,
) -> PartEnd<'a, N>
    ensures { EndsPart office.entry.ref_ptr client worked.entry result }
{
    match worked {
        Ok(left) => PartEnd::Left(left),
        Err(fault) => match of_worker(fault) {
            Some(ending) => PartEnd::Noted(give_up(rt, office, parts, client, ending)),
            None => end_halted(rt, office, parts, client),
        },
    }
}

/// How the part ended of a client that was answered Halted. If the office isn't halted, that answer
/// is a worker's fault.
fn end_halted<'a, R: Wait, N: Drop>(
    rt: &R,
    office: &'a Office,
    parts: &Mutex<Parts<N>>,
    client: u16,
) -> PartEnd<'a, N>
    ensures { EndsHalted office.entry.ref_ptr client result }
{
    let halted = halted_at(office, &office.lock(rt));
    match halted {
        Some(halted) => PartEnd::Halted(halted),
        None => PartEnd::Noted(give_up(rt, office, parts, client, EarlyEnding::Worker)),
    }
}

/// A client joins and works, and leaves; where it can't go on the office is halted.
fn run_client<'a, Q: Chooser, R: Wait + Clock, G: Gate, N: Drop>(
    run: Run<'a, R, G>,
    limits: &Limits,
    client: u16,
    jobs: &Receiver<u64>,
    results: &Results,
    parts: &Mutex<Parts<N>>,
) -> PartEnd<'a, N>
    ensures { IsEndOf run.entry.office.ref_ptr client result }
{
    let worked = join_and_work::<Q, R, G>(run, limits, client, jobs, results);
    end_part(run.rt, run.office, parts, client, worked)
}

/// One client's part of a run, and that how it ended is counted.
pub(crate) fn run_part<Q: Chooser, R: Wait + Clock, G: Gate, N: Drop>(
    run: Run<'_, R, G>,
    limits: &Limits,
    client: u16,
    jobs: &Receiver<u64>,
    results: &Results,
    parts: &Mutex<Parts<N>>,
) {
    let end = run_client::<Q, R, G, N>(run, limits, client, jobs, results, parts);
    parts.lock(run.rt).take(end);
}

/// A client joins and works, and leaves. Where it can't join, its call of `work` is no more
/// expected.
fn join_and_work<'a, Q: Chooser, R: Wait + Clock, G: Gate>(
    run: Run<'a, R, G>,
    limits: &Limits,
    client: u16,
    jobs: &Receiver<u64>,
    results: &Results,
) -> Result<Left<'a>, WorkerFault>
    ensures office { IfOk result (λ left. left.office ≡ run.entry.office.ref_ptr) }
    ensures client { IfOk result (λ left. left.client ≡ client) }
{
    let Run {
        rt,
        alloc,
        office,
        gate,
    } = run;
    match join::<Q, R>(rt, alloc, office, limits, client) {
        Ok(worker) => work(rt, alloc, office, worker, jobs, results, gate),
        Err(fault) => {
            office.skip_work(rt);
            Err(fault)
        }
    }
}

/// A worker of the client, which joins over an empty chooser.
fn join<Q: Chooser, R: Wait>(
    rt: &R,
    alloc: Global,
    office: &Office,
    limits: &Limits,
    client: u16,
) -> Result<Worker<Q>, WorkerFault>
    ensures { IfOk result (λ worker. worker.hand.client ≡ client) }
{
    if !limits.has_client(client) {
        return Err(WorkerFault::Office(OfficeFault::Foreign));
    }
    let Ok(chooser) = Q::make(alloc, limits) else {
        return Err(WorkerFault::Client(ClientFault::Memory));
    };
    Worker::join(rt, alloc, office, limits, ClientNo::new(client), chooser)
}
