//! A worker's jobs, one after another, and its end.
ghost use Rattle.std.specs.Prelude.{◌≡◌, Ok, Err, IfErr, IfOk, OnOk};
ghost use Rattle.cb_office.specs.Ends.{HasLeft};
ghost use Rattle.cb_worker.specs.Entering.{LeavesSome};
ghost use Rattle.cb_worker.specs.Refusals.{RefusesLeave};

use crate::ended_try::give_back;
use crate::results::{Results, do_job};
use crate::run::Run;
use crate::{Gate, Turn};
use cb_page::ClientNo;
use cb_station::{EndedTry, Office, OfficeFault};
use cb_twoq::Chooser;
use cb_worker::{Left, Worker, WorkerFault};
use crossbeam_channel::{Receiver, TryRecvError};
use std::alloc::Global;
use std::sync::Wait;
use std::time::{Clock, Duration};

/// A gate is asked again after so many milliseconds at the latest.
const MOMENT: u64 = 1;

/// Takes each job from the channel, and sends a result for each once it is on disk. If no job is
/// left, the worker leaves this office, as the answer says; after a fault it is abandoned. Whatever
/// happened, the office is told that one call of `work` has ended.
///
/// Where a client can't join, [`Office::skip_work`] is called in place of this.
///
/// In an office that is closed already it takes no job, and the worker leaves. An office that is
/// closed meanwhile waits for this call, which does all its jobs; the flusher writes them.
pub fn work<'a, R: Wait + Clock, Q: Chooser, G: Gate>(
    rt: &R,
    alloc: Global,
    office: &'a Office,
    mut worker: Worker<Q>,
    jobs: &Receiver<u64>,
    results: &Results,
    gate: &G,
) -> Result<Left<'a>, WorkerFault>
    ensures office { IfOk result (λ left. left.office ≡ office.entry.ref_ptr) }
    ensures client { IfOk result (λ left. left.client ≡ worker.hand.client) }
    ensures left { IfOk result (λ left. HasLeft left.client) }
{
    let run = Run {
        rt,
        alloc,
        office,
        gate,
    };
    let client = worker.client();
    if !office.lock(rt).begin_work() {
        return end(rt, alloc, office, worker, Ok(()));
    }
    let worked = run_jobs(run, &mut worker, jobs, results);
    let ended = end(rt, alloc, office, worker, worked);
    office.end_work(rt);
    of_client(client, ended)
}

/// What was answered, unless it is that another client left. No clause of a job says that the
/// worker stays its client's, so that is looked at.
fn of_client<'a>(
    client: ClientNo,
    ended: Result<Left<'a>, WorkerFault>,
) -> Result<Left<'a>, WorkerFault>
    ensures same { OnOk result (result ≡ ended.entry) }
    ensures client { IfOk result (λ left. left.client ≡ client) }
{
    let left = ended?;
    if left.client() != client {
        return Err(WorkerFault::Office(OfficeFault::Foreign));
    }
    Ok(left)
}

/// The worker leaves; it is abandoned where it faulted before, or can't leave.
fn end<'a, R: Wait + Clock, Q: Chooser>(
    rt: &R,
    alloc: Global,
    office: &'a Office,
    worker: Worker<Q>,
    worked: Result<(), WorkerFault>,
) -> Result<Left<'a>, WorkerFault>
    ensures worked { IfErr worked (λ fault. result ≡ Err fault) }
    ensures office { IfOk result (λ left. left.office ≡ office.entry.ref_ptr) }
    ensures client { IfOk result (λ left. left.client ≡ worker.hand.client) }
    ensures left { OnOk result (LeavesSome worker.hand (Ok tt)) }
    ensures why { OnOk worked (IfErr result (RefusesLeave worker)) }
{
    if let Err(fault) = worked {
        worker.abandon();
        return Err(fault);
    }
    match worker.take_leave(rt, alloc, office) {
        Ok(left) => Ok(left),
        Err((fault, worker)) => {
            worker.abandon();
            Err(fault)
        }
    }
}

/// Does all jobs. The ticket of the last try goes back then, however they ended.
fn run_jobs<R: Wait + Clock, Q: Chooser, G: Gate>(
    run: Run<'_, R, G>,
    worker: &mut Worker<Q>,
    jobs: &Receiver<u64>,
    results: &Results,
) -> Result<(), WorkerFault> {
    let mut held = None;
    let worked = do_jobs(run, worker, jobs, results, &mut held);
    give_back(run.rt, run.office, held);
    worked
}

/// Does each job once it may begin, and sends its result. The try that ended last is `held` until
/// the next one begins, or something is waited for.
fn do_jobs<R: Wait + Clock, Q: Chooser, G: Gate>(
    run: Run<'_, R, G>,
    worker: &mut Worker<Q>,
    jobs: &Receiver<u64>,
    results: &Results,
    held: &mut Option<EndedTry>,
) -> Result<(), WorkerFault> {
    let client = worker.client();
    for _ in run.rt.forever() {
        let Some(job) = next_job(run, jobs, held) else {
            return Ok(());
        };
        await_turn(run, worker, client, job, held)?;
        let untold = do_job(run.rt, run.alloc, run.office, worker, client, job, held)?;
        run.gate.after_commit(client, job);
        results.send(run.rt, untold)?;
    }
    unreachable!()
}

/// The next job; `None` once none is left. The ticket goes back before one is waited for.
fn next_job<R: Wait, G>(
    run: Run<'_, R, G>,
    jobs: &Receiver<u64>,
    held: &mut Option<EndedTry>,
) -> Option<u64> {
    match jobs.try_recv(run.rt) {
        Ok(job) => Some(job),
        Err(TryRecvError::Disconnected) => None,
        Err(TryRecvError::Empty) => {
            give_back(run.rt, run.office, held.take());
            jobs.recv(run.rt).ok()
        }
    }
}

/// Serves until the job may begin, and waits a moment each time that it may not. The ticket goes
/// back before that.
fn await_turn<R: Wait + Clock, Q: Chooser, G: Gate>(
    run: Run<'_, R, G>,
    worker: &mut Worker<Q>,
    client: ClientNo,
    job: u64,
    held: &mut Option<EndedTry>,
) -> Result<(), WorkerFault> {
    for _ in run.rt.forever() {
        if run.gate.before_job(client, job) == Turn::Go {
            return Ok(());
        }
        give_back(run.rt, run.office, held.take());
        let moment = Duration::from_millis(MOMENT);
        worker.serve_and_wait(run.rt, run.alloc, run.office, moment)?;
    }
    unreachable!()
}
