//! What workers tell of the jobs that they did.
ghost use Rattle.std.specs.Prelude.{◌≡◌, IfOk};
ghost use Rattle.cb_office.specs.Jobs.{TellsJob};

use crate::JobDone;
use crate::job::run_job;
use cb_page::ClientNo;
use cb_station::{EndedTry, Office};
use cb_twoq::Chooser;
use cb_worker::{Worker, WorkerFault};
use crossbeam_channel::{Receiver, Sender, TryIter};
use std::alloc::{AllocError, Global};
use std::sync::Wait;

/// A job that was done and isn't told of yet. [`do_job`] alone makes one, and [`Results::send`]
/// alone takes one: it can't be copied or let go. So each job that is done is told of once, unless
/// memory for the telling is refused.
pub(crate) struct UntoldJob {
    done: JobDone,
}

/// What is told of a job that was done. Only [`Results::send`] makes one, of an [`UntoldJob`], and
/// nobody can copy it.
#[derive(Drop)]
pub struct DoneJob {
    done: JobDone,
}

impl DoneJob {
    /// Which job it is, and the number of its commit.
    pub fn told(self) -> JobDone
        ensures { result ≡ self.done }
    {
        let DoneJob { done } = self;
        done
    }
}

/// Does a job, and answers what is to be told of it, once it is on disk. The try that ended last is
/// `held`, before and afterwards.
pub(crate) fn do_job<R: Wait, Q: Chooser>(
    rt: &R,
    alloc: Global,
    office: &Office,
    worker: &mut Worker<Q>,
    client: ClientNo,
    job: u64,
    held: &mut Option<EndedTry>,
) -> Result<UntoldJob, WorkerFault>
    ensures { IfOk result (λ untold. TellsJob client job untold.done worker.old worker.new) }
{
    let number = run_job(rt, alloc, office, worker, client, held)?;
    let done = JobDone {
        client,
        job,
        number,
    };
    Ok(UntoldJob { done })
}

/// The results of jobs, which any number of workers send. Its two ends stay together until all
/// workers have ended, so only want of memory can keep a result from being sent.
#[derive(Drop)]
pub struct Results {
    to: Sender<DoneJob>,
    from: Receiver<DoneJob>,
}

impl Results {
    /// No results yet. `AllocError` only if memory was refused.
    pub fn new(alloc: Global) -> Result<Results, AllocError> {
        let (to, from) = crossbeam_channel::unbounded(alloc)?;
        Ok(Results { to, from })
    }

    /// Tells of a job that was done.
    pub(crate) fn send<R: Wait>(&self, rt: &R, untold: UntoldJob) -> Result<(), AllocError> {
        let UntoldJob { done } = untold;
        // It fails where memory is refused, or the other end is gone: and that is here.
        if self.to.send(rt, DoneJob { done }).is_err() {
            return Err(AllocError);
        }
        Ok(())
    }

    /// The results that were sent and nobody took yet. Each is taken as it is drawn.
    pub fn so_far<'a, R: Wait>(&'a self, rt: &'a R) -> TryIter<'a, DoneJob, R> {
        self.from.try_iter(rt)
    }

    /// The results that were sent and nobody took. No more come.
    pub fn into_receiver(self) -> Receiver<DoneJob> {
        let Results { to, from } = self;
        drop(to);
        from
    }
}
