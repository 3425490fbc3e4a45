//! A worker's ticket between two tries.
ghost use Rattle.cb_worker.specs.Moving.{IsStill};

use cb_station::{EndedTry, Office, Ticket};
use cb_twoq::Chooser;
use cb_worker::{Worker, WorkerFault};
use std::alloc::Global;
use std::sync::Wait;

/// Gives the ticket of a worker's last try back, where the office hasn't got it yet. This comes
/// before all that may wait for others.
pub(crate) fn give_back<R: Wait>(rt: &R, office: &Office, last: Option<EndedTry>) {
    if let Some(ended) = last {
        office.end_try(rt, ended);
    }
}

/// Waits until the worker's next try is let in. Where the office hasn't got the ticket of its last
/// one back yet, it gets it as this one asks to be let in.
pub(crate) fn enter_next<R: Wait, Q: Chooser>(
    rt: &R,
    alloc: Global,
    office: &Office,
    worker: &mut Worker<Q>,
    last: Option<EndedTry>,
) -> Result<Ticket, WorkerFault>
    ensures { IsStill worker.old worker.new }
{
    match last {
        Some(ended) => worker.enter_again(rt, alloc, office, ended),
        None => worker.enter(rt, alloc, office),
    }
}
