//! Transactions that are dropped, restarts, and an office that was halted.
use crate::running::alone::reads;
use crate::running::trials::{Trial, goes_well};
use cb_client::ClientFault;
use cb_page::{Incarnation, PageNo};
use cb_station::{Office, OfficeFault};
use cb_twoq::Chooser;
use cb_worker::{Worker, WorkerFault};
use std::alloc::Global;
use std::sync::Wait;

/// What it wrote is gone once the transaction is dropped; no other is open then.
fn drops<Q: Chooser, R: Wait>(
    rt: &R,
    alloc: Global,
    office: &Office,
    worker: &mut Worker<Q>,
) -> Result<bool, WorkerFault> {
    let first = reads(rt, alloc, office, worker)?;
    worker.write(PageNo::new(0), &[7; 16])?;
    worker.drop_txn(rt, alloc, office)?;
    let none_open = WorkerFault::Client(ClientFault::NoTransaction);
    let over = worker.drop_txn(rt, alloc, office) == Err(none_open);
    let again = reads(rt, alloc, office, worker)?;
    worker.drop_txn(rt, alloc, office)?;
    Ok(first && over && again)
}

/// Each call that takes the office gives up once that is halted.
fn gives_up<Q: Chooser, R: Wait>(
    rt: &R,
    alloc: Global,
    office: &Office,
    worker: &mut Worker<Q>,
) -> Result<bool, WorkerFault> {
    let page = PageNo::new(0);
    worker.begin()?;
    office.halt(rt);
    let halted = WorkerFault::Halted;
    let fetched = worker.fetch(rt, alloc, office, page) == Err(halted);
    let wanted = worker.want(rt, alloc, office, page) == Err(halted);
    let dropped = worker.drop_txn(rt, alloc, office) == Err(halted);
    let finished = worker.finish(rt, alloc, office) == Err(halted);
    Ok(fetched && wanted && dropped && finished && worker.serve(rt, alloc, office) == Err(halted))
}

/// A restart in the same incarnation is refused, one in a later one is not.
fn restarts<Q: Chooser, R: Wait>(
    rt: &R,
    alloc: Global,
    office: &Office,
    worker: Worker<Q>,
) -> Result<Worker<Q>, (WorkerFault, Worker<Q>)> {
    let worker = match worker.restart(rt, alloc, office, Incarnation::new(1)) {
        Ok(worker) => return Err((WorkerFault::Halted, worker)),
        Err((fault, worker)) => {
            if fault != WorkerFault::Office(OfficeFault::Old) {
                return Err((fault, worker));
            }
            worker
        }
    };
    worker.restart(rt, alloc, office, Incarnation::new(5))
}

/// It drops a transaction, restarts, and gives up at an office that is halted.
pub(crate) fn drops_and_gives_up<Q: Chooser, R: Wait>(
    rt: &R,
    alloc: Global,
    office: &Office,
    mut worker: Worker<Q>,
) -> bool {
    let dropped = drops(rt, alloc, office, &mut worker) == Ok(true);
    match restarts(rt, alloc, office, worker) {
        Ok(mut worker) => {
            let gave_up = gives_up(rt, alloc, office, &mut worker) == Ok(true);
            worker.abandon();
            dropped && gave_up
        }
        Err((_, worker)) => {
            worker.abandon();
            false
        }
    }
}

#[test]
fn a_client_that_gives_up(rt: HostRuntime) {
    assert!(rt; goes_well(Trial::GivingUp, &rt, rt.alloc()));
}
