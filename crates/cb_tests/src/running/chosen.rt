//! Which pages a worker's pool lets go: those that the chooser names which `join` was handed. Once
//! the worker began another incarnation they are those that a chooser of its limits names.
use cb_commit::Store;
use cb_page::{ClientNo, Incarnation, Limits, PageNo};
use cb_station::{Office, Station};
use cb_twoq::{Chooser, TwoQ};
use cb_worker::{Worker, WorkerFault};
use std::alloc::Global;
use std::sync::Wait;

/// The pages that are read, each by a transaction of its own. As the last one comes, page 0 is in
/// Am, and pages 3 and 2 are in A1in.
const READS: [u64; 6] = [0, 1, 2, 3, 0, 4];

/// Reads a page in a transaction of its own, which is dropped.
fn reads_alone<R: Wait>(
    rt: &R,
    alloc: Global,
    office: &Office,
    worker: &mut Worker<TwoQ>,
    page: PageNo,
) -> Result<(), WorkerFault> {
    worker.begin()?;
    worker.fetch(rt, alloc, office, page)?;
    worker.drop_txn(rt, alloc, office)
}

/// Whether these pages, and no others of the store, aren't at the client.
fn are_gone(limits: &Limits, worker: &Worker<TwoQ>, gone: [u64; 2]) -> bool {
    for number in 0..u64::from(limits.pages()) {
        let Some(page) = PageNo::in_store(limits, number) else {
            return false;
        };
        let is_gone = number == gone[0] || number == gone[1];
        if worker.peek(page).is_none() != is_gone {
            return false;
        }
    }
    true
}

/// Whether a worker that reads the pages lets these go.
fn lets_go<R: Wait>(
    rt: &R,
    alloc: Global,
    limits: &Limits,
    office: &Office,
    worker: &mut Worker<TwoQ>,
    gone: [u64; 2],
) -> Result<bool, WorkerFault> {
    for number in READS {
        let Some(page) = PageNo::in_store(limits, number) else {
            return Ok(false);
        };
        reads_alone(rt, alloc, office, worker, page)?;
    }
    Ok(are_gone(limits, worker, gone))
}

/// Whether a worker goes by a chooser that keeps two pages in A1in: so page 0 goes for the last
/// one. Whether it goes by its limits, by which A1in keeps one, once it began another incarnation:
/// then page 2 goes.
fn goes_by_its_chooser<R: Wait>(
    rt: &R,
    alloc: Global,
    limits: &Limits,
    office: &Office,
    mut worker: Worker<TwoQ>,
) -> bool {
    let as_handed = lets_go(rt, alloc, limits, office, &mut worker, [0, 1]) == Ok(true);
    match worker.restart(rt, alloc, office, Incarnation::new(5)) {
        Ok(mut worker) => {
            let by_limits = lets_go(rt, alloc, limits, office, &mut worker, [1, 2]) == Ok(true);
            worker.abandon();
            as_handed && by_limits
        }
        Err((_, worker)) => {
            worker.abandon();
            false
        }
    }
}

/// The same of a client that joins with such a chooser, which `make` wouldn't make of its limits.
fn one_goes_by_its_chooser<R: Wait>(rt: &R, alloc: Global) -> Option<bool> {
    let Ok(limits) = Limits::new(1, 5, 16, 3, 1, 2) else {
        return None;
    };
    let Ok(others) = Limits::new(1, 5, 16, 3, 2, 2) else {
        return None;
    };
    let store = Store::zeros(alloc, &limits).ok()?;
    let office = Office::new(Station::new(alloc, &limits, store).ok()?, 1);
    let Ok(handed) = TwoQ::make(alloc, &others) else {
        return None;
    };
    let client = ClientNo::new(0);
    let worker = Worker::join(rt, alloc, &office, &limits, client, handed).ok()?;
    Some(goes_by_its_chooser(rt, alloc, &limits, &office, worker))
}

#[test]
fn the_chooser_that_was_handed_in(rt: HostRuntime) {
    assert!(rt; one_goes_by_its_chooser(&rt, rt.alloc()) == Some(true));
}
