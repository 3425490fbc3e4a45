//! A client that comes with limits which aren't the office's.
use crate::running::trials::{Trial, goes_well};
use cb_page::{ClientNo, Limits};
use cb_station::{Office, OfficeFault};
use cb_twoq::Chooser;
use cb_worker::{Worker, WorkerFault};
use std::alloc::Global;
use std::sync::Wait;

/// The numbers of limits, each unlike those of the trials.
const OTHERS: [[u64; 6]; 6] = [
    [5, 2, 16, 2, 1, 1],
    [4, 3, 16, 2, 1, 1],
    [4, 2, 32, 2, 1, 1],
    [4, 2, 16, 3, 1, 1],
    [4, 2, 16, 3, 2, 1],
    [4, 2, 16, 2, 1, 2],
];

/// Client 0 joins with these limits. Its worker is abandoned.
fn joins<Q: Chooser, R: Wait>(
    rt: &R,
    alloc: Global,
    limits: &Limits,
    office: &Office,
) -> Result<(), WorkerFault> {
    let chooser = Q::make(alloc, limits)?;
    let worker = Worker::join(rt, alloc, office, limits, ClientNo::new(0), chooser)?;
    worker.abandon();
    Ok(())
}

/// Whether a client with the limits of these numbers is refused as `Foreign`.
fn are_foreign<Q: Chooser, R: Wait>(
    rt: &R,
    alloc: Global,
    numbers: &[u64; 6],
    office: &Office,
) -> bool {
    let [clients, pages, page_size, slots, kin, kout] = *numbers;
    let Ok(limits) = Limits::new(clients, pages, page_size, slots, kin, kout) else {
        return false;
    };
    joins::<Q, R>(rt, alloc, &limits, office) == Err(WorkerFault::Office(OfficeFault::Foreign))
}

/// Whether a client is refused whose limits are others in some number, or which would keep its
/// permissions to write. None of these joined, so it can then join with those of the office.
pub(crate) fn is_refused_with_others<Q: Chooser, R: Wait>(
    rt: &R,
    alloc: Global,
    limits: &Limits,
    office: &Office,
) -> bool {
    let mut refused = true;
    for numbers in &OTHERS {
        refused = refused && are_foreign::<Q, R>(rt, alloc, numbers, office);
    }
    let keeps = joins::<Q, R>(rt, alloc, &limits.keeping(), office);
    let kept_out = keeps == Err(WorkerFault::Office(OfficeFault::Foreign));
    refused && kept_out && joins::<Q, R>(rt, alloc, limits, office) == Ok(())
}

#[test]
fn limits_that_are_not_the_stations(rt: HostRuntime) {
    assert!(rt; goes_well(Trial::OtherLimits, &rt, rt.alloc()));
}
