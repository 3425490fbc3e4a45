//! A call of `work` that would begin in an office that was closed before, and one whose client
//! can't join.
use crate::running::alone::may_come_back;
use crate::running::gates::{Counts, Guarded};
use crate::running::run::open_plan;
use crate::running::trials::{Trial, goes_well};
use cb_office::{Results, work};
use cb_page::{ClientNo, Limits};
use cb_station::Office;
use cb_twoq::Chooser;
use cb_worker::Worker;
use std::alloc::Global;
use std::sync::Wait;
use std::time::Clock;

/// Whether a worker with one job leaves it in its channel, commits nothing, and leaves.
fn leaves_its_job<Q: Chooser, R: Wait + Clock>(
    rt: &R,
    alloc: Global,
    office: &Office,
    worker: Worker<Q>,
) -> bool {
    let (Ok((to, jobs)), Ok(results)) = (crossbeam_channel::unbounded(alloc), Results::new(alloc))
    else {
        worker.abandon();
        return false;
    };
    let sent = to.send(rt, 0).is_ok();
    drop(to);
    let counts = Counts::new(open_plan(1, 1, 0));
    let gate = Guarded {
        rt,
        office,
        counts: &counts,
    };
    let worked = work(rt, alloc, office, worker, &jobs, &results, &gate).is_ok();
    let unasked = jobs.iter(rt).count() == 1 && results.into_receiver().iter(rt).count() == 0;
    let unwritten = office.lock(rt).history().is_empty();
    sent && worked && unasked && unwritten && may_come_back(rt, alloc, office)
}

/// Whether a call of `work` that comes too late takes no job, and isn't counted: the office waits
/// for the one that is going on, and for no other.
pub(crate) fn comes_too_late<Q: Chooser, R: Wait + Clock>(
    rt: &R,
    alloc: Global,
    limits: &Limits,
    office: &Office,
) -> bool {
    let Ok(chooser) = Q::make(alloc, limits) else {
        return false;
    };
    let begun = office.lock(rt).begin_work();
    office.close(rt);
    let left = match Worker::join(rt, alloc, office, limits, ClientNo::new(0), chooser) {
        Ok(worker) => leaves_its_job(rt, alloc, office, worker),
        Err(_) => false,
    };
    let early = office.lock(rt).is_over();
    office.lock(rt).end_work();
    begun && left && !early && office.lock(rt).is_over()
}

/// Whether a call of `work` whose client can't join is waited for no more, while the one that is
/// going on is; the office is for two.
pub(crate) fn is_skipped<Q: Chooser, R: Wait>(
    rt: &R,
    alloc: Global,
    limits: &Limits,
    office: &Office,
) -> bool {
    let others = limits.keeping();
    let Ok(chooser) = Q::make(alloc, &others) else {
        return false;
    };
    let begun = office.lock(rt).begin_work();
    match Worker::join(rt, alloc, office, &others, ClientNo::new(0), chooser) {
        Ok(worker) => worker.abandon(),
        Err(_) => office.skip_work(rt),
    }
    let closed = office.lock(rt).is_closed();
    office.end_work(rt);
    let over = office.lock(rt).is_over();
    begun && !closed && over && !office.lock(rt).is_cut_off()
}

/// Whether it is waited for no more also where the office is closed while another goes on.
pub(crate) fn is_skipped_beside<R: Wait>(rt: &R, office: &Office) -> bool {
    let begun = office.lock(rt).begin_work();
    office.skip_work(rt);
    office.close(rt);
    let early = office.lock(rt).is_over();
    office.end_work(rt);
    begun && !early && office.lock(rt).is_over()
}

#[test]
fn client_that_cannot_join(rt: HostRuntime) {
    assert!(rt; goes_well(Trial::Skipped, &rt, rt.alloc()));
}

#[test]
fn skipped_beside_one_that_goes_on(rt: HostRuntime) {
    assert!(rt; goes_well(Trial::SkippedBeside, &rt, rt.alloc()));
}

#[test]
fn no_job_in_a_closed_office(rt: HostRuntime) {
    assert!(rt; goes_well(Trial::Late, &rt, rt.alloc()));
}
