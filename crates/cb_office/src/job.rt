//! One job.
ghost use Rattle.std.specs.Prelude.{◌≡◌, ◌-◌, ◌%◌, IfOk, MatchBool};
ghost use Rattle.cb_protocol.specs.Client as protocol;
ghost use Rattle.cb_office.specs.Jobs.{CommitsJob, Copies, CountsBoth, CountsUp, EndsJob, HasEnded};
ghost use Rattle.cb_office.specs.Jobs.{IsOneMore};
ghost use Rattle.cb_worker.specs.Workers.{last_txn};

use crate::count_up;
use crate::ended_try::{enter_next, give_back};
use cb_admission::TryEnd;
use cb_page::{ClientNo, CommitNo, PageNo};
use cb_station::{EndedTry, Office};
use cb_twoq::Chooser;
use cb_worker::{Fetched, Finished, Wanted, Worker, WorkerFault};
use std::alloc::Global;
use std::sync::Wait;

/// Runs a job, once more each time that it is aborted, and answers the number of its commit. The
/// try that ended last is `held`, before and afterwards.
pub(crate) fn run_job<R: Wait, Q: Chooser>(
    rt: &R,
    alloc: Global,
    office: &Office,
    worker: &mut Worker<Q>,
    client: ClientNo,
    held: &mut Option<EndedTry>,
) -> Result<CommitNo, WorkerFault>
    ensures { IfOk result (λ number.
        CommitsJob client number worker.old worker.new) }
{
    for _ in rt.forever() {
        if let Some(number) = admitted(rt, alloc, office, worker, client, held)? {
            return Ok(number);
        }
    }
    unreachable!()
}

/// Tries a job once the office lets it in, and holds the try as it ended; `None` where it was
/// aborted.
fn admitted<R: Wait, Q: Chooser>(
    rt: &R,
    alloc: Global,
    office: &Office,
    worker: &mut Worker<Q>,
    client: ClientNo,
    held: &mut Option<EndedTry>,
) -> Result<Option<CommitNo>, WorkerFault>
    ensures { IfOk result (λ ended. EndsJob client ended worker.old worker.new) }
{
    let ticket = enter_next(rt, alloc, office, worker, held.take())?;
    let tried = try_job(rt, alloc, office, worker, client);
    let end = end_of(&tried);
    // None is held meanwhile.
    give_back(rt, office, held.replace(ticket.ended(end)));
    tried
}

/// How a try ended that was answered so.
fn end_of(tried: &Result<Option<CommitNo>, WorkerFault>) -> TryEnd {
    match tried {
        Ok(Some(_)) => TryEnd::Committed,
        Ok(None) => TryEnd::Aborted,
        Err(_) => TryEnd::GivenUp,
    }
}

/// Begins a transaction, counts both pages up, and commits; `None` where it was aborted.
fn try_job<R: Wait, Q: Chooser>(
    rt: &R,
    alloc: Global,
    office: &Office,
    worker: &mut Worker<Q>,
    client: ClientNo,
) -> Result<Option<CommitNo>, WorkerFault>
    ensures { IfOk result (λ ended. EndsJob client ended worker.old worker.new) }
{
    let _txn = worker.begin()?;
    if !count_both(rt, alloc, office, worker, client)? {
        return Ok(None);
    }
    match worker.finish(rt, alloc, office)? {
        Finished::Committed(number) => Ok(Some(number)),
        Finished::Aborted => Ok(None),
    }
}

/// Counts pages 0 and 1 up, a client of odd number page 1 first; `false` where the transaction was
/// aborted.
fn count_both<R: Wait, Q: Chooser>(
    rt: &R,
    alloc: Global,
    office: &Office,
    worker: &mut Worker<Q>,
    client: ClientNo,
) -> Result<bool, WorkerFault>
    ensures { IfOk result (λ counted. MatchBool counted
        (CountsBoth client worker.old worker.new)
        (HasEnded (last_txn worker.old.client) worker.new protocol.Aborted)) }
{
    let first = u32::from(client.get() % 2);
    if !count_page(rt, alloc, office, worker, PageNo::new(first))? {
        return Ok(false);
    }
    count_page(rt, alloc, office, worker, PageNo::new(1 - first))
}

/// Adds one to the page's counter; `false` where the transaction was aborted.
fn count_page<R: Wait, Q: Chooser>(
    rt: &R,
    alloc: Global,
    office: &Office,
    worker: &mut Worker<Q>,
    page: PageNo,
) -> Result<bool, WorkerFault>
    ensures { IfOk result (λ counted. MatchBool counted
        (CountsUp page worker.old worker.new)
        (HasEnded (last_txn worker.old.client) worker.new protocol.Aborted)) }
{
    let Some(bytes) = copy_page(rt, alloc, office, worker, page)? else {
        return Ok(false);
    };
    match worker.want(rt, alloc, office, page)? {
        Wanted::Aborted => Ok(false),
        Wanted::Permitted => {
            let bytes = counted_up(bytes);
            worker.write(page, bytes.as_slice())?;
            Ok(true)
        }
    }
}

/// The same bytes, with the counter that they begin with counted up.
fn counted_up(mut bytes: Vec<u8>) -> Vec<u8>
    ensures { IsOneMore bytes.items result.items }
{
    count_up(bytes.as_mut_slice());
    bytes
}

/// Reads a page, and answers a copy of its bytes; `None` where the transaction was aborted.
fn copy_page<R: Wait, Q: Chooser>(
    rt: &R,
    alloc: Global,
    office: &Office,
    worker: &mut Worker<Q>,
    page: PageNo,
) -> Result<Option<Vec<u8>>, WorkerFault>
    ensures { IfOk result (λ copy.
        Copies worker.old worker.new page copy) }
{
    match worker.fetch(rt, alloc, office, page)? {
        Fetched::Aborted => Ok(None),
        Fetched::Bytes(found) => {
            let mut bytes = Vec::new(alloc);
            bytes.extend_from_slice(found)?;
            Ok(Some(bytes))
        }
    }
}
