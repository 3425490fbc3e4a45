//! How often a batch is tried.
ghost use Rattle.std.specs.Prelude.{◌≡◌, IfOk, OnErr, OnOk};
ghost use Rattle.sqlite.specs.Held.{state};
ghost use Rattle.sqlite.specs.State.{Survives};
ghost use Rattle.cb_office.specs.Flushing.{MadeAtLast, Tries, WritesAtLast};
ghost use Rattle.cb_office.specs.Stopping.{number_of, tries_left};

use crate::Watch;
use crate::flusher::{CountedStop, FlushStop, flush_counted, flush_counted_again};
use crate::over::Over;
use cb_shelf::{Shelf, ShelfFault};
use cb_station::Office;
use sqlite::Alter;
use std::alloc::Global;
use std::sync::Wait;
use std::thread;
use std::time::{Clock, Duration};

/// How often a batch is tried in all.
const TRIES: u64 = 3;

/// The number of the batch that is still to be written; 0 where there was no memory for one, which
/// no batch has.
fn batch_number(stop: &FlushStop) -> u64
    ensures { result ≡ number_of stop.now.batch }
{
    match &stop.batch {
        Some(batch) => batch.number().get(),
        None => 0,
    }
}

/// How many tries the batch of a stop has left, by the number of the last stop's batch and how many
/// that had.
fn tries_left(counted: &CountedStop, last: u64, left: u64) -> u64
    ensures { result ≡ tries_left counted.now last left }
{
    if batch_number(&counted.stop) == last && !counted.wrote {
        left.saturating_sub(1)
    } else {
        TRIES - 1
    }
}

/// How long the flusher waits before a batch's next try: a tenth of a second before the second one,
/// a second before the last.
fn pause(left: u64) -> Duration {
    if left > 1 {
        Duration::from_millis(100)
    } else {
        Duration::from_millis(1_000)
    }
}

/// The office that a flusher works for. Of a reference alone a loop's invariant has no address.
#[derive(Drop)]
struct LentOffice<'a> {
    office: &'a Office,
}

/// Runs the flusher. A batch that is refused is tried again, three times in all, and so is one for
/// which there is no memory; then the office is halted, and the last fault answered. A batch that
/// is written in between ends the count. If it ends well, it returns that the run is over at this
/// office.
pub fn flush_in_tries<'a, R: Wait + Clock, S: Alter, W: Watch>(
    rt: &R,
    alloc: Global,
    office: &'a Office,
    shelf: &mut Shelf<S>,
    watch: &mut W,
) -> Result<Over<'a>, ShelfFault>
    ensures office { IfOk result (λ over. over.office ≡ office.entry.ref_ptr) }
    ensures limits { shelf.new.limits ≡ shelf.old.limits }
    ensures written { OnOk result (WritesAtLast S.Store shelf.old.limits shelf.old.conn
        shelf.new.conn) }
    ensures left { OnErr result (Tries S.Store shelf.old.limits shelf.old.conn shelf.new.conn) }
    ensures crash { Survives (state S.Store shelf.old.conn) (state S.Store shelf.new.conn)
        (MadeAtLast S.Store shelf.old.limits shelf.old.conn) }
{
    let lent = LentOffice { office };
    let mut stopped = flush_counted(rt, alloc, lent.office, shelf, watch);
    let mut left = TRIES;
    let mut last = 0;
    for _ in rt.forever() {
        let counted = match stopped {
            Ok(over) => return Ok(over),
            Err(counted) => counted,
        };
        left = tries_left(&counted, last, left);
        let stop = counted.into_stop();
        if left == 0 {
            lent.office.halt(rt);
            return Err(stop.fault);
        }
        last = batch_number(&stop);
        thread::sleep(rt, pause(left));
        stopped = flush_counted_again(rt, alloc, lent.office, shelf, watch, stop);
    }
    unreachable!()
}
