//! The loop, its stops, and whether it wrote before one.
ghost use Rattle.std.specs.Prelude.{◌≡◌, IfErr, IfOk, IfSome, OnErr, OnOk};
ghost use Rattle.sqlite.specs.Held.{state};
ghost use Rattle.sqlite.specs.State.{Survives};
ghost use Rattle.cb_office.specs.Flushing.{LeavesFirst, LeavesSome};
ghost use Rattle.cb_office.specs.Flushing.{MadeFirst, MadeSome, WritesFirst, WritesSome};
ghost use Rattle.cb_office.specs.Stopping.{Stops};
ghost use Rattle.cb_shelf.specs.Writing.{Fits};

use crate::Watch;
use crate::desk::{flush_batch, next_batch};
use crate::over::{Next, Over};
use crate::pace::Pace;
use cb_commit::Batch;
use cb_shelf::{Shelf, ShelfFault};
use cb_station::Office;
use sqlite::Alter;
use std::alloc::Global;
use std::sync::Wait;
use std::time::Clock;

/// Why the flusher stopped, and the batch that is still to be written, if there is one.
#[derive(Drop)]
pub struct FlushStop {
    pub fault: ShelfFault,
    pub batch: Option<Batch>,
}

/// A stop, and whether the loop wrote and reported another batch before.
#[derive(Drop)]
pub(crate) struct CountedStop {
    pub(crate) stop: FlushStop,
    pub(crate) wrote: bool,
}

impl CountedStop {
    /// The stop alone.
    pub(crate) fn into_stop(self) -> FlushStop
        ensures { result ≡ self.stop }
    {
        let CountedStop { stop, wrote: _ } = self;
        stop
    }
}

/// As [`flush_loop_watched`]; a stop tells besides whether a batch was written before.
pub(crate) fn flush_counted<'a, R: Wait + Clock, S: Alter, W: Watch>(
    rt: &R,
    alloc: Global,
    office: &'a Office,
    shelf: &mut Shelf<S>,
    watch: &mut W,
) -> Result<Over<'a>, CountedStop>
    ensures office { IfOk result (λ over. over.office ≡ office.entry.ref_ptr) }
    ensures limits { shelf.new.limits ≡ shelf.old.limits }
    ensures stops { IfErr result (λ counted. Stops shelf.old.limits counted.stop) }
    ensures written { OnOk result (WritesSome S.Store shelf.old.limits shelf.old.conn
        shelf.new.conn) }
    ensures left { OnErr result (LeavesSome S.Store shelf.old.limits shelf.old.conn
        shelf.new.conn) }
    ensures crash { Survives (state S.Store shelf.old.conn) (state S.Store shelf.new.conn)
        (MadeSome S.Store shelf.old.conn) }
{
    let mut wrote = false;
    let mut pace = Pace::new();
    for _ in rt.forever() {
        let batch = match next_batch(rt, alloc, office, watch, &pace) {
            Ok(Next::Batch(batch)) => batch,
            Ok(Next::Over(over)) => return Ok(over),
            Err(fault) => {
                let batch = None;
                let stop = FlushStop { fault, batch };
                return Err(CountedStop { stop, wrote });
            }
        };
        if let Err(fault) = flush_batch(rt, alloc, office, shelf, watch, &mut pace, &batch) {
            let batch = Some(batch);
            let stop = FlushStop { fault, batch };
            return Err(CountedStop { stop, wrote });
        }
        wrote = true;
    }
    unreachable!()
}

/// As [`flush_again_watched`]; a stop tells besides whether the loop wrote a batch before.
pub(crate) fn flush_counted_again<'a, R: Wait + Clock, S: Alter, W: Watch>(
    rt: &R,
    alloc: Global,
    office: &'a Office,
    shelf: &mut Shelf<S>,
    watch: &mut W,
    stop: FlushStop,
) -> Result<Over<'a>, CountedStop>
    ensures office { IfOk result (λ over. over.office ≡ office.entry.ref_ptr) }
    ensures limits { shelf.new.limits ≡ shelf.old.limits }
    ensures stops { IfErr result (λ counted. Stops shelf.old.limits counted.stop) }
    ensures held { OnOk result (IfSome stop.batch (Fits shelf.old.limits)) }
    ensures written { OnOk result (WritesFirst S.Store shelf.old.limits stop.batch shelf.old.conn
        shelf.new.conn) }
    ensures left { OnErr result (LeavesFirst S.Store shelf.old.limits stop.batch shelf.old.conn
        shelf.new.conn) }
    ensures crash { Survives (state S.Store shelf.old.conn) (state S.Store shelf.new.conn)
        (MadeFirst S.Store stop.batch shelf.old.conn) }
{
    let Some(held) = stop.batch else {
        return flush_counted(rt, alloc, office, shelf, watch);
    };
    let mut pace = Pace::new();
    if let Err(fault) = flush_batch(rt, alloc, office, shelf, watch, &mut pace, &held) {
        let wrote = false;
        let stop = FlushStop {
            fault,
            batch: Some(held),
        };
        return Err(CountedStop { stop, wrote });
    }
    flush_counted(rt, alloc, office, shelf, watch)
}
