//! The flusher, with one who looks on and without.
ghost use Rattle.std.specs.Prelude.{◌≡◌, IfErr, IfOk, IfSome, OnErr, OnOk};
ghost use Rattle.sqlite.specs.Held.{state};
ghost use Rattle.sqlite.specs.State.{Survives};
ghost use Rattle.cb_office.specs.Flushing.{LeavesFirst, LeavesSome};
ghost use Rattle.cb_office.specs.Flushing.{MadeFirst, MadeSome, WritesFirst, WritesSome};
ghost use Rattle.cb_office.specs.Stopping.{Stops};
ghost use Rattle.cb_shelf.specs.Writing.{Fits};

use crate::flusher::{FlushStop, flush_counted, flush_counted_again};
use crate::over::Over;
use crate::{Unwatched, Watch};
use cb_shelf::Shelf;
use cb_station::Office;
use sqlite::Alter;
use std::alloc::Global;
use std::sync::Wait;
use std::time::Clock;

/// Writes what is committed, a batch at a time, until nothing is left and no call of `work` commits
/// any more: the office is halted, or it is closed and none is going on. What a call of `work`
/// commits in a closed office is therefore written too. If nobody works, it is enough that the
/// office is closed.
///
/// It holds no lock while it writes. No contract says which batches those are, since it takes the
/// lock itself. If it ends well, it returns an [`Over`], which says that this was so at this
/// office, at a moment while nobody had the lock, and whether the run was cut off then.
pub fn flush_loop<'a, R: Wait + Clock, S: Alter>(
    rt: &R,
    alloc: Global,
    office: &'a Office,
    shelf: &mut Shelf<S>,
) -> Result<Over<'a>, FlushStop>
    ensures limits { shelf.new.limits ≡ shelf.old.limits }
    ensures office { IfOk result (λ over. over.office ≡ office.entry.ref_ptr) }
    ensures stops { IfErr result (Stops shelf.old.limits) }
    ensures written { OnOk result (WritesSome S.Store shelf.old.limits shelf.old.conn
        shelf.new.conn) }
    ensures left { OnErr result (LeavesSome S.Store shelf.old.limits shelf.old.conn
        shelf.new.conn) }
    ensures crash { Survives (state S.Store shelf.old.conn) (state S.Store shelf.new.conn)
        (MadeSome S.Store shelf.old.conn) }
{
    flush_loop_watched(rt, alloc, office, shelf, &mut Unwatched)
}

/// As [`flush_loop`]; `watch` is told of each batch once it is reported, and when the flusher
/// waits.
pub fn flush_loop_watched<'a, R: Wait + Clock, S: Alter, W: Watch>(
    rt: &R,
    alloc: Global,
    office: &'a Office,
    shelf: &mut Shelf<S>,
    watch: &mut W,
) -> Result<Over<'a>, FlushStop>
    ensures limits { shelf.new.limits ≡ shelf.old.limits }
    ensures office { IfOk result (λ over. over.office ≡ office.entry.ref_ptr) }
    ensures stops { IfErr result (Stops shelf.old.limits) }
    ensures written { OnOk result (WritesSome S.Store shelf.old.limits shelf.old.conn
        shelf.new.conn) }
    ensures left { OnErr result (LeavesSome S.Store shelf.old.limits shelf.old.conn
        shelf.new.conn) }
    ensures crash { Survives (state S.Store shelf.old.conn) (state S.Store shelf.new.conn)
        (MadeSome S.Store shelf.old.conn) }
{
    match flush_counted(rt, alloc, office, shelf, watch) {
        Ok(over) => Ok(over),
        Err(counted) => Err(counted.into_stop()),
    }
}

/// Writes the batch of a stop first, if there is one, and goes on as [`flush_loop`]. If it ends
/// well, that batch fits, so it wasn't passed over.
pub fn flush_again<'a, R: Wait + Clock, S: Alter>(
    rt: &R,
    alloc: Global,
    office: &'a Office,
    shelf: &mut Shelf<S>,
    stop: FlushStop,
) -> Result<Over<'a>, FlushStop>
    ensures limits { shelf.new.limits ≡ shelf.old.limits }
    ensures office { IfOk result (λ over. over.office ≡ office.entry.ref_ptr) }
    ensures stops { IfErr result (Stops shelf.old.limits) }
    ensures held { OnOk result (IfSome stop.batch (Fits shelf.old.limits)) }
    ensures written { OnOk result (WritesFirst S.Store shelf.old.limits stop.batch shelf.old.conn
        shelf.new.conn) }
    ensures left { OnErr result (LeavesFirst S.Store shelf.old.limits stop.batch shelf.old.conn
        shelf.new.conn) }
    ensures crash { Survives (state S.Store shelf.old.conn) (state S.Store shelf.new.conn)
        (MadeFirst S.Store stop.batch shelf.old.conn) }
{
    flush_again_watched(rt, alloc, office, shelf, &mut Unwatched, stop)
}

/// As [`flush_again`]; `watch` is told as by [`flush_loop_watched`].
pub fn flush_again_watched<'a, R: Wait + Clock, S: Alter, W: Watch>(
    rt: &R,
    alloc: Global,
    office: &'a Office,
    shelf: &mut Shelf<S>,
    watch: &mut W,
    stop: FlushStop,
) -> Result<Over<'a>, FlushStop>
    ensures limits { shelf.new.limits ≡ shelf.old.limits }
    ensures office { IfOk result (λ over. over.office ≡ office.entry.ref_ptr) }
    ensures stops { IfErr result (Stops shelf.old.limits) }
    ensures held { OnOk result (IfSome stop.batch (Fits shelf.old.limits)) }
    ensures written { OnOk result (WritesFirst S.Store shelf.old.limits stop.batch shelf.old.conn
        shelf.new.conn) }
    ensures left { OnErr result (LeavesFirst S.Store shelf.old.limits stop.batch shelf.old.conn
        shelf.new.conn) }
    ensures crash { Survives (state S.Store shelf.old.conn) (state S.Store shelf.new.conn)
        (MadeFirst S.Store stop.batch shelf.old.conn) }
{
    match flush_counted_again(rt, alloc, office, shelf, watch, stop) {
        Ok(over) => Ok(over),
        Err(counted) => Err(counted.into_stop()),
    }
}
