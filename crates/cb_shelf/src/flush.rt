//! Writing what was committed, and reporting it.
ghost use Rattle.std.specs.Prelude.{◌≡◌, ◌≢◌, ◌⊎◌, ◌↔◌, ℕ, None, Some, Err, IfOk, IfSome, IsOk};
ghost use Rattle.std.specs.Prelude.{OnOk};
ghost use Rattle.std.specs.Prelude.{OnErr};
ghost use Rattle.sqlite.specs.State.{HasCleanDisk, Survives};
ghost use Rattle.sqlite.specs.Held.{state};
ghost use Rattle.cb_commit.specs.History.{CanFlush, next_batch};
ghost use Rattle.cb_shelf.specs.Statements.{MakesAll, batch_statements};
ghost use Rattle.cb_shelf.specs.Inside.{IsSame, IsSettled};
ghost use Rattle.cb_shelf.specs.Writing.{Fits, Wrote};
ghost use Rattle.cb_shelf.specs.Flushing.{IsMisfit, IsReported, WritesOne, WritesOrStays, to_write};
ghost use Rattle.cb_shelf.specs.Flushing.{once_written, dones_of};
ghost use Rattle.cb_shelf.specs.Events.{AreSteps};

use crate::{Shelf, ShelfFault, Written};
use cb_commit::{Batch, Commits};
use cb_frame::Frame;
use sqlite::Alter;
use std::alloc::{AllocError, Global};

/// Is told that a batch is in the tables, by a value that only its write makes ([`Written`]). This
/// may be the commits themselves, or what others share them by.
pub trait Reports {
    /// What a report answers.
    type Told;

    /// Whether the commits up to this number may be reported.
    ghost can_report: { Self → ℕ → Type 0 };

    /// What it answers, and what is made of the commits.
    ghost tells: { Self → ℕ → Self.Told → Self → Type 0 };

    /// The commits up to this batch's number are on disk now. `AllocError` only if memory was
    /// refused.
    fn report(&mut self, alloc: Global, written: Written) -> Result<Self::Told, AllocError>
        requires { can_report self.old written }
        ensures told { IfOk result (λ told. tells self.old written told self.new) }
        ensures err { OnErr result (self.new ≡ self.old) };
}

impl Reports for Commits {
    type Told = Vec<Frame>;

    ghost can_report = { CanFlush };

    ghost tells = { λ commits number dones after. IsReported commits number dones.items after };

    fn report(&mut self, alloc: Global, written: Written) -> Result<Vec<Frame>, AllocError> {
        self.flushed(alloc, written.number())
    }
}

/// Writes a batch in one transaction, and reports it once it is in the tables, and not before. Both
/// [`flush_once`] and the loop of a running program use it. `Shape` exactly if the batch doesn't
/// fit. `Memory` if the database says so, or if memory was refused for the report; the batch is in
/// the tables in the second case.
pub fn write_and_report<S: Alter, C: Reports>(
    alloc: Global,
    commits: &mut C,
    shelf: &mut Shelf<S>,
    batch: &Batch,
) -> Result<C::Told, ShelfFault>
    requires { C.can_report commits.old batch.now.number }
    ensures told { IfOk result (λ told.
        C.tells commits.old batch.now.number told commits.new) }
    ensures kept { OnErr result (commits.new ≡ commits.old) }
    ensures limits { shelf.new.limits ≡ shelf.old.limits }
    ensures fits { OnOk result (Fits shelf.old.limits batch.now) }
    ensures shape { (result ≡ Err ShelfFault.Shape) ↔ ¬ Fits shelf.old.limits batch.now }
    ensures untouched { result ≡ Err ShelfFault.Shape → shelf.new ≡ shelf.old }
    ensures written { OnOk result (WritesOne S.Store shelf.old.limits batch.now shelf.old.conn
        shelf.new.conn) }
    ensures refused { OnErr result (WritesOrStays S.Store shelf.old.limits batch.now
        shelf.old.conn shelf.new.conn) }
    ensures mode { shelf.new.conn.in_transaction ≡ shelf.old.conn.in_transaction }
    ensures crash { Survives (state S.Store shelf.old.conn) (state S.Store shelf.new.conn)
        (Wrote S.Store batch.now shelf.old.conn) }
{
    let written = shelf.write(batch)?;
    let told = commits.report(alloc, written)?;
    Ok(told)
}

/// Holds the next batch, unless one is held that is still to be written.
fn hold(alloc: Global, commits: &Commits, held: &mut Option<Batch>) -> Result<(), ShelfFault>
    requires { IfSome held.old (λ batch. CanFlush commits.now batch.number) }
    ensures ok { OnOk result (held.new ≡ to_write held.old commits.now) }
    ensures err { OnErr result ((result ≡ Err ShelfFault.Memory) × (held.old ≡ None)
        × (held.new ≡ None)) }
    ensures needed { OnErr result (to_write held.old commits.now ≢ None) }
    ensures can_flush { IfSome held.new (λ batch. CanFlush commits.now batch.number) }
{
    if held.is_some() {
        return Ok(());
    }
    let next = commits.batch(alloc)?;
    *held = next;
    Ok(())
}

/// Writes the batch that is held, or else the next one, and reports it: a Done for each commit in
/// it that wasn't reported before. If it is refused, the batch stays held, and is written again
/// before another is taken. It isn't refused if there is nothing to write. `Shape` only if there is
/// a batch and it doesn't fit. `Memory` if the database says so, if memory was refused for the
/// batch (then none is held), or for the Dones (then the batch is in the tables).
pub fn flush_once<S: Alter>(
    alloc: Global,
    commits: &mut Commits,
    shelf: &mut Shelf<S>,
    held: &mut Option<Batch>,
) -> Result<Vec<Frame>, ShelfFault>
    requires { IfSome held.old (λ batch. CanFlush commits.old batch.number) }
    ensures ok { OnOk result ((commits.new
        ≡ once_written commits.old (to_write held.old commits.old)) × (held.new ≡ None)) }
    ensures dones { IfOk result (λ frames.
        frames.items ≡ dones_of commits.old (to_write held.old commits.old)) }
    ensures err { OnErr result ((commits.new ≡ commits.old)
        × ((held.new ≡ to_write held.old commits.old) ⊎ ((result ≡ Err ShelfFault.Memory)
        × (held.old ≡ None) × (held.new ≡ None) × (shelf.new ≡ shelf.old)))) }
    ensures fits { OnOk result (IfSome (to_write held.old commits.old) (Fits shelf.old.limits)) }
    ensures shape { result ≡ Err ShelfFault.Shape
        → IsMisfit shelf.old.limits (to_write held.old commits.old) }
    ensures can_flush { IfSome held.new (λ batch. CanFlush commits.new batch.number) }
    ensures nothing { to_write held.old commits.old ≡ None → shelf.new ≡ shelf.old }
    ensures idle { to_write held.old commits.old ≡ None → IsOk result }
    ensures limits { shelf.new.limits ≡ shelf.old.limits }
    ensures written { HasCleanDisk (state S.Store shelf.new.conn)
        → OnOk result (IfSome (to_write held.old commits.old) (λ batch.
        MakesAll S.Store (batch_statements batch) (state S.Store shelf.old.conn).now
        (state S.Store shelf.new.conn).committed)) }
    ensures settled { HasCleanDisk (state S.Store shelf.new.conn)
        → OnOk result (IfSome (to_write held.old commits.old) (λ _.
        IsSettled (state S.Store shelf.new.conn))) }
    ensures mode { shelf.new.conn.in_transaction ≡ shelf.old.conn.in_transaction }
    ensures steps { HasCleanDisk (state S.Store shelf.new.conn)
        → AreSteps S.Store commits.old commits.new held.old held.new shelf.old.conn
        shelf.new.conn }
    ensures crash { Survives (state S.Store shelf.old.conn) (state S.Store shelf.new.conn)
        (λ trees. IfSome (to_write held.old commits.old) (λ batch.
        Wrote S.Store batch shelf.old.conn trees)) }
{
    hold(alloc, commits, held)?;
    let Some(batch) = &*held else {
        return Ok(Vec::new(alloc));
    };
    let frames = write_and_report(alloc, commits, shelf, batch)?;
    *held = None;
    Ok(frames)
}
