//! Writing a batch in one transaction.
ghost use Rattle.std.specs.Prelude.{◌≡◌, ◌≢◌, Err, IfOk, OnOk, OnErr};
ghost use Rattle.sqlite.specs.State.{HasCleanDisk, Survives};
ghost use Rattle.sqlite.specs.Held.{state};
ghost use Rattle.cb_shelf.specs.Statements.{MakesAll, batch_statements};
ghost use Rattle.cb_shelf.specs.Inside.{Inside, IsSame, IsSettled};
ghost use Rattle.cb_shelf.specs.Writing.{Wrote};

use crate::{ShelfFault, put_mark, put_pages};
use cb_commit::Batch;
use cb_page::CommitNo;
use sqlite::{Alter, Connection, Transaction};
use std::marker::Model;

/// Says that a batch was written to the tables of a shelf, and committed. Only
/// [`Shelf::write`](crate::Shelf::write) makes one, and nobody can copy it. Whoever takes one by
/// value therefore can't report a batch that no shelf wrote, nor a batch twice. In contracts it is
/// the number of the batch.
#[derive(Drop)]
pub struct Written {
    number: CommitNo,
}

impl Model for Written {
    ghost use Rattle.std.specs.Prelude.{ℕ};

    ghost Value = { ℕ };

    ghost view = { λ written. written.number };
}

impl Written {
    /// The number of the batch: all commits up to it are in the tables.
    pub fn number(&self) -> CommitNo
        ensures { result ≡ self.now }
    {
        self.number
    }
}

/// Writes a batch: its pages, then its number.
fn put_batch<S: Alter>(tx: &mut Transaction<'_, S>, batch: &Batch) -> Result<(), ShelfFault>
    ensures same_reference { tx.new.conn.ghost_name ≡ tx.old.conn.ghost_name }
    ensures inside { Inside S.Store (MakesAll S.Store (batch_statements batch.now))
        tx.old.conn.now tx.new.conn.now result }
    ensures fault { result ≢ Err ShelfFault.Shape }
{
    put_pages(tx, batch.pages())?;
    put_mark(tx, batch.number())
}

/// Writes a batch in one transaction.
pub(crate) fn write_batch<S: Alter>(
    conn: &mut Connection<S>,
    batch: &Batch,
) -> Result<Written, ShelfFault>
    ensures number { IfOk result (λ written. written ≡ batch.now.number) }
    ensures both { HasCleanDisk (state S.Store conn.new)
        → OnOk result (MakesAll S.Store (batch_statements batch.now) (state S.Store conn.old).now
        (state S.Store conn.new).committed) }
    ensures neither { HasCleanDisk (state S.Store conn.new)
        → OnErr result (IsSame (state S.Store conn.old) (state S.Store conn.new)) }
    ensures settled { HasCleanDisk (state S.Store conn.new)
        → OnOk result (IsSettled (state S.Store conn.new)) }
    ensures mode { conn.new.in_transaction ≡ conn.old.in_transaction }
    ensures crash { Survives (state S.Store conn.old) (state S.Store conn.new)
        (Wrote S.Store batch.now conn.old) }
    ensures fault { result ≢ Err ShelfFault.Shape }
{
    if !conn.is_autocommit() {
        return Err(ShelfFault::Store);
    }
    let mut tx = conn.transaction();
    put_batch(&mut tx, batch)?;
    tx.commit()?;
    Ok(Written {
        number: batch.number(),
    })
}
