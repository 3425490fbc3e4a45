//! One statement inside a transaction.
ghost use Rattle.std.specs.Prelude.{◌≡◌, ◌≢◌, [], ◌∷◌, false, IsTrue, IfOk, OnOk, Err};
ghost use Rattle.sqlite.specs.Values.{bound};
ghost use Rattle.sqlite.specs.State.{HasCleanDisk};
ghost use Rattle.sqlite.specs.Held.{state};
ghost use Rattle.cb_shelf.specs.Statements.{MakesAll};
ghost use Rattle.cb_shelf.specs.Inside.{Inside, IsAny, IsNever, IsOfText, Tells, can_answer};
ghost use Rattle.cb_shelf.specs.Asking.{IsQuestion, Replies};

use crate::ShelfFault;
use sqlite::types::ValueRef;
use sqlite::{Alter, Error, Row, Transaction};

/// Runs a statement that shows no rows.
pub fn run<S: Alter>(
    tx: &mut Transaction<'_, S>,
    text: &str,
    params: &[ValueRef<'_>],
) -> Result<(), ShelfFault>
    ensures same_reference { tx.new.conn.ghost_name ≡ tx.old.conn.ghost_name }
    ensures inside { Inside S.Store
        (MakesAll S.Store (record { text = text.now; params = bound params.now } ∷ []))
        tx.old.conn.now tx.new.conn.now result }
    ensures open { HasCleanDisk (state S.Store tx.new.conn.now)
        → IsTrue tx.old.conn.now.in_transaction
        → OnOk result (IsTrue (state S.Store tx.old.conn.now).is_open) }
    ensures fault { result ≢ Err ShelfFault.Shape }
{
    tx.execute(text, params)?;
    Ok(())
}

/// Asks for rows.
pub fn ask<S: Alter>(
    tx: &mut Transaction<'_, S>,
    text: &str,
    params: &[ValueRef<'_>],
) -> Result<Vec<Row>, ShelfFault>
    ensures same_reference { tx.new.conn.ghost_name ≡ tx.old.conn.ghost_name }
    ensures inside { Inside S.Store IsAny tx.old.conn.now tx.new.conn.now result }
    ensures tells { IsQuestion text.now → Tells S.Store
        (λ db rows. Replies db (record { text = text.now; params = bound params.now }) rows.items)
        IsNever tx.old.conn.now tx.new.conn.now result }
{
    let rows = tx.query_all(text, params)?;
    Ok(rows)
}

/// Whether a query is one that the tables can answer.
pub fn is_there<S: Alter>(tx: &mut Transaction<'_, S>, text: &str) -> Result<bool, ShelfFault>
    ensures same_reference { tx.new.conn.ghost_name ≡ tx.old.conn.ghost_name }
    ensures inside { Inside S.Store IsAny tx.old.conn.now tx.new.conn.now result }
    ensures tells { Tells S.Store (λ db there. there ≡ can_answer db.schema text.now) IsNever
        tx.old.conn.now tx.new.conn.now result }
{
    let Err(error) = tx.prepare(text) else {
        return Ok(true);
    };
    absent(error)
}

/// Tells a text that the tables can't answer from another refusal.
fn absent(error: Error) -> Result<bool, ShelfFault>
    ensures text { OnOk result (IsOfText error) }
    ensures absent { IfOk result (λ there. there ≡ false) }
    ensures fault { result ≢ Err ShelfFault.Shape }
{
    match error {
        Error::SqlInputError(_) => Ok(false),
        error => Err(error.into()),
    }
}
