//! The lives of a server over the tables.
ghost use Rattle.std.specs.Prelude.{◌≡◌, ◌≢◌, ◌≤◌, ◌<◌, ◌+◌, [], ◌∷◌, nat_lt, Err, IfOk, OnOk};
ghost use Rattle.std.specs.Prelude.{OnErr};
ghost use Rattle.std.specs.Prelude.{IsTrue};
ghost use Rattle.sqlite.specs.State.{HasCleanDisk, Survives};
ghost use Rattle.sqlite.specs.Held.{state};
ghost use Rattle.cb_shelf.specs.Statements.{MakesAll};
ghost use Rattle.cb_shelf.specs.Inside.{Inside, IsAny, IsSame, IsSettled, Tells};
ghost use Rattle.cb_page.specs.Numbers.{max_number};
ghost use Rattle.cb_shelf.specs.LifeRows.{life_row, life_table, unserved};
ghost use Rattle.cb_shelf.specs.Living.{Begun, EndsLives, Follows, HasLifeFrom, MadeBy, TellsBelow};
ghost use Rattle.cb_shelf.specs.Living.{TellsNone, life_end, life_from, life_statements, raise_end};
ghost use Rattle.cb_shelf.specs.Living.{raised};
ghost use Rattle.cb_shelf.specs.Opening.{LaidBy, plain};

use crate::reading::ask_number;
use crate::{ShelfFault, is_there, run};
use cb_page::{Incarnation, MAX_NUMBER};
use sqlite::{Alter, Connection, Transaction, params};
use std::marker::Model;

/// So many incarnations more may greet the server before the row is written again.
const RANGE: u64 = 1 << 20;

/// Above each incarnation that a server may know which kept no row of its lives.
const UNKEPT: u64 = 1 << 61;

/// From here on, 2^61 + 2^60, no incarnation is given room.
const RAISE_END: u64 = 3 << 60;

/// A life of a server over a shelf. Only [`Shelf::begin_life`](crate::Shelf::begin_life) makes one,
/// and nobody can copy it.
#[derive(Drop)]
pub struct Life {
    floor: Incarnation,
    below: u64,
}

impl Model for Life {
    ghost use Rattle.std.specs.Prelude.{◌<◌, ◌≤◌};
    ghost use Rattle.cb_page.specs.Numbers.{max_number};
    ghost use Rattle.cb_shelf.specs.LifeRows.{LifeState};

    ghost Value = { LifeState };

    ghost view = { λ life. record { floor = life.floor; below = life.below } };

    ghost invariant = { λ life. (life.floor < life.below) × (life.below ≤ max_number) };
}

impl Life {
    /// The floor. The life's server ignores what any incarnation below it sent.
    pub fn floor(&self) -> Incarnation
        ensures value { result ≡ self.now.floor }
        ensures below { result < self.now.below }
    {
        self.floor
    }

    /// Whether the tables have room for a Hello of this incarnation.
    pub fn has_room_for(&self, incarnation: Incarnation) -> bool
        ensures { result ≡ nat_lt incarnation self.now.below }
    {
        incarnation.get() < self.below
    }

    /// The least incarnation whose Hello can't be given room: 2^61 + 2^60, or the number that the
    /// tables tell, if that is greater.
    pub fn end(&self) -> u64
        ensures value { result ≡ life_end self.now }
        ensures far { raise_end ≤ result }
        ensures above { self.now.below ≤ result }
    {
        if self.below < RAISE_END {
            return RAISE_END;
        }
        self.below
    }
}

/// Finds the number below which all incarnations are that former lives' servers knew.
fn find_below<S: Alter>(tx: &mut Transaction<'_, S>) -> Result<u64, ShelfFault>
    ensures same_reference { tx.new.conn.ghost_name ≡ tx.old.conn.ghost_name }
    ensures inside { Inside S.Store IsAny tx.old.conn.now tx.new.conn.now result }
    ensures tells { Tells S.Store TellsBelow TellsNone tx.old.conn.now tx.new.conn.now result }
{
    let there = is_there(tx, "SELECT below FROM life WHERE id = 1")?;
    if !there {
        return Ok(UNKEPT);
    }
    ask_number(tx, "SELECT below FROM life WHERE id = 1", &[])
}

/// Finds it in a transaction that is taken back.
fn look_below<S: Alter>(conn: &mut Connection<S>) -> Result<u64, ShelfFault>
    ensures told { HasCleanDisk (state S.Store conn.new)
        → IfOk result (TellsBelow (state S.Store conn.old).now) }
    ensures shape { HasCleanDisk (state S.Store conn.new) → result ≡ Err ShelfFault.Shape
        → TellsNone (state S.Store conn.old).now }
    ensures same { HasCleanDisk (state S.Store conn.new)
        → IsSame (state S.Store conn.old) (state S.Store conn.new) }
    ensures mode { conn.new.in_transaction ≡ conn.old.in_transaction }
    ensures crash { Survives (state S.Store conn.old) (state S.Store conn.new) (λ _. ⊥) }
{
    if !conn.is_autocommit() {
        return Err(ShelfFault::Store);
    }
    let mut tx = conn.transaction();
    let found = find_below(&mut tx);
    tx.rollback();
    found
}

/// The life from this number on.
fn life_from(below: u64) -> Result<Life, ShelfFault>
    ensures ok { IfOk result (λ life. (life ≡ life_from below) × HasLifeFrom below) }
    ensures err { OnErr result (¬ HasLifeFrom below) }
    ensures fault { OnErr result (result ≡ Err ShelfFault.Shape) }
{
    if below < 1 || below > MAX_NUMBER - RANGE {
        return Err(ShelfFault::Shape);
    }
    Ok(Life {
        floor: Incarnation::new(below),
        below: below + RANGE,
    })
}

/// Makes the table, where there is none.
pub(crate) fn create_table<S: Alter>(tx: &mut Transaction<'_, S>) -> Result<(), ShelfFault>
    ensures same_reference { tx.new.conn.ghost_name ≡ tx.old.conn.ghost_name }
    ensures inside { Inside S.Store (MakesAll S.Store (plain life_table ∷ []))
        tx.old.conn.now tx.new.conn.now result }
    ensures open { HasCleanDisk (state S.Store tx.new.conn.now)
        → IsTrue tx.old.conn.now.in_transaction
        → OnOk result (IsTrue (state S.Store tx.old.conn.now).is_open) }
    ensures fault { result ≢ Err ShelfFault.Shape }
{
    run(
        tx,
        "CREATE TABLE IF NOT EXISTS life(id INTEGER PRIMARY KEY, floor INTEGER NOT NULL, \
        below INTEGER NOT NULL) STRICT",
        &[],
    )
}

/// Puts the row in, or sets it.
fn put_row<S: Alter>(tx: &mut Transaction<'_, S>, floor: u64, below: u64) -> Result<(), ShelfFault>
    requires floor { floor ≤ max_number }
    requires below { below ≤ max_number }
    ensures same_reference { tx.new.conn.ghost_name ≡ tx.old.conn.ghost_name }
    ensures inside { Inside S.Store
        (MakesAll S.Store (life_row (record { floor = floor; below = below }) ∷ []))
        tx.old.conn.now tx.new.conn.now result }
    ensures fault { result ≢ Err ShelfFault.Shape }
{
    run(
        tx,
        "INSERT OR REPLACE INTO life (id, floor, below) VALUES (1, ?1, ?2)",
        params![floor as i64, below as i64],
    )
}

/// Puts the row of a life.
fn put_life<S: Alter>(tx: &mut Transaction<'_, S>, life: &Life) -> Result<(), ShelfFault>
    ensures same_reference { tx.new.conn.ghost_name ≡ tx.old.conn.ghost_name }
    ensures inside { Inside S.Store (MakesAll S.Store (life_row life.now ∷ []))
        tx.old.conn.now tx.new.conn.now result }
    ensures fault { result ≢ Err ShelfFault.Shape }
{
    put_row(tx, life.floor.get(), life.below)
}

/// Puts the row of tables that no server has served, but for those that they are copied from.
pub(crate) fn put_unserved<S: Alter>(
    tx: &mut Transaction<'_, S>,
    copied: bool,
) -> Result<(), ShelfFault>
    ensures same_reference { tx.new.conn.ghost_name ≡ tx.old.conn.ghost_name }
    ensures inside { Inside S.Store (MakesAll S.Store (life_row (unserved copied) ∷ []))
        tx.old.conn.now tx.new.conn.now result }
    ensures fault { result ≢ Err ShelfFault.Shape }
{
    put_row(tx, 0, if copied { UNKEPT } else { 1 })
}

/// Makes the table where there is none, and puts the row of a life.
fn put_begin<S: Alter>(tx: &mut Transaction<'_, S>, life: &Life) -> Result<(), ShelfFault>
    ensures same_reference { tx.new.conn.ghost_name ≡ tx.old.conn.ghost_name }
    ensures inside { Inside S.Store (MakesAll S.Store (life_statements life.now))
        tx.old.conn.now tx.new.conn.now result }
    ensures open { HasCleanDisk (state S.Store tx.new.conn.now)
        → IsTrue tx.old.conn.now.in_transaction
        → OnOk result (IsTrue (state S.Store tx.old.conn.now).is_open) }
    ensures fault { result ≢ Err ShelfFault.Shape }
{
    create_table(tx)?;
    put_life(tx, life)
}

/// Writes the row that a life begins with, in one transaction.
fn write_begin<S: Alter>(conn: &mut Connection<S>, life: &Life) -> Result<(), ShelfFault>
    ensures made { HasCleanDisk (state S.Store conn.new)
        → OnOk result (MakesAll S.Store (life_statements life.now) (state S.Store conn.old).now
        (state S.Store conn.new).committed) }
    ensures open { HasCleanDisk (state S.Store conn.new)
        → OnOk result (IsTrue (state S.Store conn.old).is_open) }
    ensures neither { HasCleanDisk (state S.Store conn.new)
        → OnErr result (IsSame (state S.Store conn.old) (state S.Store conn.new)) }
    ensures settled { HasCleanDisk (state S.Store conn.new)
        → OnOk result (IsSettled (state S.Store conn.new)) }
    ensures mode { conn.new.in_transaction ≡ conn.old.in_transaction }
    ensures crash { Survives (state S.Store conn.old) (state S.Store conn.new)
        (LaidBy S.Store (life_statements life.now) conn.old) }
    ensures fault { result ≢ Err ShelfFault.Shape }
{
    if !conn.is_autocommit() {
        return Err(ShelfFault::Store);
    }
    let mut tx = conn.transaction();
    put_begin(&mut tx, life)?;
    tx.commit()?;
    Ok(())
}

/// Begins the next life.
pub(crate) fn begin<S: Alter>(conn: &mut Connection<S>) -> Result<Life, ShelfFault>
    ensures follows { HasCleanDisk (state S.Store conn.new)
        → IfOk result (Follows (state S.Store conn.old).now) }
    ensures made { HasCleanDisk (state S.Store conn.new)
        → IfOk result (λ life. MakesAll S.Store (life_statements life)
        (state S.Store conn.old).now (state S.Store conn.new).committed) }
    ensures settled { HasCleanDisk (state S.Store conn.new)
        → OnOk result (IsSettled (state S.Store conn.new)) }
    ensures neither { HasCleanDisk (state S.Store conn.new)
        → OnErr result (IsSame (state S.Store conn.old) (state S.Store conn.new)) }
    ensures shape { HasCleanDisk (state S.Store conn.new) → result ≡ Err ShelfFault.Shape
        → EndsLives (state S.Store conn.old).now }
    ensures mode { conn.new.in_transaction ≡ conn.old.in_transaction }
    ensures crash { Survives (state S.Store conn.old) (state S.Store conn.new)
        (Begun S.Store conn.old) }
{
    let below = look_below(conn)?;
    let life = life_from(below)?;
    write_begin(conn, &life)?;
    Ok(life)
}

/// Sets the row of a life, in one transaction.
fn write_row<S: Alter>(conn: &mut Connection<S>, life: &Life) -> Result<(), ShelfFault>
    ensures made { HasCleanDisk (state S.Store conn.new)
        → OnOk result (MakesAll S.Store (life_row life.now ∷ []) (state S.Store conn.old).now
        (state S.Store conn.new).committed) }
    ensures neither { HasCleanDisk (state S.Store conn.new)
        → OnErr result (IsSame (state S.Store conn.old) (state S.Store conn.new)) }
    ensures settled { HasCleanDisk (state S.Store conn.new)
        → OnOk result (IsSettled (state S.Store conn.new)) }
    ensures mode { conn.new.in_transaction ≡ conn.old.in_transaction }
    ensures crash { Survives (state S.Store conn.old) (state S.Store conn.new)
        (MadeBy S.Store (life_row life.now ∷ []) conn.old) }
    ensures fault { result ≢ Err ShelfFault.Shape }
{
    if !conn.is_autocommit() {
        return Err(ShelfFault::Store);
    }
    let mut tx = conn.transaction();
    put_life(&mut tx, life)?;
    tx.commit()?;
    Ok(())
}

/// Gives the life room for an incarnation.
pub(crate) fn raise<S: Alter>(
    conn: &mut Connection<S>,
    life: &mut Life,
    incarnation: Incarnation,
) -> Result<(), ShelfFault>
    requires beyond { life.old.below ≤ incarnation }
    requires room { incarnation < raise_end }
    ensures raised { OnOk result (life.new ≡ raised life.old incarnation) }
    ensures kept { OnErr result (life.new ≡ life.old) }
    ensures made { HasCleanDisk (state S.Store conn.new)
        → OnOk result (MakesAll S.Store (life_row (raised life.old incarnation) ∷ [])
        (state S.Store conn.old).now (state S.Store conn.new).committed) }
    ensures neither { HasCleanDisk (state S.Store conn.new)
        → OnErr result (IsSame (state S.Store conn.old) (state S.Store conn.new)) }
    ensures settled { HasCleanDisk (state S.Store conn.new)
        → OnOk result (IsSettled (state S.Store conn.new)) }
    ensures mode { conn.new.in_transaction ≡ conn.old.in_transaction }
    ensures crash { Survives (state S.Store conn.old) (state S.Store conn.new)
        (MadeBy S.Store (life_row (raised life.old incarnation) ∷ []) conn.old) }
    ensures fault { result ≢ Err ShelfFault.Shape }
{
    let next = Life {
        floor: life.floor,
        below: incarnation.get() + RANGE,
    };
    write_row(conn, &next)?;
    *life = next;
    Ok(())
}
