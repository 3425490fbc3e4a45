//! The shelf.
ghost use Rattle.std.specs.Prelude.{◌≡◌, ◌≢◌, ◌≤◌, ◌<◌, ◌==◌, ◌↔◌, [], ◌∷◌, if◌then◌else◌, Some};
ghost use Rattle.std.specs.Prelude.{None};
ghost use Rattle.std.specs.Prelude.{Err, IsTrue};
ghost use Rattle.std.specs.Prelude.{IfOk, IfErr, OnOk, OnErr};
ghost use Rattle.sqlite.specs.State.{HasCleanDisk, Survives};
ghost use Rattle.sqlite.specs.Held.{state};
ghost use Rattle.cb_commit.specs.Stores.{IsOf};
ghost use Rattle.cb_shelf.specs.Statements.{MakesAll, batch_statements};
ghost use Rattle.cb_shelf.specs.Inside.{IsSame, IsSettled};
ghost use Rattle.cb_shelf.specs.LifeRows.{life_row};
ghost use Rattle.cb_shelf.specs.Living.{Begun, EndsLives, Follows, MadeBy, life_statements};
ghost use Rattle.cb_shelf.specs.Living.{raise_end, raised};
ghost use Rattle.cb_shelf.specs.Opening.{LaysOut, Opened, Misshapen};
ghost use Rattle.cb_shelf.specs.Reading.{Holds, Misfits};
ghost use Rattle.cb_shelf.specs.declared.reading.Generation.TheVariants.{Newer};
ghost use Rattle.cb_shelf.specs.Writing.{Fits, Wrote};

use crate::life::{Life, begin, raise};
use crate::opening::open_tables;
use crate::reading::read_back;
use crate::writing::{Written, write_batch};
use crate::{ShelfFault, fits};
use cb_commit::{Batch, Store};
use cb_page::{Incarnation, Limits};
use sqlite::{Alter, Connection};
use std::alloc::Global;

/// A store in the tables of a database.
///
/// Nobody else may write them meanwhile.
#[derive(Drop)]
pub struct Shelf<S: Alter> {
    conn: Connection<S>,
    limits: Limits,
}

impl<S: Alter> Shelf<S> {
    /// Opens the tables of a store of these limits. It makes them, with zeros, if there are none,
    /// and copies what older ones hold. Tables of any other shape are refused. A refusal comes with
    /// the connection.
    pub fn open(
        alloc: Global,
        mut conn: Connection<S>,
        limits: &Limits,
    ) -> Result<Shelf<S>, (ShelfFault, Connection<S>)>
        ensures limits { IfOk result (λ shelf. shelf.limits ≡ limits.now) }
        ensures laid_out { IfOk result (λ shelf. HasCleanDisk (state S.Store shelf.conn)
            → IsTrue (state S.Store shelf.conn).is_open
            → LaysOut S.Store limits.now (state S.Store conn).now
            (state S.Store shelf.conn).committed) }
        ensures settled { IfOk result (λ shelf. HasCleanDisk (state S.Store shelf.conn)
            → IsTrue (state S.Store shelf.conn).is_open → IsSettled (state S.Store shelf.conn)) }
        ensures neither { IfErr result (λ refused. HasCleanDisk (state S.Store refused.1)
            → IsSame (state S.Store conn) (state S.Store refused.1)) }
        ensures mode { IfErr result (λ refused.
            refused.1.in_transaction ≡ conn.in_transaction) }
        ensures shape { IfErr result (λ refused. HasCleanDisk (state S.Store refused.1)
            → refused.0 ≡ ShelfFault.Shape
            → Misshapen limits.now (state S.Store conn).now) }
        ensures crash { IfOk result (λ shelf.
            Survives (state S.Store conn) (state S.Store shelf.conn)
            (Opened S.Store limits.now conn)) }
        ensures refused_crash { IfErr result (λ refused.
            Survives (state S.Store conn) (state S.Store refused.1)
            (Opened S.Store limits.now conn)) }
    {
        match open_tables(alloc, &mut conn, limits) {
            Ok(()) => Ok(Shelf {
                conn,
                limits: *limits,
            }),
            Err(fault) => Err((fault, conn)),
        }
    }

    /// Gives the connection back.
    pub fn close(self) -> Connection<S>
        ensures { result ≡ self.conn }
    {
        let Shelf { conn, limits: _ } = self;
        conn
    }

    /// Lets each statement take at most this many steps; 0 removes the limit.
    pub fn limit_steps(&mut self, steps: u64)
        ensures { self.new ≡ record self.old {
          conn = record self.old.conn { step_limit = if steps == 0 then None else Some steps };
        } }
    {
        self.conn
            .set_step_limit(if steps == 0 { None } else { Some(steps) });
    }

    /// The store that the tables hold.
    pub fn load(&mut self, alloc: Global) -> Result<Store, ShelfFault>
        ensures of { IfOk result (IsOf self.old.limits) }
        ensures holds { HasCleanDisk (state S.Store self.new.conn)
            → IfOk result (Holds Newer (state S.Store self.old.conn).now) }
        ensures shape { HasCleanDisk (state S.Store self.new.conn) → result ≡ Err ShelfFault.Shape
            → Misfits Newer self.old.limits (state S.Store self.old.conn).now }
        ensures limits { self.new.limits ≡ self.old.limits }
        ensures same { HasCleanDisk (state S.Store self.new.conn)
            → IsSame (state S.Store self.old.conn) (state S.Store self.new.conn) }
        ensures mode { self.new.conn.in_transaction ≡ self.old.conn.in_transaction }
        ensures crash { Survives (state S.Store self.old.conn) (state S.Store self.new.conn)
            (λ _. ⊥) }
    {
        read_back(alloc, &mut self.conn, &self.limits)
    }

    /// Begins the next life of a server over the tables, in one transaction. Its floor is the
    /// number that the tables tell, which is above all incarnations that the servers of former
    /// lives knew. From then on the tables tell a greater number. If the tables have no such row,
    /// their servers kept no lives, and are taken to have known no incarnation from 2^61 on.
    /// `Shape` only if the tables tell no number, or one from which no life is left.
    pub fn begin_life(&mut self) -> Result<Life, ShelfFault>
        ensures limits { self.new.limits ≡ self.old.limits }
        ensures follows { HasCleanDisk (state S.Store self.new.conn)
            → IfOk result (Follows (state S.Store self.old.conn).now) }
        ensures made { HasCleanDisk (state S.Store self.new.conn)
            → IfOk result (λ life. MakesAll S.Store (life_statements life)
            (state S.Store self.old.conn).now (state S.Store self.new.conn).committed) }
        ensures settled { HasCleanDisk (state S.Store self.new.conn)
            → OnOk result (IsSettled (state S.Store self.new.conn)) }
        ensures neither { HasCleanDisk (state S.Store self.new.conn)
            → OnErr result (IsSame (state S.Store self.old.conn) (state S.Store self.new.conn)) }
        ensures shape { HasCleanDisk (state S.Store self.new.conn) → result ≡ Err ShelfFault.Shape
            → EndsLives (state S.Store self.old.conn).now }
        ensures mode { self.new.conn.in_transaction ≡ self.old.conn.in_transaction }
        ensures crash { Survives (state S.Store self.old.conn) (state S.Store self.new.conn)
            (Begun S.Store self.old.conn) }
    {
        begin(&mut self.conn)
    }

    /// Gives the life room for a Hello of an incarnation, in one transaction. From then on the
    /// tables tell a number above it. If it is refused, the life is as before.
    pub fn raise(&mut self, life: &mut Life, incarnation: Incarnation) -> Result<(), ShelfFault>
        requires beyond { life.old.below ≤ incarnation }
        requires room { incarnation < raise_end }
        ensures limits { self.new.limits ≡ self.old.limits }
        ensures raised { OnOk result (life.new ≡ raised life.old incarnation) }
        ensures kept { OnErr result (life.new ≡ life.old) }
        ensures made { HasCleanDisk (state S.Store self.new.conn)
            → OnOk result (MakesAll S.Store (life_row (raised life.old incarnation) ∷ [])
            (state S.Store self.old.conn).now (state S.Store self.new.conn).committed) }
        ensures settled { HasCleanDisk (state S.Store self.new.conn)
            → OnOk result (IsSettled (state S.Store self.new.conn)) }
        ensures neither { HasCleanDisk (state S.Store self.new.conn)
            → OnErr result (IsSame (state S.Store self.old.conn) (state S.Store self.new.conn)) }
        ensures mode { self.new.conn.in_transaction ≡ self.old.conn.in_transaction }
        ensures crash { Survives (state S.Store self.old.conn) (state S.Store self.new.conn)
            (MadeBy S.Store (life_row (raised life.old incarnation) ∷ []) self.old.conn) }
        ensures fault { result ≢ Err ShelfFault.Shape }
    {
        raise(&mut self.conn, life, incarnation)
    }

    /// Sets the pages and the number of a batch, in one transaction. The answer says that the
    /// tables hold it.
    pub fn write(&mut self, batch: &Batch) -> Result<Written, ShelfFault>
        ensures number { IfOk result (λ written. written ≡ batch.now.number) }
        ensures limits { self.new.limits ≡ self.old.limits }
        ensures fits { OnOk result (Fits self.old.limits batch.now) }
        ensures shape { (result ≡ Err ShelfFault.Shape) ↔ ¬ Fits self.old.limits batch.now }
        ensures untouched { result ≡ Err ShelfFault.Shape → self.new ≡ self.old }
        ensures both { HasCleanDisk (state S.Store self.new.conn)
            → OnOk result (MakesAll S.Store (batch_statements batch.now)
            (state S.Store self.old.conn).now (state S.Store self.new.conn).committed) }
        ensures neither { HasCleanDisk (state S.Store self.new.conn)
            → OnErr result (IsSame (state S.Store self.old.conn) (state S.Store self.new.conn)) }
        ensures settled { HasCleanDisk (state S.Store self.new.conn)
            → OnOk result (IsSettled (state S.Store self.new.conn)) }
        ensures mode { self.new.conn.in_transaction ≡ self.old.conn.in_transaction }
        ensures crash { Survives (state S.Store self.old.conn) (state S.Store self.new.conn)
            (Wrote S.Store batch.now self.old.conn) }
    {
        if !fits(&self.limits, batch) {
            return Err(ShelfFault::Shape);
        }
        write_batch(&mut self.conn, batch)
    }
}
