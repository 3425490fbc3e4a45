//! Which tables there are, and making those that aren't.
ghost use Rattle.std.specs.Prelude.{◌≡◌, ◌≢◌, ◌≤◌, ◌<◌, ◌⊎◌, [], ◌∷◌, Bool, true, false, length};
ghost use Rattle.std.specs.Prelude.{if◌then◌else◌, IsTrue, Err, IfOk, OnOk, OnErr};
ghost use Rattle.sqlite.specs.State.{HasCleanDisk, Survives};
ghost use Rattle.sqlite.specs.Effect.{Database};
ghost use Rattle.sqlite.specs.Held.{state};
ghost use Rattle.cb_commit.specs.Stores.{IsOf, zeros};
ghost use Rattle.cb_shelf.specs.Statements.{MakesAll};
ghost use Rattle.cb_shelf.specs.Inside.{Inside, IsAny, IsSame, IsSettled, Tells};
ghost use Rattle.cb_shelf.specs.Opening.{LaysOut, LaidBy, Opened, IsFound, table_statements};
ghost use Rattle.cb_shelf.specs.Opening.{Has, HasOld, HasNew, HasRows, HasRowsIf, Uncounted};
ghost use Rattle.cb_shelf.specs.Opening.{IsMixed, tables_of, IsFoundIn, Finds, MisfitsFor};
ghost use Rattle.cb_shelf.specs.Opening.{Misshapen};
ghost use Rattle.cb_shelf.specs.Opening.{clear_statements, first_pages, laid, mark_row};

use crate::life::{create_table, put_unserved};
use crate::reading::{Generation, ask_number, read_store};
use crate::{PageRows, ShelfFault, is_there, put_page, run};
use cb_commit::Store;
use cb_page::{Limits, PageNo};
use sqlite::{Alter, Connection, Transaction, params};
use std::alloc::Global;

/// Which tables there are.
enum TablesFound {
    Nothing,
    /// Those of an older generation, with rows.
    Old,
    New,
}

/// What an open found.
#[derive(Drop)]
pub(crate) enum Found {
    Nothing,
    /// The store that the old tables hold.
    Old(Store),
    New,
}

/// Whether both are there; it is refused where only one is.
fn both_or_none(first: bool, second: bool) -> Result<bool, ShelfFault>
    ensures ok { IfOk result (λ both. (first ≡ both) × (second ≡ both)) }
    ensures err { OnErr result (first ≢ second) }
    ensures fault { OnErr result (result ≡ Err ShelfFault.Shape) }
{
    if first == second {
        Ok(first)
    } else {
        Err(ShelfFault::Shape)
    }
}

/// Whether all three are there; it is refused where only some are.
fn all_or_none(first: bool, second: bool, third: bool) -> Result<bool, ShelfFault>
    ensures ok { IfOk result (λ all. (first ≡ all) × (second ≡ all) × (third ≡ all)) }
    ensures err { OnErr result ((all : Bool) → ¬ ((first ≡ all) × (second ≡ all)
        × (third ≡ all))) }
    ensures fault { OnErr result (result ≡ Err ShelfFault.Shape) }
{
    let both = both_or_none(first, second)?;
    both_or_none(both, third)
}

/// Whether the tables of the older generation are there.
fn old_there<S: Alter>(tx: &mut Transaction<'_, S>) -> Result<bool, ShelfFault>
    ensures same_reference { tx.new.conn.ghost_name ≡ tx.old.conn.ghost_name }
    ensures inside { Inside S.Store IsAny tx.old.conn.now tx.new.conn.now result }
    ensures tells { Tells S.Store (λ db. HasOld db.schema)
        (λ db. (there : _) → ¬ HasOld db.schema there) tx.old.conn.now tx.new.conn.now result }
{
    let page = is_there(tx, "SELECT no, version, body FROM page")?;
    let mark = is_there(tx, "SELECT id, commits, page_size FROM mark")?;
    both_or_none(page, mark)
}

/// Whether the tables that a shelf writes are there.
fn new_there<S: Alter>(tx: &mut Transaction<'_, S>) -> Result<bool, ShelfFault>
    ensures same_reference { tx.new.conn.ghost_name ≡ tx.old.conn.ghost_name }
    ensures inside { Inside S.Store IsAny tx.old.conn.now tx.new.conn.now result }
    ensures tells { Tells S.Store (λ db. HasNew db.schema)
        (λ db. (there : _) → ¬ HasNew db.schema there) tx.old.conn.now tx.new.conn.now result }
{
    let mark = is_there(tx, "SELECT id, commits, page_size, pages FROM mark2")?;
    let page = is_there(tx, "SELECT no, version FROM page2")?;
    let part = is_there(tx, "SELECT no, place, body FROM part")?;
    all_or_none(mark, page, part)
}

/// Whether either count has a row.
fn any_row(pages: u64, marks: u64) -> bool
    ensures none { result ≡ false → (pages ≡ 0) × (marks ≡ 0) }
    ensures some { result ≡ true → (0 < pages) ⊎ (0 < marks) }
{
    pages > 0 || marks > 0
}

/// Whether the older tables have a row.
fn count_rows<S: Alter>(tx: &mut Transaction<'_, S>) -> Result<bool, ShelfFault>
    ensures same_reference { tx.new.conn.ghost_name ≡ tx.old.conn.ghost_name }
    ensures inside { Inside S.Store IsAny tx.old.conn.now tx.new.conn.now result }
    ensures tells { Tells S.Store HasRows Uncounted tx.old.conn.now tx.new.conn.now result }
{
    let pages = ask_number(tx, "SELECT count(*) FROM page", &[])?;
    let marks = ask_number(tx, "SELECT count(*) FROM mark", &[])?;
    Ok(any_row(pages, marks))
}

/// Whether there are older tables with a row.
fn old_rows<S: Alter>(tx: &mut Transaction<'_, S>, there: bool) -> Result<bool, ShelfFault>
    ensures same_reference { tx.new.conn.ghost_name ≡ tx.old.conn.ghost_name }
    ensures inside { Inside S.Store IsAny tx.old.conn.now tx.new.conn.now result }
    ensures tells { Tells S.Store (HasRowsIf there) (λ db. IsTrue there × Uncounted db)
        tx.old.conn.now tx.new.conn.now result }
{
    if !there {
        return Ok(false);
    }
    count_rows(tx)
}

/// Which of the three cases it is, if any.
fn judged(old: bool, rows: bool, new: bool) -> Result<TablesFound, ShelfFault>
    ensures ok { IfOk result (λ tables. (db : Database) → HasOld db.schema old
        → HasRowsIf old db rows → HasNew db.schema new → Has db tables) }
    ensures err { OnErr result ((db : Database) → HasOld db.schema old
        → HasRowsIf old db rows → HasNew db.schema new → IsMixed db) }
    ensures fault { OnErr result (result ≡ Err ShelfFault.Shape) }
{
    match (old, rows, new) {
        (false, _, false) => Ok(TablesFound::Nothing),
        (true, true, false) => Ok(TablesFound::Old),
        (_, false, true) => Ok(TablesFound::New),
        _ => Err(ShelfFault::Shape),
    }
}

/// Finds out which tables there are.
fn find_tables<S: Alter>(tx: &mut Transaction<'_, S>) -> Result<TablesFound, ShelfFault>
    ensures same_reference { tx.new.conn.ghost_name ≡ tx.old.conn.ghost_name }
    ensures inside { Inside S.Store IsAny tx.old.conn.now tx.new.conn.now result }
    ensures tells { Tells S.Store Has IsMixed tx.old.conn.now tx.new.conn.now result }
{
    let old = old_there(tx)?;
    let new = new_there(tx)?;
    let rows = old_rows(tx, old)?;
    judged(old, rows, new)
}

/// Reads what the tables hold, which has to be a store of these limits.
fn find_store<S: Alter>(
    alloc: Global,
    tx: &mut Transaction<'_, S>,
    limits: &Limits,
    tables: TablesFound,
) -> Result<Found, ShelfFault>
    ensures same_reference { tx.new.conn.ghost_name ≡ tx.old.conn.ghost_name }
    ensures inside { Inside S.Store IsAny tx.old.conn.now tx.new.conn.now result }
    ensures of { IfOk result (IsFound limits.now) }
    ensures tables { IfOk result (λ found. tables_of found ≡ tables) }
    ensures tells { Tells S.Store (IsFoundIn limits.now) (MisfitsFor tables limits.now)
        tx.old.conn.now tx.new.conn.now result }
{
    match tables {
        TablesFound::Nothing => Ok(Found::Nothing),
        TablesFound::Old => {
            let old = read_store(alloc, tx, limits, Generation::Older)?;
            Ok(Found::Old(old))
        }
        TablesFound::New => {
            let _new = read_store(alloc, tx, limits, Generation::Newer)?;
            Ok(Found::New)
        }
    }
}

/// Finds out which tables there are and what they hold.
fn find<S: Alter>(
    alloc: Global,
    tx: &mut Transaction<'_, S>,
    limits: &Limits,
) -> Result<Found, ShelfFault>
    ensures same_reference { tx.new.conn.ghost_name ≡ tx.old.conn.ghost_name }
    ensures inside { Inside S.Store IsAny tx.old.conn.now tx.new.conn.now result }
    ensures of { IfOk result (IsFound limits.now) }
    ensures tells { Tells S.Store (Finds limits.now) (Misshapen limits.now)
        tx.old.conn.now tx.new.conn.now result }
{
    let tables = find_tables(tx)?;
    find_store(alloc, tx, limits, tables)
}

/// Finds out what there is, in a transaction that is taken back.
fn look<S: Alter>(
    alloc: Global,
    conn: &mut Connection<S>,
    limits: &Limits,
) -> Result<Found, ShelfFault>
    ensures of { IfOk result (IsFound limits.now) }
    ensures told { HasCleanDisk (state S.Store conn.new)
        → IfOk result (Finds limits.now (state S.Store conn.old).now) }
    ensures shape { HasCleanDisk (state S.Store conn.new) → result ≡ Err ShelfFault.Shape
        → Misshapen limits.now (state S.Store conn.old).now }
    ensures same { HasCleanDisk (state S.Store conn.new)
        → IsSame (state S.Store conn.old) (state S.Store conn.new) }
    ensures settled { HasCleanDisk (state S.Store conn.new)
        → IsTrue (state S.Store conn.new).is_open
        → OnOk result ((state S.Store conn.new).committed ≡ (state S.Store conn.old).now) }
    ensures mode { conn.new.in_transaction ≡ conn.old.in_transaction }
    ensures ended { OnOk result (conn.new.in_transaction ≡ false) }
    ensures crash { Survives (state S.Store conn.old) (state S.Store conn.new) (λ _. ⊥) }
{
    if !conn.is_autocommit() {
        return Err(ShelfFault::Store);
    }
    let mut tx = conn.transaction();
    let found = find(alloc, &mut tx, limits);
    tx.rollback();
    found
}

/// Makes the four tables.
fn create_tables<S: Alter>(tx: &mut Transaction<'_, S>) -> Result<(), ShelfFault>
    ensures same_reference { tx.new.conn.ghost_name ≡ tx.old.conn.ghost_name }
    ensures inside { Inside S.Store (MakesAll S.Store table_statements)
        tx.old.conn.now tx.new.conn.now result }
    ensures open { HasCleanDisk (state S.Store tx.new.conn.now)
        → IsTrue tx.old.conn.now.in_transaction
        → OnOk result (IsTrue (state S.Store tx.old.conn.now).is_open) }
    ensures fault { result ≢ Err ShelfFault.Shape }
{
    run(
        tx,
        "CREATE TABLE mark2(id INTEGER PRIMARY KEY, commits INTEGER NOT NULL, \
        page_size INTEGER NOT NULL, pages INTEGER NOT NULL) STRICT",
        &[],
    )?;
    run(
        tx,
        "CREATE TABLE page2(no INTEGER PRIMARY KEY, version INTEGER NOT NULL) STRICT",
        &[],
    )?;
    run(
        tx,
        "CREATE TABLE part(no INTEGER NOT NULL, place INTEGER NOT NULL, \
        body BLOB NOT NULL, PRIMARY KEY(no, place)) STRICT",
        &[],
    )?;
    create_table(tx)
}

/// Puts all pages of a store in.
fn put_store<S: Alter>(
    tx: &mut Transaction<'_, S>,
    store: &Store,
    count: u32,
) -> Result<(), ShelfFault>
    requires all { count ≡ length store.now.pages }
    requires most { count ≤ 4096 }
    ensures same_reference { tx.new.conn.ghost_name ≡ tx.old.conn.ghost_name }
    ensures inside { Inside S.Store (MakesAll S.Store (first_pages store.now count))
        tx.old.conn.now tx.new.conn.now result }
    ensures fault { result ≢ Err ShelfFault.Shape }
{
    for place in 0..count {
        let page = PageNo::new(place);
        put_page(
            tx,
            PageRows::Absent,
            page,
            store.version(page),
            store.bytes(page),
        )?;
    }
    Ok(())
}

/// Puts the one row in that has the number of the last commit and the limits.
fn put_row<S: Alter>(
    tx: &mut Transaction<'_, S>,
    store: &Store,
    limits: &Limits,
) -> Result<(), ShelfFault>
    requires { IsOf limits.now store.now }
    ensures same_reference { tx.new.conn.ghost_name ≡ tx.old.conn.ghost_name }
    ensures inside { Inside S.Store (MakesAll S.Store (mark_row store.now ∷ []))
        tx.old.conn.now tx.new.conn.now result }
    ensures fault { result ≢ Err ShelfFault.Shape }
{
    run(
        tx,
        "INSERT INTO mark2 (id, commits, page_size, pages) VALUES (1, ?1, ?2, ?3)",
        params![
            store.number() as i64,
            limits.page_size() as i64,
            limits.pages()
        ],
    )
}

/// Takes all rows of the old tables out, where a store was copied.
fn clear_old<S: Alter>(tx: &mut Transaction<'_, S>, copied: bool) -> Result<(), ShelfFault>
    ensures same_reference { tx.new.conn.ghost_name ≡ tx.old.conn.ghost_name }
    ensures inside { Inside S.Store
        (MakesAll S.Store (if copied then clear_statements else []))
        tx.old.conn.now tx.new.conn.now result }
    ensures fault { result ≢ Err ShelfFault.Shape }
{
    if !copied {
        return Ok(());
    }
    run(tx, "DELETE FROM page", &[])?;
    run(tx, "DELETE FROM mark", &[])
}

/// Makes the tables and puts a store in.
fn put_tables<S: Alter>(
    tx: &mut Transaction<'_, S>,
    store: &Store,
    limits: &Limits,
    copied: bool,
) -> Result<(), ShelfFault>
    requires { IsOf limits.now store.now }
    ensures same_reference { tx.new.conn.ghost_name ≡ tx.old.conn.ghost_name }
    ensures inside { Inside S.Store (MakesAll S.Store (laid store.now copied))
        tx.old.conn.now tx.new.conn.now result }
    ensures open { HasCleanDisk (state S.Store tx.new.conn.now)
        → IsTrue tx.old.conn.now.in_transaction
        → OnOk result (IsTrue (state S.Store tx.old.conn.now).is_open) }
    ensures fault { result ≢ Err ShelfFault.Shape }
{
    create_tables(tx)?;
    put_store(tx, store, limits.pages())?;
    put_row(tx, store, limits)?;
    put_unserved(tx, copied)?;
    clear_old(tx, copied)
}

/// Makes the tables with a store in them, in one transaction; the old ones are emptied where it was
/// copied out of them.
fn make_tables<S: Alter>(
    conn: &mut Connection<S>,
    store: &Store,
    limits: &Limits,
    copied: bool,
) -> Result<(), ShelfFault>
    requires { IsOf limits.now store.now }
    ensures made { HasCleanDisk (state S.Store conn.new)
        → OnOk result (MakesAll S.Store (laid store.now copied) (state S.Store conn.old).now
        (state S.Store conn.new).committed) }
    ensures open { HasCleanDisk (state S.Store conn.new)
        → OnOk result (IsTrue (state S.Store conn.old).is_open) }
    ensures neither { HasCleanDisk (state S.Store conn.new)
        → OnErr result (IsSame (state S.Store conn.old) (state S.Store conn.new)) }
    ensures settled { HasCleanDisk (state S.Store conn.new)
        → OnOk result (IsSettled (state S.Store conn.new)) }
    ensures mode { conn.new.in_transaction ≡ conn.old.in_transaction }
    ensures crash { Survives (state S.Store conn.old) (state S.Store conn.new)
        (LaidBy S.Store (laid store.now copied) conn.old) }
    ensures fault { result ≢ Err ShelfFault.Shape }
{
    if !conn.is_autocommit() {
        return Err(ShelfFault::Store);
    }
    let mut tx = conn.transaction();
    put_tables(&mut tx, store, limits, copied)?;
    tx.commit()?;
    Ok(())
}

/// Makes the tables of a store of zeros.
fn make_zeros<S: Alter>(
    alloc: Global,
    conn: &mut Connection<S>,
    limits: &Limits,
) -> Result<(), ShelfFault>
    ensures made { HasCleanDisk (state S.Store conn.new)
        → OnOk result (MakesAll S.Store (laid (zeros limits.now) false)
        (state S.Store conn.old).now (state S.Store conn.new).committed) }
    ensures open { HasCleanDisk (state S.Store conn.new)
        → OnOk result (IsTrue (state S.Store conn.old).is_open) }
    ensures neither { HasCleanDisk (state S.Store conn.new)
        → OnErr result (IsSame (state S.Store conn.old) (state S.Store conn.new)) }
    ensures settled { HasCleanDisk (state S.Store conn.new)
        → OnOk result (IsSettled (state S.Store conn.new)) }
    ensures mode { conn.new.in_transaction ≡ conn.old.in_transaction }
    ensures crash { Survives (state S.Store conn.old) (state S.Store conn.new)
        (LaidBy S.Store (laid (zeros limits.now) false) conn.old) }
    ensures fault { result ≢ Err ShelfFault.Shape }
{
    let store = Store::zeros(alloc, limits)?;
    make_tables(conn, &store, limits, false)
}

/// Opens the tables, making them where there are none.
pub(crate) fn open_tables<S: Alter>(
    alloc: Global,
    conn: &mut Connection<S>,
    limits: &Limits,
) -> Result<(), ShelfFault>
    ensures laid_out { HasCleanDisk (state S.Store conn.new)
        → IsTrue (state S.Store conn.new).is_open
        → OnOk result (LaysOut S.Store limits.now (state S.Store conn.old).now
        (state S.Store conn.new).committed) }
    ensures neither { HasCleanDisk (state S.Store conn.new)
        → OnErr result (IsSame (state S.Store conn.old) (state S.Store conn.new)) }
    ensures settled { HasCleanDisk (state S.Store conn.new)
        → IsTrue (state S.Store conn.new).is_open
        → OnOk result (IsSettled (state S.Store conn.new)) }
    ensures mode { conn.new.in_transaction ≡ conn.old.in_transaction }
    ensures shape { HasCleanDisk (state S.Store conn.new) → result ≡ Err ShelfFault.Shape
        → Misshapen limits.now (state S.Store conn.old).now }
    ensures crash { Survives (state S.Store conn.old) (state S.Store conn.new)
        (Opened S.Store limits.now conn.old) }
{
    let found = look(alloc, conn, limits)?;
    match found {
        Found::Nothing => make_zeros(alloc, conn, limits),
        Found::Old(store) => make_tables(conn, &store, limits, true),
        Found::New => Ok(()),
    }
}
