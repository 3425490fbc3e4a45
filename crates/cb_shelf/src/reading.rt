//! Reading the store that the tables hold.
ghost use Rattle.std.specs.Prelude.{◌≡◌, ◌≢◌, ◌≤◌, ◌<◌, ◌↔◌, ◌++◌, ◌*◌, ◌∷◌, [], length};
ghost use Rattle.std.specs.Prelude.{◌+◌, pos, Err, IsTrue, IfOk, OnOk, OnErr};
ghost use Rattle.std.specs.List.{All};
ghost use Rattle.sqlite.specs.State.{HasCleanDisk, Survives};
ghost use Rattle.sqlite.specs.Held.{state};
ghost use Rattle.sqlite.specs.Value.{owned};
ghost use Rattle.sqlite.specs.Values.{bound};
ghost use Rattle.sqlite.specs.Order.{column};
ghost use Rattle.sqlite.specs.declared.types.Value.TheVariants.{Int, Blob};
ghost use Rattle.cb_page.specs.Numbers.{max_number};
ghost use Rattle.cb_commit.specs.Stores.{IsOf, IsStored};
ghost use Rattle.cb_shelf.specs.Statements.{part_count};
ghost use Rattle.cb_shelf.specs.Inside.{Inside, IsAny, IsSame, Tells};
ghost use Rattle.cb_shelf.specs.Asking.{IsQuestion, IsRow, HasFrom, RepliesRow, RepliesElse};
ghost use Rattle.cb_shelf.specs.Reading.{mark_text, pages_text, parts_text, version_text};
ghost use Rattle.cb_shelf.specs.Reading.{part_text, question, version_of, part_of, mark_values};
ghost use Rattle.cb_shelf.specs.Reading.{number_values};
ghost use Rattle.cb_shelf.specs.Reading.{HasParts, HasPage, HasPages, Holds, IsMark, IsNumber};
ghost use Rattle.cb_shelf.specs.Reading.{IsUpTo, IsBytes, part_length, LacksPart, HasNoPage};
ghost use Rattle.cb_shelf.specs.Reading.{LacksPage, Misfits};
ghost use Rattle.cb_shelf.specs.declared.reading.Generation.TheVariants.{Newer as newer};

use crate::{PART, ShelfFault, ask, part_count};
use cb_commit::{Store, StoredPage};
use cb_page::{Limits, MAX_NUMBER, Page, PageNo, Version};
use sqlite::types::ValueRef;
use sqlite::{Alter, Connection, Row, Transaction, params};
use std::alloc::Global;

/// A generation of the tables.
#[derive(Clone, Copy)]
pub(crate) enum Generation {
    /// Where a page is one part.
    Older,
    /// The tables that a shelf writes.
    Newer,
}

impl Generation {
    /// Asks for the identity, the number of the last commit, the page size and the count of pages.
    fn mark_text(self) -> &'static str
        ensures { result.now ≡ mark_text self }
    {
        match self {
            Generation::Older => {
                "SELECT id, commits, page_size, (SELECT count(*) FROM page) FROM mark"
            }
            Generation::Newer => "SELECT id, commits, page_size, pages FROM mark2",
        }
    }

    /// Asks how many pages there are.
    fn pages_text(self) -> &'static str
        ensures { result.now ≡ pages_text self }
    {
        match self {
            Generation::Older => "SELECT count(*) FROM page",
            Generation::Newer => "SELECT count(*) FROM page2",
        }
    }

    /// Asks how many parts there are.
    fn parts_text(self) -> &'static str
        ensures { result.now ≡ parts_text self }
    {
        match self {
            Generation::Older => "SELECT count(*) FROM page",
            Generation::Newer => "SELECT count(*) FROM part",
        }
    }

    /// Asks for the version of a page.
    fn version_text(self) -> &'static str
        ensures { result.now ≡ version_text self }
    {
        match self {
            Generation::Older => "SELECT version FROM page WHERE no = ?1",
            Generation::Newer => "SELECT version FROM page2 WHERE no = ?1",
        }
    }

    /// Asks for a part of a page.
    fn part_text(self) -> &'static str
        ensures { result.now ≡ part_text self }
    {
        match self {
            Generation::Older => "SELECT body FROM page WHERE no = ?1 AND ?2 = 0",
            Generation::Newer => "SELECT body FROM part WHERE no = ?1 AND place = ?2",
        }
    }
}

/// The one row of an answer.
fn only(rows: &[Row]) -> Result<&Row, ShelfFault>
    ensures ok { IfOk result (λ row. rows.now ≡ row.now ∷ []) }
    ensures err { OnErr result (length rows.now ≢ 1) }
    ensures fault { OnErr result (result ≡ Err ShelfFault.Shape) }
{
    match rows {
        [row] => Ok(row),
        _ => Err(ShelfFault::Shape),
    }
}

/// A value as a number.
fn number_of(value: ValueRef<'_>) -> Result<u64, ShelfFault>
    ensures ok { IfOk result (λ number. owned value.entry ≡ Int (pos number)) }
    ensures err { OnErr result ((number : _) → owned value.entry ≢ Int (pos number)) }
    ensures fault { OnErr result (result ≡ Err ShelfFault.Shape) }
{
    match value {
        ValueRef::Int(number) => {
            if number >= 0 {
                Ok(number as u64)
            } else {
                Err(ShelfFault::Shape)
            }
        }
        _ => Err(ShelfFault::Shape),
    }
}

/// A number that a row has.
fn number_at(row: &Row, at: usize) -> Result<u64, ShelfFault>
    ensures ok { IfOk result (λ number. column row.now at ≡ Int (pos number)) }
    ensures err { OnErr result ((number : _) → column row.now at ≢ Int (pos number)) }
    ensures fault { OnErr result (result ≡ Err ShelfFault.Shape) }
{
    match row.get_ref(at) {
        Ok(value) => number_of(value),
        Err(_) => Err(ShelfFault::Shape),
    }
}

/// Whether a row has this number.
fn has_number(row: &Row, at: usize, wanted: u64) -> bool
    ensures { IsTrue result ↔ (column row.now at ≡ Int (pos wanted)) }
{
    match number_at(row, at) {
        Ok(number) => number == wanted,
        Err(_) => false,
    }
}

/// The one number of an answer.
fn only_number(rows: &[Row]) -> Result<u64, ShelfFault>
    ensures ok { IfOk result (λ number. IsRow rows.now (number_values number)) }
    ensures err { OnErr result ((values : _) → IsNumber values → ¬ IsRow rows.now values) }
    ensures fault { OnErr result (result ≡ Err ShelfFault.Shape) }
{
    let row = only(rows)?;
    number_at(row, 0)
}

/// Asks for a number.
pub(crate) fn ask_number<S: Alter>(
    tx: &mut Transaction<'_, S>,
    text: &str,
    params: &[ValueRef<'_>],
) -> Result<u64, ShelfFault>
    requires { IsQuestion text.now }
    ensures same_reference { tx.new.conn.ghost_name ≡ tx.old.conn.ghost_name }
    ensures inside { Inside S.Store IsAny tx.old.conn.now tx.new.conn.now result }
    ensures tells { Tells S.Store
        (λ db number. RepliesRow db (record { text = text.now; params = bound params.now })
        (number_values number))
        (λ db. RepliesElse db (record { text = text.now; params = bound params.now }) IsNumber)
        tx.old.conn.now tx.new.conn.now result }
{
    let rows = ask(tx, text, params)?;
    only_number(&rows)
}

/// Whether a row is the mark of a store of these limits, with this number.
fn is_mark(row: &Row, limits: &Limits, number: u64) -> bool
    ensures { IsTrue result ↔ ((number ≤ max_number)
        × HasFrom row.now 0 (mark_values number limits.now.page_size limits.now.pages)) }
{
    number <= MAX_NUMBER
        && has_number(row, 0, 1)
        && has_number(row, 1, number)
        && has_number(row, 2, limits.page_size() as u64)
        && has_number(row, 3, u64::from(limits.pages()))
}

/// The number of the last commit, where the limits are those of the row.
fn marked(rows: &[Row], limits: &Limits) -> Result<u64, ShelfFault>
    ensures number { IfOk result (λ number. number ≤ max_number) }
    ensures ok { IfOk result (λ number. IsRow rows.now
        (mark_values number limits.now.page_size limits.now.pages)) }
    ensures err { OnErr result ((values : _) → IsMark limits.now values → ¬ IsRow rows.now values) }
    ensures fault { OnErr result (result ≡ Err ShelfFault.Shape) }
{
    let row = only(rows)?;
    let number = number_at(row, 1)?;
    if is_mark(row, limits, number) {
        Ok(number)
    } else {
        Err(ShelfFault::Shape)
    }
}

/// Reads the number of the last commit.
fn read_mark<S: Alter>(
    tx: &mut Transaction<'_, S>,
    limits: &Limits,
    tables: Generation,
) -> Result<u64, ShelfFault>
    ensures same_reference { tx.new.conn.ghost_name ≡ tx.old.conn.ghost_name }
    ensures inside { Inside S.Store IsAny tx.old.conn.now tx.new.conn.now result }
    ensures number { IfOk result (λ number. number ≤ max_number) }
    ensures tells { Tells S.Store
        (λ db number. RepliesRow db (question (mark_text tables))
        (mark_values number limits.now.page_size limits.now.pages))
        (λ db. RepliesElse db (question (mark_text tables)) (IsMark limits.now))
        tx.old.conn.now tx.new.conn.now result }
{
    let rows = ask(tx, tables.mark_text(), &[])?;
    marked(&rows, limits)
}

/// Whether two numbers are the same.
fn agree(found: u64, wanted: u64) -> Result<(), ShelfFault>
    ensures ok { OnOk result (found ≡ wanted) }
    ensures err { OnErr result (found ≢ wanted) }
    ensures fault { OnErr result (result ≡ Err ShelfFault.Shape) }
{
    if found == wanted {
        Ok(())
    } else {
        Err(ShelfFault::Shape)
    }
}

/// Asks for a number, which has to be this one.
fn expect_number<S: Alter>(
    tx: &mut Transaction<'_, S>,
    text: &str,
    wanted: u64,
) -> Result<(), ShelfFault>
    requires { IsQuestion text.now }
    ensures same_reference { tx.new.conn.ghost_name ≡ tx.old.conn.ghost_name }
    ensures inside { Inside S.Store IsAny tx.old.conn.now tx.new.conn.now result }
    ensures tells { Tells S.Store
        (λ db _. RepliesRow db (question text.now) (number_values wanted))
        (λ db. RepliesElse db (question text.now) (λ values. values ≡ number_values wanted))
        tx.old.conn.now tx.new.conn.now result }
{
    let found = ask_number(tx, text, &[])?;
    agree(found, wanted)
}

/// How many pages a store has.
fn all_pages(limits: &Limits) -> u64
    ensures { result ≡ limits.now.pages }
{
    u64::from(limits.pages())
}

/// How many parts all pages of a store have.
fn all_parts(limits: &Limits) -> u64
    ensures { result ≡ limits.now.pages * part_count limits.now.page_size }
{
    all_pages(limits) * part_count(limits.page_size()) as u64
}

/// Counts the rows of pages and parts.
fn read_counts<S: Alter>(
    tx: &mut Transaction<'_, S>,
    limits: &Limits,
    tables: Generation,
) -> Result<(), ShelfFault>
    ensures same_reference { tx.new.conn.ghost_name ≡ tx.old.conn.ghost_name }
    ensures inside { Inside S.Store IsAny tx.old.conn.now tx.new.conn.now result }
    ensures tells { Tells S.Store
        (λ db _. RepliesRow db (question (pages_text tables)) (number_values limits.now.pages)
        × RepliesRow db (question (parts_text tables))
        (number_values (limits.now.pages * part_count limits.now.page_size)))
        (Misfits tables limits.now) tx.old.conn.now tx.new.conn.now result }
{
    expect_number(tx, tables.pages_text(), all_pages(limits))?;
    expect_number(tx, tables.parts_text(), all_parts(limits))
}

/// A version that isn't above the last commit's number.
fn version_up_to(version: u64, number: u64) -> Result<Version, ShelfFault>
    requires { number ≤ max_number }
    ensures ok { IfOk result (λ checked. checked ≡ version) }
    ensures most { IfOk result (λ checked. checked ≤ number) }
    ensures err { OnErr result (number < version) }
    ensures fault { OnErr result (result ≡ Err ShelfFault.Shape) }
{
    if version <= number {
        Ok(Version::new(version))
    } else {
        Err(ShelfFault::Shape)
    }
}

/// Reads the version of a page.
fn read_version<S: Alter>(
    tx: &mut Transaction<'_, S>,
    tables: Generation,
    page: PageNo,
    number: u64,
) -> Result<Version, ShelfFault>
    requires { number ≤ max_number }
    ensures same_reference { tx.new.conn.ghost_name ≡ tx.old.conn.ghost_name }
    ensures inside { Inside S.Store IsAny tx.old.conn.now tx.new.conn.now result }
    ensures version { IfOk result (λ version. version ≤ number) }
    ensures tells { Tells S.Store
        (λ db version. RepliesRow db (version_of tables page) (number_values version))
        (λ db. RepliesElse db (version_of tables page) (IsUpTo number))
        tx.old.conn.now tx.new.conn.now result }
{
    let version = ask_number(tx, tables.version_text(), params![page.get()])?;
    version_up_to(version, number)
}

/// A value as bytes, which have to be so many.
fn bytes_of(value: ValueRef<'_>, count: usize) -> Result<&[u8], ShelfFault>
    ensures count { IfOk result (λ bytes. length bytes.now ≡ count) }
    ensures ok { IfOk result (λ bytes. owned value.entry ≡ Blob bytes.now) }
    ensures err { OnErr result ((bytes : _) → length bytes ≡ count
        → owned value.entry ≢ Blob bytes) }
    ensures fault { OnErr result (result ≡ Err ShelfFault.Shape) }
{
    match value {
        ValueRef::Blob(bytes) => {
            if bytes.len() == count {
                Ok(bytes)
            } else {
                Err(ShelfFault::Shape)
            }
        }
        _ => Err(ShelfFault::Shape),
    }
}

/// The bytes that a row begins with, which have to be so many.
fn first_bytes(row: &Row, count: usize) -> Result<&[u8], ShelfFault>
    ensures count { IfOk result (λ bytes. length bytes.now ≡ count) }
    ensures ok { IfOk result (λ bytes. column row.now 0 ≡ Blob bytes.now) }
    ensures err { OnErr result ((bytes : _) → length bytes ≡ count
        → column row.now 0 ≢ Blob bytes) }
    ensures fault { OnErr result (result ≡ Err ShelfFault.Shape) }
{
    match row.get_ref(0) {
        Ok(value) => bytes_of(value, count),
        Err(_) => Err(ShelfFault::Shape),
    }
}

/// The bytes that were answered, which have to be so many.
fn only_bytes(rows: &[Row], count: usize) -> Result<&[u8], ShelfFault>
    ensures count { IfOk result (λ bytes. length bytes.now ≡ count) }
    ensures ok { IfOk result (λ bytes. IsRow rows.now (Blob bytes.now ∷ [])) }
    ensures err { OnErr result ((values : _) → IsBytes count values → ¬ IsRow rows.now values) }
    ensures fault { OnErr result (result ≡ Err ShelfFault.Shape) }
{
    let row = only(rows)?;
    first_bytes(row, count)
}

/// Adds one part of a page to its bytes.
fn read_part<S: Alter>(
    tx: &mut Transaction<'_, S>,
    tables: Generation,
    page: PageNo,
    place: u32,
    count: usize,
    bytes: &mut Vec<u8>,
) -> Result<(), ShelfFault>
    ensures same_reference { tx.new.conn.ghost_name ≡ tx.old.conn.ghost_name }
    ensures inside { Inside S.Store IsAny tx.old.conn.now tx.new.conn.now result }
    ensures grown { OnOk result (length bytes.new.items ≡ length bytes.old.items + count) }
    ensures tells { Tells S.Store
        (λ db _. (body : _) × (bytes.new.items ≡ bytes.old.items ++ body) × (length body ≡ count)
        × RepliesRow db (part_of tables page place) (Blob body ∷ []))
        (λ db. RepliesElse db (part_of tables page place) (IsBytes count))
        tx.old.conn.now tx.new.conn.now result }
{
    let rows = ask(tx, tables.part_text(), params![page.get(), place])?;
    let body = only_bytes(&rows, count)?;
    bytes.extend_from_slice(body)?;
    Ok(())
}

/// How many bytes the part at a place has, of a page of this size.
fn part_length(size: usize, place: u32) -> usize
    requires { place < part_count size }
    ensures { result ≡ part_length size place }
{
    let from = place as usize * PART;
    if size - from < PART {
        size - from
    } else {
        PART
    }
}

/// Reads the bytes of a page, part by part.
fn read_bytes<S: Alter>(
    alloc: Global,
    tx: &mut Transaction<'_, S>,
    tables: Generation,
    page: PageNo,
    size: usize,
) -> Result<Vec<u8>, ShelfFault>
    requires { size ≤ 65536 }
    ensures same_reference { tx.new.conn.ghost_name ≡ tx.old.conn.ghost_name }
    ensures inside { Inside S.Store IsAny tx.old.conn.now tx.new.conn.now result }
    ensures size { IfOk result (λ bytes. length bytes.items ≡ size) }
    ensures tells { Tells S.Store
        (λ db bytes. HasParts tables db page (part_count size) bytes.items)
        (LacksPart tables page size) tx.old.conn.now tx.new.conn.now result }
{
    let mut bytes = Vec::with_capacity(alloc, size)?;
    for place in 0..part_count(size) as u32 {
        let count = part_length(size, place);
        read_part(tx, tables, page, place, count, &mut bytes)?;
    }
    Ok(bytes)
}

/// Reads one page.
fn read_page<S: Alter>(
    alloc: Global,
    tx: &mut Transaction<'_, S>,
    limits: &Limits,
    tables: Generation,
    number: u64,
    page: PageNo,
) -> Result<StoredPage, ShelfFault>
    requires { number ≤ max_number }
    ensures same_reference { tx.new.conn.ghost_name ≡ tx.old.conn.ghost_name }
    ensures inside { Inside S.Store IsAny tx.old.conn.now tx.new.conn.now result }
    ensures stored { IfOk result (IsStored limits.now.page_size number) }
    ensures tells { Tells S.Store
        (λ db stored. HasPage tables db limits.now.page_size page stored)
        (λ db. HasNoPage tables db limits.now.page_size number page)
        tx.old.conn.now tx.new.conn.now result }
{
    let version = read_version(tx, tables, page, number)?;
    let bytes = read_bytes(alloc, tx, tables, page, limits.page_size())?;
    let bytes = Page::from_vec(bytes);
    Ok(StoredPage { version, bytes })
}

/// Reads all pages.
fn read_pages<S: Alter>(
    alloc: Global,
    tx: &mut Transaction<'_, S>,
    limits: &Limits,
    tables: Generation,
    number: u64,
) -> Result<Vec<StoredPage>, ShelfFault>
    requires { number ≤ max_number }
    ensures same_reference { tx.new.conn.ghost_name ≡ tx.old.conn.ghost_name }
    ensures inside { Inside S.Store IsAny tx.old.conn.now tx.new.conn.now result }
    ensures count { IfOk result (λ pages. length pages.items ≡ limits.now.pages) }
    ensures stored { IfOk result (λ pages. All (IsStored limits.now.page_size number) pages.items) }
    ensures tells { Tells S.Store (λ db pages. HasPages tables db limits.now.page_size pages.items)
        (LacksPage tables limits.now number) tx.old.conn.now tx.new.conn.now result }
{
    let mut pages = Vec::new(alloc);
    for page in 0..limits.pages() {
        let stored = read_page(alloc, tx, limits, tables, number, PageNo::new(page))?;
        pages.push(stored)?;
    }
    Ok(pages)
}

/// Reads the store that the tables hold.
pub(crate) fn read_store<S: Alter>(
    alloc: Global,
    tx: &mut Transaction<'_, S>,
    limits: &Limits,
    tables: Generation,
) -> Result<Store, ShelfFault>
    ensures same_reference { tx.new.conn.ghost_name ≡ tx.old.conn.ghost_name }
    ensures inside { Inside S.Store IsAny tx.old.conn.now tx.new.conn.now result }
    ensures of { IfOk result (IsOf limits.now) }
    ensures tells { Tells S.Store (Holds tables) (Misfits tables limits.now)
        tx.old.conn.now tx.new.conn.now result }
{
    let number = read_mark(tx, limits, tables)?;
    read_counts(tx, limits, tables)?;
    let pages = read_pages(alloc, tx, limits, tables, number)?;
    Ok(Store::from_rows(limits, pages, number))
}

/// Reads the store, in a transaction that is taken back.
pub(crate) fn read_back<S: Alter>(
    alloc: Global,
    conn: &mut Connection<S>,
    limits: &Limits,
) -> Result<Store, ShelfFault>
    ensures of { IfOk result (IsOf limits.now) }
    ensures holds { HasCleanDisk (state S.Store conn.new)
        → IfOk result (Holds newer (state S.Store conn.old).now) }
    ensures shape { HasCleanDisk (state S.Store conn.new) → result ≡ Err ShelfFault.Shape
        → Misfits newer limits.now (state S.Store conn.old).now }
    ensures same { HasCleanDisk (state S.Store conn.new)
        → IsSame (state S.Store conn.old) (state S.Store conn.new) }
    ensures mode { conn.new.in_transaction ≡ conn.old.in_transaction }
    ensures crash { Survives (state S.Store conn.old) (state S.Store conn.new) (λ _. ⊥) }
{
    if !conn.is_autocommit() {
        return Err(ShelfFault::Store);
    }
    let mut tx = conn.transaction();
    let store = read_store(alloc, &mut tx, limits, Generation::Newer);
    tx.rollback();
    store
}
