//! The statements that write pages and the number of the last commit.
ghost use Rattle.std.specs.Prelude.{◌≡◌, ◌≢◌, [], ◌∷◌, ◌<◌, ◌↔◌, length, Err, IsTrue};
ghost use Rattle.cb_shelf.specs.Statements.{MakesAll, part_at, part_count, part_statement};
ghost use Rattle.cb_shelf.specs.Statements.{page_statement, page_statements, part_statements};
ghost use Rattle.cb_shelf.specs.Statements.{put_version_text, put_part_text};
ghost use Rattle.cb_shelf.specs.Statements.{pages_statements, mark_statement};
ghost use Rattle.cb_shelf.specs.Inside.{Inside};
ghost use Rattle.cb_shelf.specs.Writing.{Fits};

use crate::ShelfFault;
use crate::step::run;
use cb_commit::{Batch, BatchPage};
use cb_page::{CommitNo, Limits, PageNo, Version};
use sqlite::{Alter, Transaction, params};

/// A page stands in parts of so many bytes; the last one may be shorter.
pub const PART: usize = 4096;

/// Whether a page has its rows in the tables.
#[derive(Clone, Copy, Debug, PartialEq, Eq)]
pub enum PageRows {
    /// It has none: they are put in.
    Absent,
    /// It has each of them: they are set, and none is put in.
    Present,
}

impl PageRows {
    /// Sets the version of a page.
    fn put_version_text(self) -> &'static str
        ensures { result.now ≡ put_version_text self }
    {
        match self {
            PageRows::Absent => "INSERT OR REPLACE INTO page2 (no, version) VALUES (?1, ?2)",
            PageRows::Present => "UPDATE page2 SET version = ?2 WHERE no = ?1",
        }
    }

    /// Sets one part of a page.
    fn put_part_text(self) -> &'static str
        ensures { result.now ≡ put_part_text self }
    {
        match self {
            PageRows::Absent => {
                "INSERT OR REPLACE INTO part (no, place, body) VALUES (?1, ?2, ?3)"
            }
            PageRows::Present => "UPDATE part SET body = ?3 WHERE no = ?1 AND place = ?2",
        }
    }
}

/// How many parts a page of this size has.
pub fn part_count(size: usize) -> usize
    ensures { result ≡ part_count size }
{
    let rest = if size % PART == 0 { 0 } else { 1 };
    size / PART + rest
}

/// The bytes of one part of a page.
fn part(bytes: &[u8], place: usize) -> &[u8]
    requires { place < part_count (length bytes.now) }
    ensures { result.now ≡ part_at bytes.now place }
{
    let from = place * PART;
    let to = if bytes.len() - from < PART {
        bytes.len()
    } else {
        from + PART
    };
    &bytes[from..to]
}

/// Puts one part of a page in its place.
fn put_part<S: Alter>(
    tx: &mut Transaction<'_, S>,
    rows: PageRows,
    page: PageNo,
    bytes: &[u8],
    place: usize,
) -> Result<(), ShelfFault>
    requires { place < part_count (length bytes.now) }
    ensures same_reference { tx.new.conn.ghost_name ≡ tx.old.conn.ghost_name }
    ensures inside { Inside S.Store
        (MakesAll S.Store (part_statement rows page bytes.now place ∷ []))
        tx.old.conn.now tx.new.conn.now result }
    ensures fault { result ≢ Err ShelfFault.Shape }
{
    let body = part(bytes, place);
    run(
        tx,
        rows.put_part_text(),
        params![page.get(), place as i64, body],
    )
}

/// Puts all parts of a page in their places.
fn put_parts<S: Alter>(
    tx: &mut Transaction<'_, S>,
    rows: PageRows,
    page: PageNo,
    bytes: &[u8],
) -> Result<(), ShelfFault>
    ensures same_reference { tx.new.conn.ghost_name ≡ tx.old.conn.ghost_name }
    ensures inside { Inside S.Store
        (MakesAll S.Store (part_statements rows page bytes.now (part_count (length bytes.now))))
        tx.old.conn.now tx.new.conn.now result }
    ensures fault { result ≢ Err ShelfFault.Shape }
{
    for place in 0..part_count(bytes.len()) {
        put_part(tx, rows, page, bytes, place)?;
    }
    Ok(())
}

/// Sets the version of a page.
fn put_version<S: Alter>(
    tx: &mut Transaction<'_, S>,
    rows: PageRows,
    page: PageNo,
    version: Version,
) -> Result<(), ShelfFault>
    ensures same_reference { tx.new.conn.ghost_name ≡ tx.old.conn.ghost_name }
    ensures inside { Inside S.Store (MakesAll S.Store (page_statement rows page version ∷ []))
        tx.old.conn.now tx.new.conn.now result }
    ensures fault { result ≢ Err ShelfFault.Shape }
{
    run(
        tx,
        rows.put_version_text(),
        params![page.get(), version.get() as i64],
    )
}

/// Writes one page: its version, then its parts.
pub fn put_page<S: Alter>(
    tx: &mut Transaction<'_, S>,
    rows: PageRows,
    page: PageNo,
    version: Version,
    bytes: &[u8],
) -> Result<(), ShelfFault>
    ensures same_reference { tx.new.conn.ghost_name ≡ tx.old.conn.ghost_name }
    ensures inside { Inside S.Store (MakesAll S.Store (page_statements rows page version bytes.now))
        tx.old.conn.now tx.new.conn.now result }
    ensures fault { result ≢ Err ShelfFault.Shape }
{
    put_version(tx, rows, page, version)?;
    put_parts(tx, rows, page, bytes)
}

/// Writes the pages of a batch, which have their rows.
pub fn put_pages<S: Alter>(
    tx: &mut Transaction<'_, S>,
    pages: &[BatchPage],
) -> Result<(), ShelfFault>
    ensures same_reference { tx.new.conn.ghost_name ≡ tx.old.conn.ghost_name }
    ensures inside { Inside S.Store (MakesAll S.Store (pages_statements pages.now))
        tx.old.conn.now tx.new.conn.now result }
    ensures fault { result ≢ Err ShelfFault.Shape }
{
    for page in pages {
        put_page(
            tx,
            PageRows::Present,
            page.page,
            page.version,
            page.bytes.as_slice(),
        )?;
    }
    Ok(())
}

/// Sets the number of the last commit.
pub fn put_mark<S: Alter>(tx: &mut Transaction<'_, S>, number: CommitNo) -> Result<(), ShelfFault>
    ensures same_reference { tx.new.conn.ghost_name ≡ tx.old.conn.ghost_name }
    ensures inside { Inside S.Store (MakesAll S.Store (mark_statement number ∷ []))
        tx.old.conn.now tx.new.conn.now result }
    ensures fault { result ≢ Err ShelfFault.Shape }
{
    run(
        tx,
        "UPDATE mark2 SET commits = ?1 WHERE id = 1",
        params![number.get() as i64],
    )
}

/// Whether every page of a batch is one of the store's.
pub fn fits(limits: &Limits, batch: &Batch) -> bool
    ensures { IsTrue result ↔ Fits limits.now batch.now }
{
    batch.pages().iter().all(|page| page.page.get() < limits.pages()
        && page.bytes.len() == limits.page_size())
}
