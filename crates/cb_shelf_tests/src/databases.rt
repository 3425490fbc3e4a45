//! Databases whose files lie on disks of the tests.

use sqlite::{Alter, Connection, FileStore, Files, Options};
use sqlite_disk::{Disk, Memory};
use std::alloc::Global;

/// Opens the database, or gives the files back.
pub fn connect<D: Disk + Drop>(
    alloc: Global,
    files: Files<D>,
    options: Options,
) -> Result<Connection<FileStore<D>>, Files<D>> {
    if !files.may_be_used() {
        return Err(files);
    }
    match Connection::open_files(alloc, files, options) {
        Ok(conn) => Ok(conn),
        Err((_, left)) => Err(left.into_files()),
    }
}

/// The store of a connection. It has no clause: of a store over files the prover takes half a
/// minute for those of `into_store`.
fn store_of<S: Alter + Drop>(conn: Connection<S>) -> S {
    conn.into_store()
}

/// The files of a connection.
pub fn files_of<D: Disk + Drop>(conn: Connection<FileStore<D>>) -> Files<D> {
    store_of(conn).close()
}

/// How a database begins that SQLite made, with a log and pages of 1,024 bytes, and without tables.
/// Zeros follow to the end of its page.
const BEGINNING: [u8; 108] = [
    83, 81, 76, 105, 116, 101, 32, 102, 111, 114, 109, 97, 116, 32, 51, 0, 4, 0, 2, 2, 0, 64, 32,
    32, 0, 0, 0, 2, 0, 0, 0, 1, 0, 0, 0, 0, 0, 0, 0, 0, 0, 0, 0, 3, 0, 0, 0, 0, 0, 0, 0, 0, 0, 0,
    0, 0, 0, 0, 0, 1, 0, 0, 0, 0, 0, 0, 0, 0, 0, 0, 0, 0, 0, 0, 0, 0, 0, 0, 0, 0, 0, 0, 0, 0, 0, 0,
    0, 0, 0, 0, 0, 0, 0, 0, 0, 2, 0, 46, 99, 1, 13, 0, 0, 0, 0, 4, 0, 0,
];

/// A disk with these bytes, which are synced. None where memory is refused.
pub(crate) fn disk_of(alloc: Global, bytes: &[u8]) -> Option<Memory> {
    let mut disk = Memory::new(alloc);
    let is_made = disk.write_at(0, bytes).is_ok() && disk.sync().is_ok();
    is_made.then_some(disk)
}

/// A disk with a database of small pages, which tests get through faster: without proofs most of
/// their time goes to the bytes of pages. It is empty where memory is refused.
pub fn small_database(alloc: Global) -> Memory {
    let mut page = [0u8; 1_024];
    page[..BEGINNING.len()].copy_from_slice(&BEGINNING);
    disk_of(alloc, &page).unwrap_or_else(|| Memory::new(alloc))
}
