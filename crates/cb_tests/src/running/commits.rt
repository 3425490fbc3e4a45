//! What a shelf holds.
ghost use Rattle.cb_commit.specs.Stores.{IsOf};

use cb_commit::Store;
use cb_page::{Limits, PageNo};
use cb_shelf::Shelf;
use sqlite::Alter;
use std::alloc::Global;

/// The version of a page and the byte that fills it.
pub(crate) type Row = (u64, u8);

/// Whether a store has this page.
fn has_row(store: &Store, limits: &Limits, at: usize, row: Row) -> bool
    requires { IsOf limits.now store.now }
{
    match PageNo::in_store(limits, at as u64) {
        Some(page) => {
            store.version(page).get() == row.0
                && store.bytes(page).iter().all(|byte| *byte == row.1)
        }
        None => false,
    }
}

/// Whether a store has this number and these pages.
pub(crate) fn is_store(store: &Store, limits: &Limits, number: u64, rows: &[Row]) -> bool
    requires { IsOf limits.now store.now }
{
    if store.number() != number || rows.len() != limits.pages() as usize {
        return false;
    }
    for (at, row) in rows.iter().enumerate() {
        if !has_row(store, limits, at, *row) {
            return false;
        }
    }
    true
}

/// Whether the tables hold a store of this number and these pages.
pub(crate) fn holds<S: Alter>(
    alloc: Global,
    limits: &Limits,
    shelf: &mut Shelf<S>,
    number: u64,
    rows: &[Row],
) -> bool {
    match shelf.load(alloc) {
        Ok(store) => store.is_of(limits) && is_store(&store, limits, number, rows),
        Err(_) => false,
    }
}
