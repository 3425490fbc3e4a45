//! What becomes of the pages that a transaction wrote as it ends.
ghost use Rattle.std.specs.Prelude.{◌≡◌, ◌≤◌, length};
ghost use Rattle.cb_cache.specs.Rows.{Dropped, Written};
ghost use Rattle.cb_cache.specs.CacheState.{Emptied};

use crate::table::{CopyTable, PageCopy};
use cb_page::{CommitNo, PageNo, PageSet, Version};
use cb_pool::Pool;
use cb_twoq::Chooser;

/// Drops the copies of these pages.
pub(crate) fn drop_copies<Q: Chooser>(table: &mut CopyTable, pool: &mut Pool<Q>, pages: &PageSet)
    requires rows { length pages.now ≤ length table.old }
    requires fixed { length pages.now ≤ length pool.old.fixed }
    ensures rows { Dropped table.old pages.now table.new }
    ensures pool { Emptied pool.old pages.now pool.new }
{
    let mut from = 0;
    while let Some(page) = pages.next(from) {
        let copy = table.at(page);
        table.put(page, PageCopy { held: None, ..copy });
        pool.remove(page);
        from = page.index() + 1;
    }
}

/// Gives the copies of these pages that commit as their version.
pub(crate) fn set_versions(table: &mut CopyTable, pages: &PageSet, number: CommitNo)
    requires { length pages.now ≤ length table.old }
    ensures { Written table.old pages.now number table.new }
{
    let version = Version::new(number.get());
    let mut from = 0;
    while let Some(page) = pages.next(from) {
        let copy = table.at(page);
        table.put(page, PageCopy { version, ..copy });
        from = page.index() + 1;
    }
}
