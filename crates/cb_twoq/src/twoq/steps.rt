//! Steps on a set of pages, whose oldest page is first, and on a cache of pages, whose newest is
//! first.

ghost use Rattle.std.specs.Prelude.{◌≡◌, ◌<◌, ◌≤◌, ◌+◌, ◌∷◌, length, take, reverse, false, IfOk};
ghost use Rattle.std.specs.Prelude.{OnOk, OnErr, IsOk};
ghost use Rattle.indexmap.specs.IndexSet.{spare};
ghost use Rattle.cb_twoq.specs.Pages.{has, without};
ghost use Rattle.cb_twoq.specs.Queues.{oldest_unfixed};
ghost use Rattle.cb_twoq.specs.Indexed.{newest_first, cached, renewed};

use crate::page_hash::PageCache;
use cb_page::{PageNo, PageSet};
use indexmap::IndexSet;
use std::alloc::{AllocError, Global};

/// Whether a page is in a set.
pub(crate) fn is_in(pages: &IndexSet<PageNo>, page: PageNo) -> bool
    ensures { result ≡ has (newest_first pages.now) page }
{
    pages.contains(&page)
}

/// Puts a page into a set as its newest.
pub(crate) fn add(pages: &mut IndexSet<PageNo>, page: PageNo) -> Result<(), AllocError>
    requires { has (newest_first pages.old) page ≡ false }
    ensures ok { OnOk result (newest_first pages.new ≡ page ∷ newest_first pages.old) }
    ensures err { OnErr result (newest_first pages.new ≡ newest_first pages.old) }
    ensures succeeds { 0 < spare pages.old → IsOk result }
{
    match pages.insert(page) {
        Ok(_) => Ok(()),
        Err(_) => Err(AllocError),
    }
}

/// Takes a page out of a set.
pub(crate) fn take_off(pages: &mut IndexSet<PageNo>, page: PageNo)
    ensures pages { newest_first pages.new ≡ without page (newest_first pages.old) }
    ensures room { spare pages.old ≤ spare pages.new }
{
    pages.shift_remove(&page);
}

/// Puts a page into a set as its newest, and drops the oldest beyond a length. There is room.
pub(crate) fn remember(pages: &mut IndexSet<PageNo>, page: PageNo, most: usize)
    requires room { 0 < spare pages.old }
    requires out { has (newest_first pages.old) page ≡ false }
    requires within { length (newest_first pages.old) ≤ most }
    ensures { newest_first pages.new ≡ take most (page ∷ newest_first pages.old) }
{
    // There is room, so it is not refused.
    let _added = add(pages, page);
    if pages.len() > most {
        pages.shift_remove_index(0);
    }
}

/// The oldest page of a set that isn't fixed.
pub(crate) fn first_unfixed(pages: &[PageNo], fixed: &PageSet) -> Option<PageNo>
    ensures { result ≡ oldest_unfixed fixed.now (reverse pages.now) }
{
    for i in 0..pages.len() {
        let page = pages[i];
        let is_fixed = fixed.contains(page);
        if !is_fixed {
            return Some(page);
        }
    }
    None
}

/// Moves a page of a cache to its head, if it is there.
///
/// It stays a call of its own, so that a reference to a page of A1in is short.
#[inline(never)]
pub(crate) fn renew(cache: &mut PageCache, page: PageNo)
    ensures pages { cached cache.new ≡ renewed page (cached cache.old) }
    ensures cap { cache.new.cap ≡ cache.old.cap }
{
    cache.promote(&page);
}

/// Puts a page at the head of a cache that has room for it.
pub(crate) fn put(cache: &mut PageCache, page: PageNo) -> Result<(), AllocError>
    requires out { has (cached cache.old) page ≡ false }
    requires room { length (cached cache.old) < cache.old.cap }
    ensures ok { OnOk result (cached cache.new ≡ page ∷ cached cache.old) }
    ensures err { OnErr result (cached cache.new ≡ cached cache.old) }
    ensures cap { cache.new.cap ≡ cache.old.cap }
{
    match cache.put(page, ()) {
        Ok(_) => Ok(()),
        Err(_) => Err(AllocError),
    }
}

/// Takes a page out of a cache.
pub(crate) fn pop(cache: &mut PageCache, page: PageNo)
    ensures pages { cached cache.new ≡ without page (cached cache.old) }
    ensures cap { cache.new.cap ≡ cache.old.cap }
{
    cache.pop(&page);
}

/// The oldest page of a cache that isn't fixed.
pub(crate) fn last_unfixed(cache: &PageCache, fixed: &PageSet) -> Option<PageNo>
    ensures { result ≡ oldest_unfixed fixed.now (cached cache.now) }
{
    let mut rest = cache.iter();
    while let Some((page, _)) = rest.next_back() {
        let is_fixed = fixed.contains(*page);
        if !is_fixed {
            return Some(*page);
        }
    }
    None
}

/// A copy of a set's pages, newest first.
pub(crate) fn reversed(alloc: Global, pages: &[PageNo]) -> Result<Vec<PageNo>, AllocError>
    ensures { IfOk result (λ copy. copy.items ≡ reverse pages.now) }
{
    let mut copy = pages.to_vec(alloc)?;
    copy.reverse();
    Ok(copy)
}

/// A copy of a cache's pages, newest first.
pub(crate) fn copied(alloc: Global, cache: &PageCache) -> Result<Vec<PageNo>, AllocError>
    ensures { IfOk result (λ copy. copy.items ≡ cached cache.now) }
{
    let mut copy = Vec::with_capacity(alloc, cache.len())?;
    let mut rest = cache.iter();
    while let Some((page, _)) = rest.next() {
        copy.push(*page)?;
    }
    Ok(copy)
}
