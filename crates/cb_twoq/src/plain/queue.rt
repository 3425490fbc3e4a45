//! Steps on one list of pages, whose newest page is first.

ghost use Rattle.std.specs.Prelude.{◌≡◌, ◌≤◌, ◌+◌, ◌∷◌, length, take, true, false, IsTrue, IfOk};
ghost use Rattle.std.specs.Prelude.{MatchOption};
ghost use Rattle.std.specs.VecDeque.{deque_capacity};
ghost use Rattle.cb_twoq.specs.Pages.{has, without, IsPlace};
ghost use Rattle.cb_twoq.specs.Queues.{oldest_unfixed};

use cb_page::{PageNo, PageSet};
use std::alloc::{AllocError, Global};
use std::collections::VecDeque;

/// Whether a page is on a list.
pub fn is_on(pages: &VecDeque<PageNo>, page: PageNo) -> bool
    ensures { result ≡ has pages.now.items page }
{
    pages.contains(&page)
}

/// Where a page is on a list.
fn place_on(pages: &VecDeque<PageNo>, page: PageNo) -> Option<usize>
    ensures { MatchOption result (has pages.now.items page ≡ false) (IsPlace pages.now.items page) }
{
    for i in 0..pages.len() {
        if pages[i] == page {
            return Some(i);
        }
    }
    None
}

/// Takes a page off a list, and says whether it was there.
pub fn take_off(pages: &mut VecDeque<PageNo>, page: PageNo) -> bool
    ensures there { result ≡ has pages.old.items page }
    ensures items { pages.new.items ≡ without page pages.old.items }
    ensures shorter { IsTrue result → length pages.new.items + 1 ≡ length pages.old.items }
    ensures absent { result ≡ false → pages.new.items ≡ pages.old.items }
    ensures capacity { deque_capacity pages.new ≡ deque_capacity pages.old }
{
    match place_on(pages, page) {
        Some(i) => {
            pages.remove(i);
            true
        }
        None => false,
    }
}

/// Puts a page at the head of a list, whose tail is dropped beyond a length.
pub(crate) fn remember(pages: &mut VecDeque<PageNo>, page: PageNo, most: usize)
    requires { most ≤ deque_capacity pages.old }
    ensures items { pages.new.items ≡ take most (page ∷ pages.old.items) }
    ensures capacity { deque_capacity pages.new ≡ deque_capacity pages.old }
{
    if most == 0 {
        pages.clear();
    } else {
        pages.truncate(most - 1);
        pages.push_front_reserved(page);
    }
}

/// The oldest page of a list that isn't fixed.
pub fn oldest_unfixed(pages: &VecDeque<PageNo>, fixed: &PageSet) -> Option<PageNo>
    ensures { result ≡ oldest_unfixed fixed.now pages.now.items }
{
    let mut i = pages.len();
    while i > 0 {
        i -= 1;
        let page = pages[i];
        let is_fixed = fixed.contains(page);
        if !is_fixed {
            return Some(page);
        }
    }
    None
}

/// A copy of a list.
pub(crate) fn copied(alloc: Global, pages: &VecDeque<PageNo>) -> Result<Vec<PageNo>, AllocError>
    ensures { IfOk result (λ v. v.items ≡ pages.now.items) }
{
    let mut copy = Vec::with_capacity(alloc, pages.len())?;
    for i in 0..pages.len() {
        copy.push_reserved(pages[i]);
    }
    Ok(copy)
}
