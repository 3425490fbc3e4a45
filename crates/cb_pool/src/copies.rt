//! The bytes of the pages that are here, which pages are fixed, and how many of both.

ghost use Rattle.std.specs.Prelude.{◌≡◌, ◌<◌, ◌≤◌, ◌↔◌, ◌&&◌, ℕ, List, length, replicate};
ghost use Rattle.std.specs.Prelude.{slice_index_or, slice_set, true, false, Some, None, IfOk};
ghost use Rattle.std.specs.Prelude.{IfSome, IsTrue};
ghost use Rattle.std.specs.Option.{is_some, option_copied};
ghost use Rattle.cb_pool.specs.PoolState.{HasLoose, HasNoneBut, held, let_go};
ghost use Rattle.cb_pool.specs.CopiesState.{CopiesState, IfHere};

use cb_page::{Page, PageNo, PageSet, recount};
use std::alloc::{AllocError, Global};
use std::marker::Model;

/// The pages of a pool.
#[derive(Drop)]
pub(crate) struct Copies {
    pages: Vec<Option<Page>>,
    fixed: PageSet,
    here: usize,
    here_fixed: usize,
}

impl Model for Copies {
    ghost use Rattle.cb_pool.specs.CopiesState.{CopiesState, AreCounted};

    ghost Value = { CopiesState };

    ghost view = { λ copies. record { fixed = copies.fixed; pages = copies.pages.items } };

    ghost invariant = { λ copies. AreCounted copies.pages.items copies.fixed
        copies.here copies.here_fixed };
}

impl Copies {
    /// No page is here, and none is fixed, of as many pages.
    pub(crate) fn new(alloc: Global, count: usize) -> Result<Copies, AllocError>
        requires { count ≤ 4096 }
        ensures { IfOk result (λ copies.
            copies ≡ record { fixed = replicate count false; pages = replicate count None }) }
    {
        let mut pages: Vec<Option<Page>> = Vec::with_capacity(alloc, count)?;
        for _ in 0..count {
            pages.push_reserved(None);
        }
        Ok(Copies {
            pages,
            fixed: PageSet::new(alloc, count)?,
            here: 0,
            here_fixed: 0,
        })
    }

    /// The pages that are fixed.
    pub(crate) fn fixed(&self) -> &PageSet
        ensures { result.now ≡ self.now.fixed }
    {
        &self.fixed
    }

    /// How many pages are here.
    pub(crate) fn count(&self) -> usize
        ensures { result ≡ held self.now.pages }
    {
        self.here
    }

    /// Whether a page that is here isn't fixed.
    pub(crate) fn has_loose(&self) -> bool
        ensures { IsTrue result ↔ HasLoose self.now.pages self.now.fixed }
    {
        self.here_fixed < self.here
    }

    /// Whether a page is here.
    pub(crate) fn has(&self, page: PageNo) -> bool
        ensures { result ≡ is_some (slice_index_or self.now.pages page None) }
    {
        is_here(&self.pages, page)
    }

    /// The bytes of a page that is here.
    pub(crate) fn get(&self, page: PageNo) -> Option<&[u8]>
        ensures { option_copied result ≡ slice_index_or self.now.pages page None }
    {
        match self.pages.get(page.index()) {
            Some(Some(bytes)) => Some(bytes.as_slice()),
            _ => None,
        }
    }

    /// The bytes of a page that is known to be here.
    pub(crate) fn bytes(&self, page: PageNo) -> &[u8]
        requires { IsTrue (is_some (slice_index_or self.now.pages page None)) }
        ensures { Some result.now ≡ slice_index_or self.now.pages page None }
    {
        match &self.pages[page.index()] {
            Some(bytes) => bytes.as_slice(),
            None => unreachable!(),
        }
    }

    /// Puts bytes in the place of a page, or takes them away.
    pub(crate) fn put(&mut self, page: PageNo, bytes: Option<Page>)
        requires { page < length self.old.pages }
        ensures { self.new ≡ record self.old { pages = slice_set self.old.pages page bytes } }
    {
        let was = is_here(&self.pages, page);
        let is = bytes.is_some();
        let is_fixed = self.fixed.contains(page);
        self.here = recount(self.here, was, is);
        self.here_fixed = recount(self.here_fixed, both(was, is_fixed), both(is, is_fixed));
        self.pages[page.index()] = bytes;
    }

    /// Puts bytes in the place of a page, once those of the page let go are taken away.
    pub(crate) fn place(&mut self, page: PageNo, gone: &Option<PageNo>, bytes: Page)
        requires page { page < length self.old.pages }
        requires gone { IfSome gone.now (λ other. other < length self.old.pages) }
        ensures { self.new ≡ record self.old {
          pages = slice_set (let_go gone.now self.old.pages) page (Some bytes);
        } }
    {
        if let Some(other) = gone {
            self.put(*other, None);
        }
        self.put(page, Some(bytes));
    }

    /// Overwrites the bytes of a page that is here.
    pub(crate) fn write(&mut self, page: PageNo, bytes: &[u8])
        requires { IfHere (slice_index_or self.old.pages page None) (length bytes.now) }
        ensures { self.new ≡ record self.old {
          pages = slice_set self.old.pages page (Some bytes.now);
        } }
    {
        write_to(&mut self.pages, page.index(), bytes);
    }

    /// Fixes a page, here or not.
    pub(crate) fn fix(&mut self, page: PageNo)
        requires { page < length self.old.fixed }
        ensures { self.new ≡ record self.old { fixed = slice_set self.old.fixed page true } }
    {
        let here = is_here(&self.pages, page);
        let was = both(here, self.fixed.contains(page));
        self.here_fixed = recount(self.here_fixed, was, here);
        self.fixed.insert(page);
    }

    /// Fixes no page.
    pub(crate) fn unfix_all(&mut self)
        ensures { self.new ≡ record self.old { fixed = replicate (length self.old.fixed) false } }
    {
        self.fixed.clear();
        self.here_fixed = 0;
    }

    /// Takes the bytes of these pages away, which are all that may be here.
    pub(crate) fn clear(&mut self, pages: &PageSet)
        requires within { length pages.now ≤ length self.old.pages }
        requires all { HasNoneBut self.old.pages pages.now }
        ensures { self.new ≡ record self.old { pages = replicate (length self.old.pages) None } }
    {
        take_away(&mut self.pages, pages);
        self.here = 0;
        self.here_fixed = 0;
    }
}

/// Whether a page is here.
fn is_here(pages: &Vec<Option<Page>>, page: PageNo) -> bool
    ensures { result ≡ is_some (slice_index_or pages.now.items page None) }
{
    matches!(pages.get(page.index()), Some(Some(_)))
}

/// Whether both hold.
fn both(a: bool, b: bool) -> bool
    ensures { result ≡ (a && b) }
{
    a && b
}

/// Takes the bytes of these pages away, which are all that may be here.
fn take_away(pages: &mut Vec<Option<Page>>, gone: &PageSet)
    requires within { length gone.now ≤ length pages.old.items }
    requires all { HasNoneBut pages.old.items gone.now }
    ensures { pages.new.items ≡ replicate (length pages.old.items) None }
{
    let mut from = 0;
    while let Some(page) = gone.next(from) {
        pages[page.index()] = None;
        from = page.index() + 1;
    }
}

/// Overwrites the bytes of a page that is here.
fn write_to(pages: &mut Vec<Option<Page>>, page: usize, bytes: &[u8])
    requires { IfHere (slice_index_or pages.old.items page None) (length bytes.now) }
    ensures { pages.new.items ≡ slice_set pages.old.items page (Some bytes.now) }
{
    match &mut pages[page] {
        Some(old) => old.write(bytes),
        None => unreachable!(),
    }
}
