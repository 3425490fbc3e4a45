ghost use Rattle.std.specs.Prelude.{◌≡◌, ℕ, ◌+◌, ◌<◌, ◌≤◌, ◌↔◌, length, replicate, slice_index_or};
ghost use Rattle.std.specs.Prelude.{IfOk, IsTrue};
ghost use Rattle.std.specs.List.{All};
ghost use Rattle.cb_page.specs.Numbers.{max_number};
ghost use Rattle.cb_commit.specs.Stores.{IsSound, IsStored, IsOf, zeros, zero_page, no_page};
ghost use Rattle.cb_commit.specs.Stores.{version_at, bytes_at};
ghost use Rattle.cb_commit.specs.History.{WritesInto, rewritten};

use cb_frame::Write;
use cb_page::{CommitNo, Limits, Page, PageNo, Version};
use std::alloc::{AllocError, Global};
use std::marker::Model;

/// A page and the number of the commit that wrote it last.
#[derive(Drop)]
pub struct StoredPage {
    /// 0 if no commit has written the page.
    pub version: Version,
    pub bytes: Page,
}

impl From<(Version, Page)> for StoredPage {
    ghost from_gives = { λ pair page. page ≡ record { version = pair.0; bytes = pair.1 } };

    fn from(pair: (Version, Page)) -> StoredPage {
        let (version, bytes) = pair;
        StoredPage { version, bytes }
    }
}

/// A fixed number of pages of one size, each with its version.
///
/// No version is above the number of the last commit in the store.
pub struct Store {
    page_size: usize,
    pages: Vec<StoredPage>,
    number: u64,
}

// By hand: see docs/PROVING.md, "Drops".
impl Drop for Store {
    fn drop(self) {
        let Store {
            page_size: _,
            pages: _,
            number: _,
        } = self;
    }
}

impl Model for Store {
    ghost use Rattle.cb_commit.specs.Stores.{StoreState, IsSound};

    ghost Value = { StoreState };

    ghost view = { λ s. record {
      page_size = s.page_size;
      pages = s.pages.items;
      number = s.number;
    } };

    ghost invariant = { λ s. IsSound (record {
      page_size = s.page_size;
      pages = s.pages.items;
      number = s.number;
    }) };
}

impl Store {
    /// A store of these limits before any commit: every byte 0, every version 0.
    ///
    /// `AllocError` only if memory was refused.
    pub fn zeros(alloc: Global, limits: &Limits) -> Result<Store, AllocError>
        ensures { IfOk result (λ store. store ≡ zeros limits.now) }
    {
        let page_size = limits.page_size();
        Ok(Store {
            page_size,
            pages: zero_pages(alloc, limits.pages() as usize, page_size)?,
            number: 0,
        })
    }

    /// The store of these limits with these pages, in the order of their numbers, and this last
    /// commit. The pages are not copied.
    pub fn from_rows(limits: &Limits, pages: Vec<StoredPage>, number: u64) -> Store
        requires count { length pages.items ≡ limits.now.pages }
        requires pages { All (IsStored limits.now.page_size number) pages.items }
        requires number { number ≤ max_number }
        ensures { result ≡ record {
          page_size = limits.now.page_size;
          pages = pages.items;
          number = number;
        } }
    {
        Store {
            page_size: limits.page_size(),
            pages,
            number,
        }
    }

    /// A copy of the store. `AllocError` only if memory was refused.
    pub fn copy(&self, alloc: Global) -> Result<Store, AllocError>
        ensures { IfOk result (λ store. store ≡ self.now) }
    {
        Ok(Store {
            page_size: self.page_size,
            pages: copy_pages(alloc, &self.pages)?,
            number: self.number,
        })
    }

    /// Whether the store has the limits' count of pages, of the limits' size.
    pub fn is_of(&self, limits: &Limits) -> bool
        ensures { IsTrue result ↔ IsOf limits.now self.now }
    {
        self.pages.len() == limits.pages() as usize && self.page_size == limits.page_size()
    }

    /// How many pages the store has.
    pub fn page_count(&self) -> usize
        ensures value { result ≡ length self.now.pages }
        ensures sound { IsSound self.now }
    {
        self.pages.len()
    }

    /// The number of the last commit in the store, 0 before the first.
    pub fn number(&self) -> u64
        ensures value { result ≡ self.now.number }
        ensures sound { IsSound self.now }
    {
        self.number
    }

    /// The number of the commit that wrote the page last; 0 if none did.
    pub fn version(&self, page: PageNo) -> Version
        requires { page < length self.now.pages }
        ensures value { result ≡ version_at self.now page }
        ensures sound { IsSound self.now }
    {
        self.pages[page.index()].version
    }

    /// The bytes of a page.
    pub fn bytes(&self, page: PageNo) -> &[u8]
        requires { page < length self.now.pages }
        ensures value { result.now ≡ bytes_at self.now page }
        ensures sound { IsSound self.now }
        ensures size { length result.now ≡ self.now.page_size }
    {
        self.pages[page.index()].bytes.as_slice()
    }

    /// Writes the pages of the next commit. It takes no memory.
    #[tactic(auto, using(crate::proofs::Rewriting::stored_later))]
    pub(crate) fn write(&mut self, number: CommitNo, writes: &[Write])
        requires next { number ≡ self.old.number + 1 }
        requires fit { All (WritesInto self.old) writes.now }
        ensures { self.new ≡ record self.old {
          pages = rewritten number self.old.pages writes.now;
          number = number;
        } }
    {
        for write in writes {
            let stored = &mut self.pages[write.page.index()];
            stored.version = number.version();
            stored.bytes.write(write.bytes.as_slice());
        }
        self.number = number.get();
    }
}

/// A copy of each page.
fn copy_pages(alloc: Global, pages: &[StoredPage]) -> Result<Vec<StoredPage>, AllocError>
    ensures { IfOk result (λ copies. copies.items ≡ pages.now) }
{
    let mut copies = Vec::with_capacity(alloc, pages.len())?;
    for page in pages {
        copies.push(StoredPage {
            version: page.version,
            bytes: Page::copy_of(alloc, page.bytes.as_slice())?,
        })?;
    }
    Ok(copies)
}

/// That many pages of zeros.
fn zero_pages(alloc: Global, count: usize, page_size: usize) -> Result<Vec<StoredPage>, AllocError>
    ensures { IfOk result (λ pages. pages.items ≡ replicate count (zero_page page_size)) }
{
    let mut pages = Vec::with_capacity(alloc, count)?;
    for _ in 0..count {
        let bytes = Page::zeros(alloc, page_size)?;
        pages.push(StoredPage {
            version: Version::new(0),
            bytes,
        })?;
    }
    Ok(pages)
}

/// What the calls that only read show of a store of these rows. The function does nothing; its
/// contract is this law.
fn shows(
    limits: &Limits,
    pages: Vec<StoredPage>,
    number: u64,
    page: PageNo,
) -> (u64, Version, usize)
    requires count { length pages.items ≡ limits.now.pages }
    requires pages { All (IsStored limits.now.page_size number) pages.items }
    requires number { number ≤ max_number }
    requires page { page < limits.now.pages }
    ensures number { result.0 ≡ number }
    ensures version { result.1 ≡ (slice_index_or pages.items page no_page).version }
    ensures bytes { result.2 ≡ limits.now.page_size }
{
    let store = Store::from_rows(limits, pages, number);
    (store.number(), store.version(page), store.bytes(page).len())
}
