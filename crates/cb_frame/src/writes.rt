//! The pages that a commit writes.
ghost use Rattle.std.specs.Prelude.{◌≡◌, ◌∷◌, [], ◌++◌, length, map, IfOk, IsTrue, ◌↔◌, OnOk, OnErr};
ghost use Rattle.std.specs.List.{AllByRecursion};
ghost use Rattle.cb_page.specs.Rising.{IsRising};
ghost use Rattle.cb_frame.specs.Grammar.{WriteFits, page_of};

use cb_page::{GrantNo, Limits, Page, PageNo};
use std::alloc::{AllocError, Global};
use std::marker::Model;

/// A page that a commit writes.
#[derive(Debug, Drop)]
pub struct Write {
    pub page: PageNo,
    /// The grant by which the client has the page.
    pub grant: GrantNo,
    pub bytes: Page,
}

/// The pages that a commit writes, in the order of the frame. In contracts they are a list.
#[derive(Debug)]
pub struct Writes {
    items: Vec<Write>,
}

// By hand: see docs/PROVING.md, "Drops".
impl Drop for Writes {
    fn drop(self) {
        let Writes { items: _ } = self;
    }
}

impl Model for Writes {
    ghost use Rattle.std.specs.Prelude.{List};
    ghost use Rattle.cb_frame.specs.declared.writes.Write.{Write};

    ghost Value = { List Write };

    ghost view = { λ a. a.items.items };
}

impl Writes {
    /// A copy of these pages. `AllocError` only if memory was refused.
    pub fn copy_of(alloc: Global, writes: &[Write]) -> Result<Writes, AllocError>
        ensures { IfOk result (λ copy. copy ≡ writes.now) }
    {
        let mut items = Vec::with_capacity(alloc, writes.len())?;
        for write in writes {
            items.push(Write {
                page: write.page,
                grant: write.grant,
                bytes: Page::copy_of(alloc, write.bytes.as_slice())?,
            })?;
        }
        Ok(Writes { items })
    }

    /// Makes the list of these pages, which aren't copied.
    pub fn from_vec(items: Vec<Write>) -> Writes
        ensures { result ≡ items.items }
    {
        Writes { items }
    }

    /// The pages, which are not copied.
    pub fn into_vec(self) -> Vec<Write>
        ensures { result.items ≡ self }
    {
        let Writes { items } = self;
        items
    }

    /// Appends a page. It is refused only if memory is.
    pub fn push(&mut self, write: Write) -> Result<(), AllocError>
        ensures ok { OnOk result (self.new ≡ self.old ++ write ∷ []) }
        ensures err { OnErr result (self.new ≡ self.old) }
    {
        self.items.push(write)?;
        Ok(())
    }

    /// The pages.
    pub fn as_slice(&self) -> &[Write]
        ensures { result.now ≡ self.now }
    {
        self.items.as_slice()
    }

    /// How many pages there are.
    pub fn len(&self) -> usize
        ensures { result ≡ length self.now }
    {
        self.items.len()
    }

    pub(crate) fn fit(&self, limits: &Limits) -> bool
        ensures { IsTrue result ↔
            (AllByRecursion (WriteFits limits.now) self.now × IsRising (map page_of self.now)) }
    {
        all_fit(limits, self.as_slice()) && rise(self.as_slice())
    }
}

/// The law of these calls: writes are the list that they were made of, and as long.
fn law(items: Vec<Write>) -> (usize, usize, Vec<Write>)
    ensures len { result.0 ≡ length items.items }
    ensures shown { result.1 ≡ length items.items }
    ensures items { result.2.items ≡ items.items }
{
    let writes = Writes::from_vec(items);
    let shown = writes.as_slice().len();
    (writes.len(), shown, writes.into_vec())
}

fn fits(limits: &Limits, write: &Write) -> bool
    ensures { IsTrue result ↔ WriteFits limits.now write.now }
{
    // In range by its type: `get` says so.
    let _known = write.grant.get();
    limits.has_page(write.page.get()) && write.bytes.len() == limits.page_size()
}

fn rise(writes: &[Write]) -> bool
    ensures { IsTrue result ↔ IsRising (map page_of writes.now) }
{
    let mut least = 0;
    for write in writes {
        let page = write.page.get();
        if page < least {
            return false;
        }
        least = page + 1;
    }
    true
}

fn all_fit(limits: &Limits, writes: &[Write]) -> bool
    ensures { IsTrue result ↔ AllByRecursion (WriteFits limits.now) writes.now }
{
    for write in writes {
        if !fits(limits, write) {
            return false;
        }
    }
    true
}
