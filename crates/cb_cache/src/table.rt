//! What is kept of each page beside its bytes.
ghost use Rattle.std.specs.Prelude.{◌≡◌, ◌<◌, ◌≤◌, length, map, max, replicate, slice_set};
ghost use Rattle.std.specs.Prelude.{unwrap_or, IfOk};
ghost use Rattle.cb_cache.specs.Rows.{is_known, no_copy, row_at};

use cb_page::{GrantNo, PageNo, PageSet, TxnNo, Version};
use std::alloc::{AllocError, Global};
use std::marker::Model;

/// What a client knows of a page beside its bytes.
#[derive(Clone, Copy)]
pub struct PageCopy {
    /// The greatest grant that ever came for the page.
    pub seen: Option<GrantNo>,
    /// The grant of the copy that is held.
    pub held: Option<GrantNo>,
    /// The version of the copy held; if none is, that of the last one.
    pub version: Version,
    /// The transaction that was last permitted to write the page.
    pub tag: Option<TxnNo>,
}

impl PageCopy {
    /// Whether anything is known of the page.
    fn is_known(&self) -> bool
        ensures { result ≡ is_known self.now }
    {
        self.seen.is_some() || self.held.is_some() || self.tag.is_some() || self.version.get() > 0
    }

    /// No grant ever came.
    fn clear(&mut self)
        ensures { self.new ≡ no_copy }
    {
        self.seen = None;
        self.held = None;
        self.version = Version::new(0);
        self.tag = None;
    }
}

/// The greater of a grant and the greatest that came before it.
pub(crate) fn greatest_grant(seen: Option<GrantNo>, grant: GrantNo) -> GrantNo
    ensures { result ≡ max (unwrap_or seen 0) grant }
{
    match seen {
        Some(before) if grant < before => before,
        _ => grant,
    }
}

/// What is known of each page. Only `new` takes memory.
#[derive(Drop)]
pub(crate) struct CopyTable {
    rows: Vec<PageCopy>,
    /// The pages of which anything is known.
    known: PageSet,
}

impl Model for CopyTable {
    ghost use Rattle.std.specs.Prelude.{◌≡◌, List, map};
    ghost use Rattle.cb_cache.specs.Rows.{is_known};
    ghost use Rattle.cb_cache.specs.declared.table.PageCopy.{PageCopy};

    ghost Value = { List PageCopy };

    ghost view = { λ table. table.rows.items };

    ghost invariant = { λ table. table.known ≡ map is_known table.rows.items };
}

impl CopyTable {
    /// No grant ever came for any of so many pages.
    #[tactic(auto, using(crate::proofs::Known::known_none))]
    pub(crate) fn new(alloc: Global, pages: usize) -> Result<CopyTable, AllocError>
        requires { pages ≤ 4096 }
        ensures { IfOk result (λ table. table ≡ replicate pages no_copy) }
    {
        let nothing = PageCopy {
            seen: None,
            held: None,
            version: Version::new(0),
            tag: None,
        };
        Ok(CopyTable {
            rows: vec![in alloc; nothing; pages]?,
            known: PageSet::new(alloc, pages)?,
        })
    }

    /// The pages of which anything is known.
    pub(crate) fn known(&self) -> &PageSet
        ensures { result.now ≡ map is_known self.now }
    {
        &self.known
    }

    /// What is known of a page.
    pub(crate) fn at(&self, page: PageNo) -> PageCopy
        requires { page < length self.now }
        ensures { result ≡ row_at self.now page }
    {
        self.rows[page.index()]
    }

    /// Puts what is known of a page.
    #[tactic(auto, using(crate::proofs::Known::known_put))]
    pub(crate) fn put(&mut self, page: PageNo, copy: PageCopy)
        requires { page < length self.old }
        ensures { self.new ≡ slice_set self.old page copy }
    {
        self.known.put(page, copy.is_known());
        self.rows[page.index()] = copy;
    }

    /// No grant ever came for any page. It costs the pages of which anything is known, and what
    /// [`PageSet`] says of a walk.
    pub(crate) fn clear(&mut self)
        ensures { self.new ≡ replicate (length self.old) no_copy }
    {
        clear_rows(&mut self.rows, &self.known);
        self.known.clear();
    }
}

/// Clears the rows of these pages, which are those of which anything is known.
#[tactic(auto, using(crate::proofs::Known::not_known, crate::proofs::Known::known_long))]
fn clear_rows(rows: &mut Vec<PageCopy>, known: &PageSet)
    requires { known.now ≡ map is_known rows.old.items }
    ensures { rows.new.items ≡ replicate (length rows.old.items) no_copy }
{
    let mut from = 0;
    while let Some(page) = known.next(from) {
        rows[page.index()].clear();
        from = page.index() + 1;
    }
}
