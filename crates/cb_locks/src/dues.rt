//! What is due of each page.
ghost use Rattle.std.specs.Prelude.{◌≡◌, ℕ, ◌<◌, ◌≤◌, false, true, length, map, count_by};
ghost use Rattle.std.specs.Prelude.{replicate, slice_index_or, slice_set, IfOk, MatchOption};
ghost use Rattle.cb_locks.specs.Dues.{called_by, is_due, noted, nothing_due};

use cb_page::{GrantNo, PageNo, PageSet, TxnNo, recount};
use std::alloc::{AllocError, Global};
use std::marker::Model;

/// A Downgrade that was answered InUse.
#[derive(Clone, Copy)]
pub struct DueDowngrade {
    pub grant: GrantNo,
    /// The transaction that it named.
    pub tag: TxnNo,
}

/// What is due of a page at the transaction's end: its copy, its write permission, both or neither.
#[derive(Clone, Copy)]
pub struct PageDue {
    /// The grant of a Callback that was answered InUse.
    pub callback: Option<GrantNo>,
    pub downgrade: Option<DueDowngrade>,
}

impl PageDue {
    /// Nothing is due.
    pub(crate) const NOTHING: PageDue = PageDue {
        callback: None,
        downgrade: None,
    };

    /// Whether anything is due.
    fn is_due(&self) -> bool
        ensures { result ≡ is_due self.now }
    {
        self.callback.is_some() || self.downgrade.is_some()
    }

    /// The grant to name at the transaction's end, and the tag if the permission alone is due.
    pub(crate) fn called_by(self) -> Option<(GrantNo, Option<TxnNo>)>
        ensures { result ≡ called_by self }
    {
        match (self.callback, self.downgrade) {
            (Some(grant), _) => Some((grant, None)),
            (None, Some(downgrade)) => Some((downgrade.grant, Some(downgrade.tag))),
            (None, None) => None,
        }
    }

    /// This callback is due too: of the permission alone if it has a tag.
    pub(crate) fn noted(self, grant: GrantNo, tag: Option<TxnNo>) -> PageDue
        ensures { result ≡ noted self grant tag }
    {
        match tag {
            None => PageDue {
                callback: Some(grant),
                ..self
            },
            Some(tag) => PageDue {
                downgrade: Some(DueDowngrade { grant, tag }),
                ..self
            },
        }
    }
}

/// What is due of each page, and of which pages anything is. Only `new` takes memory.
#[derive(Drop)]
pub(crate) struct Dues {
    entries: Vec<PageDue>,
    pages: PageSet,
    count: usize,
}

impl Model for Dues {
    ghost use Rattle.std.specs.Prelude.{List};
    ghost use Rattle.cb_locks.specs.declared.dues.PageDue.{PageDue};

    ghost Value = { List PageDue };

    ghost use Rattle.cb_locks.specs.Dues.{AreCounted};

    ghost view = { λ d. d.entries.items };

    ghost invariant = { λ d. AreCounted d.entries.items d.pages d.count };
}

impl Dues {
    /// Nothing is due of any page.
    #[tactic(auto, using(crate::proofs::Counted::counted_none))]
    pub(crate) fn new(alloc: Global, pages: usize) -> Result<Dues, AllocError>
        requires { pages ≤ 4096 }
        ensures { IfOk result (λ dues. dues ≡ replicate pages nothing_due) }
    {
        Ok(Dues {
            entries: vec![in alloc; PageDue::NOTHING; pages]?,
            pages: PageSet::new(alloc, pages)?,
            count: 0,
        })
    }

    /// The pages of which something is due.
    pub(crate) fn pages(&self) -> &PageSet
        ensures { result.now ≡ map is_due self.now }
    {
        &self.pages
    }

    /// How many there are.
    pub(crate) fn count(&self) -> usize
        ensures { result ≡ count_by is_due self.now }
    {
        self.count
    }

    /// The least page of which something is due, at or after a place.
    pub(crate) fn next(&self, from: usize) -> Option<PageNo>
        ensures { MatchOption result
            ((other : ℕ) → from ≤ other → slice_index_or self.now other nothing_due ≡ nothing_due)
            (λ page. (from ≤ page) × (page < length self.now)
            × (is_due (slice_index_or self.now page nothing_due) ≡ true)
            × ((other : ℕ) → from ≤ other → other < page
            → slice_index_or self.now other nothing_due ≡ nothing_due)) }
    {
        self.pages.next(from)
    }

    /// What is due of a page.
    pub(crate) fn at(&self, page: PageNo) -> PageDue
        requires { page < length self.now }
        ensures { result ≡ slice_index_or self.now page nothing_due }
    {
        self.entries[page.index()]
    }

    /// Puts what is due of a page.
    #[tactic(auto, using(crate::proofs::Counted::some_due, crate::proofs::Counted::at_most))]
    pub(crate) fn put(&mut self, page: PageNo, due: PageDue)
        requires { page < length self.old }
        ensures { self.new ≡ slice_set self.old page due }
    {
        let was = self.at(page).is_due();
        let is = due.is_due();
        self.count = recount(self.count, was, is);
        self.pages.put(page, is);
        self.entries[page.index()] = due;
    }

    /// Nothing is due of any page. It costs the pages of which something was, and what [`PageSet`]
    /// says of a walk.
    pub(crate) fn clear(&mut self)
        ensures { self.new ≡ replicate (length self.old) nothing_due }
    {
        let mut from = 0;
        while let Some(page) = self.next(from) {
            self.put(page, PageDue::NOTHING);
            from = page.index() + 1;
        }
    }
}
