//! In-use marks.
ghost use Rattle.std.specs.Prelude.{◌≡◌, ℕ, ◌≤◌, false, true, length, replicate, IfOk};
ghost use Rattle.cb_page.specs.Clients.{has};
ghost use Rattle.cb_protocol.specs.Server.{set_in_use, without_marks};
ghost use Rattle.cb_asks.specs.Marks.{HasClient, HasMarks, HasPage, is_in_use};

use cb_page::{ClientNo, ClientSet, Limits, PageNo, PageSet};
use std::alloc::{AllocError, Global};
use std::marker::Model;

/// Which clients said, when a page was called back, that their transaction uses the page. Only
/// `new` takes memory.
pub struct Marks {
    by_client: Vec<PageSet>,
    by_page: Vec<ClientSet>,
}

// By hand: see docs/PROVING.md, "Drops".
impl Drop for Marks {
    fn drop(self) {
        let Marks {
            by_client: _,
            by_page: _,
        } = self;
    }
}

impl Model for Marks {
    ghost use Rattle.cb_asks.specs.Marks.{IsMarks, MarksState};

    ghost Value = { MarksState };

    ghost view = { λ m. record { by_client = m.by_client.items; by_page = m.by_page.items } };

    ghost invariant = { λ m. IsMarks (record {
      by_client = m.by_client.items;
      by_page = m.by_page.items;
    }) };
}

impl Marks {
    /// No page is in use.
    ///
    /// `AllocError` only if memory was refused.
    pub fn new(alloc: Global, limits: &Limits) -> Result<Marks, AllocError>
        ensures none { IfOk result (λ marks. (client page : ℕ)
            → is_in_use marks client page ≡ false) }
        ensures clients { IfOk result (λ marks. length marks.by_client ≡ limits.now.clients) }
        ensures pages { IfOk result (λ marks. length marks.by_page ≡ limits.now.pages) }
    {
        let pages = limits.pages() as usize;
        Ok(Marks {
            by_client: empty_sets(alloc, usize::from(limits.clients()), pages)?,
            by_page: vec![in alloc; ClientSet::empty(); pages]?,
        })
    }

    /// The clients that use the page.
    pub fn users(&self, page: PageNo) -> ClientSet
        requires { HasPage self.now page }
        ensures { (client : ℕ) → has result client ≡ is_in_use self.now client page }
    {
        self.by_page[page.index()]
    }

    /// The client uses the page.
    pub fn mark(&mut self, client: ClientNo, page: PageNo)
        requires client { HasClient self.old client }
        requires page { HasPage self.old page }
        ensures { HasMarks self.old self.new (set_in_use (is_in_use self.old) client page true) }
    {
        self.by_client[client.index()].insert(page);
        self.by_page[page.index()].insert(client);
    }

    /// The client doesn't use the page.
    pub fn unmark(&mut self, client: ClientNo, page: PageNo)
        requires client { HasClient self.old client }
        requires page { HasPage self.old page }
        ensures { HasMarks self.old self.new (set_in_use (is_in_use self.old) client page false) }
    {
        self.by_client[client.index()].remove(page);
        self.by_page[page.index()].remove(client);
    }

    /// The client uses no page any more. It costs a step for each page that it used.
    pub fn clear(&mut self, client: ClientNo)
        requires { HasClient self.old client }
        ensures { HasMarks self.old self.new (without_marks (is_in_use self.old) client) }
    {
        let mut from = 0;
        while let Some(page) = self.by_client[client.index()].next(from) {
            self.unmark(client, page);
            from = page.index() + 1;
        }
    }
}

/// That many empty sets of pages.
fn empty_sets(alloc: Global, clients: usize, pages: usize) -> Result<Vec<PageSet>, AllocError>
    requires { pages ≤ 4096 }
    ensures { IfOk result (λ sets. sets.items ≡ replicate clients (replicate pages false)) }
{
    let mut sets = Vec::with_capacity(alloc, clients)?;
    for _ in 0..clients {
        sets.push(PageSet::new(alloc, pages)?)?;
    }
    Ok(sets)
}
