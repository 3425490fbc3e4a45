//! The rows and write holders as tables by client and by page, without their rule.
ghost use Rattle.std.specs.Prelude.{◌≡◌, ℕ, ◌<◌, ◌≤◌, None, Some, false, true, length, replicate};
ghost use Rattle.std.specs.Prelude.{IfOk};
ghost use Rattle.cb_page.specs.Clients.{has};
ghost use Rattle.std.specs.Option.{is_some};
ghost use Rattle.cb_directory.specs.Rows.{IsLeastFrom, no_rows};
ghost use Rattle.cb_directory.specs.RowTables.{IsEmpty, PutsHolder, PutsRow, holder, is_copied};
ghost use Rattle.cb_directory.specs.RowTables.{is_marked, is_writable, row, tag};

use crate::lines::{ClientLine, PageLine};
use cb_page::{ClientNo, ClientSet, GrantNo, Limits, PageNo, TxnNo};
use std::alloc::{AllocError, Global};
use std::marker::Model;

/// One line a client and one a page.
#[derive(Drop)]
pub struct RowTables {
    clients: Vec<ClientLine>,
    pages: Vec<PageLine>,
}

impl Model for RowTables {
    ghost use Rattle.cb_directory.specs.RowTables.{IsSized, RowTablesState};

    ghost Value = { RowTablesState };

    ghost view = { λ t. record { clients = t.clients.items; pages = t.pages.items } };

    ghost invariant = { λ t.
        IsSized (record { clients = t.clients.items; pages = t.pages.items }) };
}

impl RowTables {
    /// No rows and no write holders.
    pub fn new(alloc: Global, limits: &Limits) -> Result<RowTables, AllocError>
        ensures { IfOk result (IsEmpty limits.now.clients limits.now.pages) }
    {
        let line = PageLine {
            clients: ClientSet::empty(),
            holder: None,
            tag: None,
        };
        Ok(RowTables {
            clients: empty_lines(
                alloc,
                usize::from(limits.clients()),
                limits.pages() as usize,
            )?,
            pages: vec![in alloc; line; limits.pages() as usize]?,
        })
    }

    /// The grant of the client's copy of the page.
    pub fn row(&self, client: ClientNo, page: PageNo) -> Option<GrantNo>
        requires client { client < length self.now.clients }
        requires page { page < length self.now.pages }
        ensures { result ≡ row self.now client page }
    {
        self.clients[client.index()].grant(page)
    }

    /// The clients that have a row of the page.
    pub fn clients(&self, page: PageNo) -> ClientSet
        requires { page < length self.now.pages }
        ensures { (client : ℕ) → has result client ≡ is_marked self.now client page }
    {
        self.pages[page.index()].clients
    }

    /// The page's write holder.
    pub fn holder(&self, page: PageNo) -> Option<ClientNo>
        requires { page < length self.now.pages }
        ensures { result ≡ holder self.now page }
    {
        self.pages[page.index()].holder
    }

    /// The transaction that was last told that it may write the page.
    pub fn tag(&self, page: PageNo) -> Option<TxnNo>
        requires { page < length self.now.pages }
        ensures { result ≡ tag self.now page }
    {
        self.pages[page.index()].tag
    }

    /// A row is put in, or taken out.
    pub fn put_row(&mut self, client: ClientNo, page: PageNo, grant: Option<GrantNo>)
        requires client { client < length self.old.clients }
        requires page { page < length self.old.pages }
        ensures { PutsRow self.old client page grant (is_some grant) self.new }
    {
        self.clients[client.index()].put(page, grant);
        if grant.is_some() {
            self.pages[page.index()].clients.insert(client);
        } else {
            self.pages[page.index()].clients.remove(client);
        }
    }

    /// The least page of which the client has a row, at or after a place.
    pub fn next_copied(&self, client: ClientNo, from: usize) -> Option<PageNo>
        requires { client < length self.now.clients }
        ensures { IsLeastFrom from (length self.now.pages) (is_copied self.now client) result }
    {
        self.clients[client.index()].next_copied(from)
    }

    /// The least page that the client may write, at or after a place.
    pub fn next_writable(&self, client: ClientNo, from: usize) -> Option<PageNo>
        requires { client < length self.now.clients }
        ensures { IsLeastFrom from (length self.now.pages) (is_writable self.now client) result }
    {
        self.clients[client.index()].next_writable(from)
    }

    /// The client becomes the page's write holder. What another client's line says stays.
    pub fn put_holder(&mut self, client: ClientNo, page: PageNo, txn: TxnNo)
        requires client { client < length self.old.clients }
        requires page { page < length self.old.pages }
        ensures { PutsHolder self.old client page (Some client) (Some txn) true self.new }
    {
        self.clients[client.index()].permit(page);
        let line = &mut self.pages[page.index()];
        line.holder = Some(client);
        line.tag = Some(txn);
    }

    /// The page has no write holder any more, and this client's line loses it.
    pub fn clear_holder(&mut self, client: ClientNo, page: PageNo)
        requires client { client < length self.old.clients }
        requires page { page < length self.old.pages }
        ensures { PutsHolder self.old client page None (tag self.old page) false self.new }
    {
        self.clients[client.index()].release(page);
        self.pages[page.index()].holder = None;
    }
}

/// That many clients with nothing.
fn empty_lines(alloc: Global, clients: usize, pages: usize) -> Result<Vec<ClientLine>, AllocError>
    requires { pages ≤ 4096 }
    ensures { IfOk result (λ lines. lines.items ≡ replicate clients (no_rows pages)) }
{
    let mut lines = Vec::with_capacity(alloc, clients)?;
    for _ in 0..clients {
        lines.push(ClientLine::new(alloc, pages)?)?;
    }
    Ok(lines)
}
