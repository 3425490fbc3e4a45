ghost use Rattle.std.specs.Prelude.{◌≡◌, ◌^◌, ◌↔◌, ℕ, ◌<◌, None, Some, IfOk, IfSome, IsSome};
ghost use Rattle.std.specs.Option.{is_some};
ghost use Rattle.cb_page.specs.Clients.{has};
ghost use Rattle.cb_directory.specs.Directories.{Forgets, GivesBack, Grants, HasClient};
ghost use Rattle.cb_directory.specs.Directories.{HasGrantLeft, HasPage, IsNew, IsSoleRow};
ghost use Rattle.cb_directory.specs.Directories.{NoOtherHolder, Permits, Releases, ReleasesAll};
ghost use Rattle.cb_directory.specs.Directories.{ReleasesIf, Rule, row, holder, tag};

use crate::row_tables::RowTables;
use cb_page::{ClientNo, ClientSet, GrantNo, Limits, PageNo, TxnNo};
use std::alloc::{AllocError, Global};
use std::marker::Model;

/// The rows and the write holders of all pages, and the number of the next grant. If a page has a
/// write holder, no other client has a row of it. No two rows have the same grant. Only `new` takes
/// memory.
pub struct Directory {
    tables: RowTables,
    next_grant: u64,
}

// By hand: see docs/PROVING.md, "Drops".
impl Drop for Directory {
    fn drop(self) {
        let Directory {
            tables: _,
            next_grant: _,
        } = self;
    }
}

impl Model for Directory {
    ghost use Rattle.cb_directory.specs.Directories.{DirectoryState, IsDirectory};

    ghost Value = { DirectoryState };

    ghost view = { λ d. record { tables = d.tables; next_grant = d.next_grant } };

    ghost invariant = { λ d.
        IsDirectory (record { tables = d.tables; next_grant = d.next_grant }) };
}

impl Directory {
    /// Nobody has a copy, and nobody may write.
    ///
    /// `AllocError` only if memory was refused.
    pub fn new(alloc: Global, limits: &Limits) -> Result<Directory, AllocError>
        ensures { IfOk result (IsNew limits.now) }
    {
        Ok(Directory {
            tables: RowTables::new(alloc, limits)?,
            next_grant: 1,
        })
    }

    /// The grant of the client's copy of the page; `None` if it has none.
    pub fn row(&self, client: ClientNo, page: PageNo) -> Option<GrantNo>
        requires client { HasClient self.now client }
        requires page { HasPage self.now page }
        ensures value { result ≡ row self.now client page }
        ensures rule { Rule self.now }
    {
        self.tables.row(client, page)
    }

    /// The clients that have a copy of the page.
    pub fn rows_of_page(&self, page: PageNo) -> ClientSet
        requires { HasPage self.now page }
        ensures members { (client : ℕ) → has result client ≡ is_some (row self.now client page) }
        ensures rule { Rule self.now }
    {
        self.tables.clients(page)
    }

    /// The client that has the page's write permission.
    pub fn holder(&self, page: PageNo) -> Option<ClientNo>
        requires { HasPage self.now page }
        ensures value { result ≡ holder self.now page }
        ensures known { IfSome result (HasClient self.now) }
        ensures rule { Rule self.now }
    {
        self.tables.holder(page)
    }

    /// The transaction that was last told that it may write the page.
    pub fn tag(&self, page: PageNo) -> Option<TxnNo>
        requires { HasPage self.now page }
        ensures { result ≡ tag self.now page }
    {
        self.tables.tag(page)
    }

    /// The number that the next grant gets; `None` if all numbers are used up.
    pub fn next_grant(&self) -> Option<GrantNo>
        ensures value { IfSome result (λ grant. grant ≡ self.now.next_grant) }
        ensures left { IsSome result ↔ HasGrantLeft self.now }
        ensures rule { Rule self.now }
    {
        GrantNo::checked(self.next_grant)
    }

    /// The client gets a copy of the page by the next grant, which is returned.
    pub fn grant(&mut self, client: ClientNo, page: PageNo) -> GrantNo
        requires client { HasClient self.old client }
        requires page { HasPage self.old page }
        requires no_row { row self.old client page ≡ None }
        requires alone { NoOtherHolder self.old client page }
        requires number { HasGrantLeft self.old }
        ensures number { result ≡ self.old.next_grant }
        ensures grants { Grants self.old client page self.new }
    {
        let grant = GrantNo::new(self.next_grant);
        self.next_grant += 1;
        self.tables.put_row(client, page, Some(grant));
        grant
    }

    /// The client's copy of the page goes. Its write permission, if it has it, stays.
    pub fn give_back(&mut self, client: ClientNo, page: PageNo)
        requires client { HasClient self.old client }
        requires page { HasPage self.old page }
        ensures { GivesBack self.old client page self.new }
    {
        self.tables.put_row(client, page, None);
    }

    /// The client becomes the page's write holder, for this transaction.
    pub fn set_writer(&mut self, client: ClientNo, page: PageNo, txn: TxnNo)
        requires client { HasClient self.old client }
        requires page { HasPage self.old page }
        requires sole { IsSoleRow self.old client page }
        requires alone { NoOtherHolder self.old client page }
        ensures { Permits self.old client page txn self.new }
    {
        self.tables.put_holder(client, page, txn);
    }

    /// Nobody may write the page any more. The tag stays.
    pub fn clear_writer(&mut self, page: PageNo)
        requires { HasPage self.old page }
        ensures { Releases self.old page self.new }
    {
        if let Some(client) = self.tables.holder(page) {
            self.tables.clear_holder(client, page);
        }
    }

    /// The client may not write the page any more. Another write holder stays.
    pub fn clear_writer_if(&mut self, client: ClientNo, page: PageNo)
        requires { HasPage self.old page }
        ensures { ReleasesIf self.old client page self.new }
    {
        if self.tables.holder(page) == Some(client) {
            self.clear_writer(page);
        }
    }

    /// The client may not write any page any more. It costs a step for each page that it could
    /// write, however many copies it has.
    pub fn clear_writers(&mut self, client: ClientNo)
        requires { HasClient self.old client }
        ensures { ReleasesAll self.old client self.new }
    {
        let mut from = 0;
        while let Some(page) = self.tables.next_writable(client, from) {
            self.clear_writer(page);
            from = page.index() + 1;
        }
    }

    /// All rows and permissions of the client go. It costs a step for each of them.
    pub fn forget_client(&mut self, client: ClientNo)
        requires { HasClient self.old client }
        ensures { Forgets self.old client self.new }
    {
        self.clear_writers(client);
        let mut from = 0;
        while let Some(page) = self.tables.next_copied(client, from) {
            self.give_back(client, page);
            from = page.index() + 1;
        }
    }
}
