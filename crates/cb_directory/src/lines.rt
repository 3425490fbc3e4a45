//! What stands for one client, and for one page.
ghost use Rattle.std.specs.Prelude.{◌≡◌, ◌<◌, ◌≤◌, true, false, length, slice_set, IfOk};
ghost use Rattle.std.specs.Option.{is_some};
ghost use Rattle.cb_page.specs.Flags.{has};
ghost use Rattle.cb_directory.specs.Rows.{IsLeastFrom, grant_of, no_rows};

use cb_page::{ClientNo, ClientSet, GrantNo, PageNo, PageSet, TxnNo};
use std::alloc::{AllocError, Global};
use std::marker::Model;

/// One page: the clients that have a copy, and the write holder.
#[derive(Clone, Copy)]
pub struct PageLine {
    pub clients: ClientSet,
    pub holder: Option<ClientNo>,
    /// The transaction that was last told that it may write the page.
    pub tag: Option<TxnNo>,
}

/// A grant or none, in eight bytes: no grant has the number 0.
#[derive(Clone, Copy)]
struct GrantPlace {
    number: u64,
}

impl Model for GrantPlace {
    ghost use Rattle.std.specs.Prelude.{ℕ, Option, ◌≤◌};
    ghost use Rattle.cb_page.specs.Numbers.{max_number};
    ghost use Rattle.cb_directory.specs.Rows.{grant_at, number_of, number_of_grant_at};

    ghost Value = { Option ℕ };

    ghost view = { λ place. grant_at place.number };

    ghost invariant = { λ place. place.number ≤ max_number };

    ghost inverse = { λ grant. record { number = number_of grant } };

    ghost inverse_ok = { λ place _ i. record { number = number_of_grant_at place.number i } };
}

impl GrantPlace {
    /// No grant.
    const NONE: GrantPlace = GrantPlace { number: 0 };

    /// This grant, or none.
    fn new(grant: Option<GrantNo>) -> GrantPlace
        ensures { result ≡ grant }
    {
        match grant {
            Some(grant) => GrantPlace {
                number: grant.get(),
            },
            None => GrantPlace::NONE,
        }
    }

    /// The grant, if there is one.
    fn grant(self) -> Option<GrantNo>
        ensures { result ≡ self }
    {
        GrantNo::checked(self.number)
    }
}

/// One client: the grants of its copies, the pages of which it has a copy, and those that it may
/// write. So a walk over the one or the other costs what it finds.
pub struct ClientLine {
    grants: Vec<GrantPlace>,
    copied: PageSet,
    writable: PageSet,
}

// By hand, since the proof of a derived one is dear.
impl Drop for ClientLine {
    fn drop(self) {
        let ClientLine {
            grants: _,
            copied: _,
            writable: _,
        } = self;
    }
}

impl Model for ClientLine {
    ghost use Rattle.cb_directory.specs.Rows.{ClientState};

    ghost Value = { ClientState };

    ghost view = { λ l.
        record { grants = l.grants.items; copied = l.copied; writable = l.writable } };
}

impl ClientLine {
    /// A client with no copies.
    pub fn new(alloc: Global, pages: usize) -> Result<ClientLine, AllocError>
        requires { pages ≤ 4096 }
        ensures { IfOk result (λ line. line ≡ no_rows pages) }
    {
        let grants = vec![in alloc; GrantPlace::NONE; pages]?;
        Ok(ClientLine {
            grants,
            copied: PageSet::new(alloc, pages)?,
            writable: PageSet::new(alloc, pages)?,
        })
    }

    /// The grant of the client's copy of the page.
    pub fn grant(&self, page: PageNo) -> Option<GrantNo>
        requires { page < length self.now.grants }
        ensures { result ≡ grant_of self.now page }
    {
        self.grants[page.index()].grant()
    }

    /// Another grant of the page, or none: a copy, or none.
    pub fn put(&mut self, page: PageNo, grant: Option<GrantNo>)
        requires grants { page < length self.old.grants }
        requires copied { page < length self.old.copied }
        ensures { self.new ≡ record self.old {
          grants = slice_set self.old.grants page grant;
          copied = slice_set self.old.copied page (is_some grant);
        } }
    {
        self.grants[page.index()] = GrantPlace::new(grant);
        if grant.is_some() {
            self.copied.insert(page);
        } else {
            self.copied.remove(page);
        }
    }

    /// The client may write the page from now on.
    pub fn permit(&mut self, page: PageNo)
        requires { page < length self.old.writable }
        ensures { self.new ≡ record self.old {
          writable = slice_set self.old.writable page true;
        } }
    {
        self.writable.insert(page);
    }

    /// The client may not write the page any more.
    pub fn release(&mut self, page: PageNo)
        requires { page < length self.old.writable }
        ensures { self.new ≡ record self.old {
          writable = slice_set self.old.writable page false;
        } }
    {
        self.writable.remove(page);
    }

    /// The least page of which the client has a copy, at or after a place.
    pub fn next_copied(&self, from: usize) -> Option<PageNo>
        ensures { IsLeastFrom from (length self.now.copied) (has self.now.copied) result }
    {
        self.copied.next(from)
    }

    /// The least page that the client may write, at or after a place.
    pub fn next_writable(&self, from: usize) -> Option<PageNo>
        ensures { IsLeastFrom from (length self.now.writable) (has self.now.writable) result }
    {
        self.writable.next(from)
    }
}
