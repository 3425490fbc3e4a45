//! A table of grants.
ghost use Rattle.std.specs.Prelude.{◌≡◌, ◌<◌, IfOk, None, length, replicate, slice_set};
ghost use Rattle.cb_hands.specs.Hands.{held_at};

use crate::copies::Copies;
use crate::grant::{Grant, Held};
use cb_page::PageNo;
use std::alloc::{AllocError, AllocFailed, Global};
use std::marker::Model;
use std::mem;

/// The grants that a client has, by page. Only `new` takes memory.
pub(crate) struct Grants {
    entries: Vec<Option<Grant>>,
    /// What they say.
    copies: Copies,
}

impl Model for Grants {
    ghost use Rattle.std.specs.Prelude.{◌≡◌, List, Option};
    ghost use Rattle.cb_hands.specs.declared.grant.Held.{Held};

    ghost Value = { List (Option Held) };

    ghost view = { λ g. g.entries.items };

    ghost invariant = { λ g. g.copies ≡ g.entries.items };
}

impl Grants {
    /// No page has one.
    pub(crate) fn new(alloc: Global, pages: usize) -> Result<Grants, AllocError>
        ensures { IfOk result (λ grants. grants ≡ replicate pages None) }
    {
        let copies = Copies::new(alloc, pages)?;
        let entries = no_grants(alloc, pages)?;
        Ok(Grants { entries, copies })
    }

    pub(crate) fn len(&self) -> usize
        ensures { result ≡ length self.now }
    {
        self.entries.len()
    }

    /// What they say.
    pub(crate) fn copies(&self) -> &Copies
        ensures { result.now ≡ self.now }
    {
        &self.copies
    }

    /// What the grant of a page says.
    pub(crate) fn at(&self, page: PageNo) -> Option<Held>
        ensures { result ≡ held_at self.now page }
    {
        if page.index() < self.entries.len() {
            match &self.entries[page.index()] {
                Some(grant) => Some(grant.held()),
                None => None,
            }
        } else {
            None
        }
    }

    /// Makes the grant of a page, or takes it away; the one that was there is spent.
    pub(crate) fn put(&mut self, page: PageNo, held: Option<Held>)
        requires { page < length self.old }
        ensures { self.new ≡ slice_set self.old page held }
    {
        let grant = match &held {
            Some(held) => Some(Grant::new(*held)),
            None => None,
        };
        self.copies.put(page, held);
        let place = &mut self.entries[page.index()];
        if let Some(spent) = mem::replace(place, grant) {
            spent.spend();
        }
    }

    /// Spends all.
    pub(crate) fn clear(&mut self)
        ensures { self.new ≡ replicate (length self.old) None }
    {
        while let Some(page) = self.copies().any() {
            self.put(page, None);
        }
    }

    /// Ends the table.
    pub(crate) fn spend(self) {
        let Grants { entries, copies: _ } = self;
        spend_all(entries);
    }
}

fn no_grants(alloc: Global, pages: usize) -> Result<Vec<Option<Grant>>, AllocError>
    ensures { IfOk result (λ grants. grants.items ≡ replicate pages None) }
{
    let mut grants: Vec<Option<Grant>> = Vec::new(alloc);
    for _made in 0..pages {
        if let Err(AllocFailed { value }) = grants.push(None) {
            if let Some(grant) = value {
                grant.spend();
            }
            spend_all(grants);
            return Err(AllocError);
        }
    }
    Ok(grants)
}

fn spend_all(mut grants: Vec<Option<Grant>>) {
    while let Some(grant) = grants.pop() {
        if let Some(grant) = grant {
            grant.spend();
        }
    }
    grants.destroy_empty();
}
