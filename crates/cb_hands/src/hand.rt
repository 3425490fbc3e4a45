//! A client's hand.
ghost use Rattle.std.specs.Prelude.{◌≡◌, ◌<◌, ◌≤◌, length, IfOk};
ghost use Rattle.cb_hands.specs.Hands.{empty_hand, held_at, permitted};
ghost use Rattle.cb_hands.specs.Hands.{restamped, shown, with_copy, without_copy};
ghost use Rattle.cb_hands.specs.Hands.{without_permissions};

use crate::grant::{Held, Shown};
use crate::grants::Grants;
use cb_page::{ClientNo, Incarnation, PageNo, PageSet, TxnNo, Version};
use std::alloc::{AllocError, Global};
use std::marker::Model;

/// What a client holds: a grant for each page of which it has a copy, and which of these pages its
/// transaction was told that it may write.
///
/// It can't be copied or dropped. Only [`JoinedHands`](crate::JoinedHands) makes it and changes it,
/// together with what is stored of it; `abandon` ends it. No call takes memory.
pub struct Hand {
    client: ClientNo,
    incarnation: Incarnation,
    txn: Option<TxnNo>,
    pub(crate) grants: Grants,
    pub(crate) writable: PageSet,
}

impl Model for Hand {
    ghost use Rattle.std.specs.Prelude.{◌≡◌, length};
    ghost use Rattle.cb_hands.specs.Hands.{HandState};

    ghost Value = { HandState };

    ghost view = { λ h. record {
      client = h.client;
      incarnation = h.incarnation;
      txn = h.txn;
      held = h.grants;
      writable = h.writable;
    } };

    ghost invariant = { λ h. length h.writable ≡ length h.grants };
}

impl Hand {
    /// The hand of a client's incarnation over a store of so many pages. It holds nothing.
    ///
    /// `AllocError` only if memory was refused.
    pub(crate) fn new(
        alloc: Global,
        client: ClientNo,
        incarnation: Incarnation,
        pages: usize,
    ) -> Result<Hand, AllocError>
        requires { pages ≤ 4096 }
        ensures { IfOk result (λ hand. hand ≡ empty_hand client incarnation pages) }
    {
        let writable = PageSet::new(alloc, pages)?;
        Ok(Hand {
            client,
            incarnation,
            txn: None,
            grants: Grants::new(alloc, pages)?,
            writable,
        })
    }

    /// Whose hand it is.
    pub fn client(&self) -> ClientNo
        ensures { result ≡ self.now.client }
    {
        self.client
    }

    /// Of which incarnation.
    pub fn incarnation(&self) -> Incarnation
        ensures { result ≡ self.now.incarnation }
    {
        self.incarnation
    }

    /// The transaction that was told that it may write some page, if any.
    pub fn txn(&self) -> Option<TxnNo>
        ensures { result ≡ self.now.txn }
    {
        self.txn
    }

    /// How many pages the store has.
    pub fn pages(&self) -> usize
        ensures { result ≡ length self.now.held }
    {
        self.grants.len()
    }

    /// What is held of a page; nothing for a page past the end.
    pub fn held(&self, page: PageNo) -> Option<Held>
        ensures { result ≡ held_at self.now.held page }
    {
        self.grants.at(page)
    }

    /// What the hand shows of a page; nothing for a page past the end.
    pub fn shows(&self, page: PageNo) -> Option<Shown>
        ensures { result ≡ shown self.now page }
    {
        match self.grants.at(page) {
            Some(held) => Some(Shown {
                grant: held.grant,
                version: held.version,
                may_write: self.writable.contains(page),
            }),
            None => None,
        }
    }

    /// A copy of the page comes, which may not be written yet; one that was held is spent.
    pub(crate) fn receive(&mut self, page: PageNo, held: Held)
        requires { page < length self.old.held }
        ensures { self.new ≡ with_copy self.old page held }
    {
        self.grants.put(page, Some(held));
        self.writable.remove(page);
    }

    /// The copy of the page goes, and with it what was told of writing it.
    pub(crate) fn give_back(&mut self, page: PageNo)
        requires { page < length self.old.held }
        ensures { self.new ≡ without_copy self.old page }
    {
        self.grants.put(page, None);
        self.writable.remove(page);
    }

    /// The transaction is told that it may write the page.
    pub(crate) fn permit(&mut self, page: PageNo, txn: TxnNo)
        requires { page < length self.old.held }
        ensures { self.new ≡ permitted self.old page txn }
    {
        self.writable.insert(page);
        self.txn = Some(txn);
    }

    /// The transaction has ended: no page may be written.
    pub(crate) fn end_permissions(&mut self)
        ensures { self.new ≡ without_permissions self.old }
    {
        self.writable.clear();
        self.txn = None;
    }

    /// What is held of the page is of that version now, under the same grant.
    pub(crate) fn restamp(&mut self, page: PageNo, version: Version)
        requires { page < length self.old.held }
        ensures { self.new ≡ restamped self.old page version }
    {
        if let Some(held) = self.grants.at(page) {
            self.grants.put(page, Some(Held { version, ..held }));
        }
    }

    /// The client's next incarnation begins: it holds nothing.
    pub(crate) fn renew(&mut self, incarnation: Incarnation)
        ensures { self.new ≡ empty_hand self.old.client incarnation (length self.old.held) }
    {
        self.grants.clear();
        self.end_permissions();
        self.incarnation = incarnation;
    }

    /// Ends the hand; what is stored of it stays.
    pub fn abandon(self) {
        let Hand {
            client: _,
            incarnation: _,
            txn: _,
            grants,
            writable: _,
        } = self;
        grants.spend();
    }
}
