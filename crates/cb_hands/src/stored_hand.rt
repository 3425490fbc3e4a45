//! What is stored of a client's hand.
ghost use Rattle.std.specs.Prelude.{◌≡◌, ◌↔◌, ◌<◌, ◌≤◌, IsTrue, length, IfOk};
ghost use Rattle.cb_hands.specs.Hands.{empty_hand, permitted, restamped, with_copy};
ghost use Rattle.cb_hands.specs.Hands.{without_copy, without_permissions};

use crate::copies::Copies;
use crate::grant::Held;
use crate::hand::Hand;
use crate::sets::same_pages;
use cb_page::{ClientNo, Incarnation, PageNo, PageSet, TxnNo, Version};
use std::alloc::{AllocError, Global};
use std::marker::Model;

/// What is stored of a client's hand: it changes as the hand does, and tells whether a hand is that
/// one. Only `new` takes memory.
pub(crate) struct StoredHand {
    client: ClientNo,
    incarnation: Incarnation,
    txn: Option<TxnNo>,
    held: Copies,
    writable: PageSet,
}

// By hand: see docs/PROVING.md, "Drops".
impl Drop for StoredHand {
    fn drop(self) {
        let StoredHand {
            client: _,
            incarnation: _,
            txn: _,
            held: _,
            writable: _,
        } = self;
    }
}

impl Model for StoredHand {
    ghost use Rattle.std.specs.Prelude.{◌≡◌, length};
    ghost use Rattle.cb_hands.specs.Hands.{HandState};

    ghost Value = { HandState };

    ghost view = { λ h. record {
      client = h.client;
      incarnation = h.incarnation;
      txn = h.txn;
      held = h.held;
      writable = h.writable;
    } };

    ghost invariant = { λ h. length h.writable ≡ length h.held };
}

impl StoredHand {
    /// What is stored of a hand that holds nothing, of a client's incarnation over so many pages.
    ///
    /// `AllocError` only if memory was refused.
    pub(crate) fn new(
        alloc: Global,
        client: ClientNo,
        incarnation: Incarnation,
        pages: usize,
    ) -> Result<StoredHand, AllocError>
        requires { pages ≤ 4096 }
        ensures { IfOk result (λ hand. hand ≡ empty_hand client incarnation pages) }
    {
        Ok(StoredHand {
            client,
            incarnation,
            txn: None,
            held: Copies::new(alloc, pages)?,
            writable: PageSet::new(alloc, pages)?,
        })
    }

    /// Whether the hand is the one that is stored: of the same client and incarnation, with the
    /// same copies and the same permissions to write.
    pub(crate) fn is_of(&self, hand: &Hand) -> bool
        ensures { IsTrue result ↔ (self.now ≡ hand.now) }
    {
        self.client == hand.client()
            && self.incarnation == hand.incarnation()
            && self.txn == hand.txn()
            && same_pages(&self.writable, &hand.writable)
            && self.held.say_as(hand.grants.copies())
    }

    /// As [`Hand::receive`].
    pub(crate) fn receive(&mut self, page: PageNo, held: Held)
        requires { page < length self.old.held }
        ensures { self.new ≡ with_copy self.old page held }
    {
        self.held.put(page, Some(held));
        self.writable.remove(page);
    }

    /// As [`Hand::give_back`].
    pub(crate) fn give_back(&mut self, page: PageNo)
        requires { page < length self.old.held }
        ensures { self.new ≡ without_copy self.old page }
    {
        self.held.put(page, None);
        self.writable.remove(page);
    }

    /// As [`Hand::permit`].
    pub(crate) fn permit(&mut self, page: PageNo, txn: TxnNo)
        requires { page < length self.old.held }
        ensures { self.new ≡ permitted self.old page txn }
    {
        self.writable.insert(page);
        self.txn = Some(txn);
    }

    /// As [`Hand::end_permissions`].
    pub(crate) fn end_permissions(&mut self)
        ensures { self.new ≡ without_permissions self.old }
    {
        self.writable.clear();
        self.txn = None;
    }

    /// As [`Hand::restamp`].
    pub(crate) fn restamp(&mut self, page: PageNo, version: Version)
        requires { page < length self.old.held }
        ensures { self.new ≡ restamped self.old page version }
    {
        if let Some(held) = self.held.at(page) {
            self.held.put(page, Some(Held { version, ..held }));
        }
    }

    /// As [`Hand::renew`].
    pub(crate) fn renew(&mut self, incarnation: Incarnation)
        ensures { self.new ≡ empty_hand self.old.client incarnation (length self.old.held) }
    {
        self.held.clear();
        self.end_permissions();
        self.incarnation = incarnation;
    }
}
