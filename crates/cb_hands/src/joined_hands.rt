//! The table, and the changes of a hand that it follows.
ghost use Rattle.std.specs.Prelude.{◌≡◌, ◌↔◌, ◌<◌, None, Some, length, replicate, slice_set};
ghost use Rattle.std.specs.Prelude.{◌≤◌, IfOk, IsTrue, OnErr};
ghost use Rattle.std.specs.Option.{is_some};
ghost use Rattle.cb_hands.specs.Hands.{empty_hand, permitted, restamped, with_copy};
ghost use Rattle.cb_hands.specs.Hands.{without_copy, without_permissions};
ghost use Rattle.cb_hands.specs.Joined.{Follow, IsHeld, stored_at};

use crate::grant::Held;
use crate::hand::Hand;
use crate::stored_hand::StoredHand;
use cb_page::{ClientNo, GrantNo, Incarnation, PageNo, TxnNo, Version};
use std::alloc::{AllocError, Global};
use std::marker::Model;

/// What is stored of each client's hand, by client. Only `new` and `join` take memory. The cost of
/// a change grows with what it changes, and that of a comparison with the pages that the hand
/// holds.
pub struct JoinedHands {
    entries: Vec<Option<StoredHand>>,
}

// By hand: see docs/PROVING.md, "Drops".
impl Drop for JoinedHands {
    fn drop(self) {
        let JoinedHands { entries: _ } = self;
    }
}

impl Model for JoinedHands {
    ghost use Rattle.std.specs.Prelude.{List, Option};
    ghost use Rattle.cb_hands.specs.Hands.{HandState};

    ghost Value = { List (Option HandState) };

    ghost view = { λ joined. joined.entries.items };
}

impl JoinedHands {
    /// A table for so many clients, none of which has joined.
    ///
    /// `AllocError` only if memory was refused.
    pub fn new(alloc: Global, clients: u16) -> Result<JoinedHands, AllocError>
        ensures { IfOk result (λ joined. joined ≡ replicate clients None) }
    {
        let mut entries: Vec<Option<StoredHand>> = Vec::new(alloc);
        for _client in 0..clients {
            entries.push(None)?;
        }
        Ok(JoinedHands { entries })
    }

    /// Whether the client has joined; `false` for a client past the end.
    pub fn has(&self, client: ClientNo) -> bool
        ensures { result ≡ is_some (stored_at self.now client) }
    {
        let client = client.index();
        client < self.entries.len() && self.entries[client].is_some()
    }

    /// Whether the hand is what is stored of its client.
    pub fn knows(&self, hand: &Hand) -> bool
        ensures { IsTrue result ↔ IsHeld self.now hand.now }
    {
        let client = hand.client().index();
        if client < self.entries.len() {
            match &self.entries[client] {
                Some(stored) => stored.is_of(hand),
                None => false,
            }
        } else {
            false
        }
    }

    /// The client joins, in that incarnation, over a store of so many pages. Returns its hand,
    /// which holds nothing, and stores as much. What was stored before goes.
    ///
    /// `AllocError` only if memory was refused; nothing changes then.
    pub fn join(
        &mut self,
        alloc: Global,
        client: ClientNo,
        incarnation: Incarnation,
        pages: usize,
    ) -> Result<Hand, AllocError>
        requires client { client < length self.old }
        requires pages { pages ≤ 4096 }
        ensures hand { IfOk result (λ hand. hand ≡ empty_hand client incarnation pages) }
        ensures stored { IfOk result (λ hand.
            self.new ≡ slice_set self.old client (Some hand)) }
        ensures err { OnErr result (self.new ≡ self.old) }
    {
        let stored = StoredHand::new(alloc, client, incarnation, pages)?;
        let hand = Hand::new(alloc, client, incarnation, pages)?;
        self.entries[client.index()] = Some(stored);
        Ok(hand)
    }

    /// The client leaves: its hand is spent, and nothing is stored of that hand any more.
    pub fn leave(&mut self, hand: Hand)
        requires { IsHeld self.old hand }
        ensures { self.new ≡ slice_set self.old hand.client None }
    {
        self.entries[hand.client().index()] = None;
        hand.abandon();
    }

    /// A copy of the page comes into the hand, by that grant and of that version.
    pub fn receive(&mut self, hand: &mut Hand, page: PageNo, grant: GrantNo, version: Version)
        requires held { IsHeld self.old hand.old }
        requires page { page < length hand.old.held }
        ensures hand { hand.new
            ≡ with_copy hand.old page (record { grant = grant; version = version }) }
        ensures stored { Follow self.old self.new hand.old hand.new }
    {
        hand.receive(page, Held { grant, version });
        if let Some(stored) = &mut self.entries[hand.client().index()] {
            stored.receive(page, Held { grant, version });
        }
    }

    /// The copy of the page goes from the hand.
    pub fn give_back(&mut self, hand: &mut Hand, page: PageNo)
        requires held { IsHeld self.old hand.old }
        requires page { page < length hand.old.held }
        ensures hand { hand.new ≡ without_copy hand.old page }
        ensures stored { Follow self.old self.new hand.old hand.new }
    {
        hand.give_back(page);
        if let Some(stored) = &mut self.entries[hand.client().index()] {
            stored.give_back(page);
        }
    }

    /// The hand's transaction is told that it may write the page.
    pub fn permit(&mut self, hand: &mut Hand, page: PageNo, txn: TxnNo)
        requires held { IsHeld self.old hand.old }
        requires page { page < length hand.old.held }
        ensures hand { hand.new ≡ permitted hand.old page txn }
        ensures stored { Follow self.old self.new hand.old hand.new }
    {
        hand.permit(page, txn);
        if let Some(stored) = &mut self.entries[hand.client().index()] {
            stored.permit(page, txn);
        }
    }

    /// The hand's transaction has ended.
    pub fn end_permissions(&mut self, hand: &mut Hand)
        requires { IsHeld self.old hand.old }
        ensures hand { hand.new ≡ without_permissions hand.old }
        ensures stored { Follow self.old self.new hand.old hand.new }
    {
        hand.end_permissions();
        if let Some(stored) = &mut self.entries[hand.client().index()] {
            stored.end_permissions();
        }
    }

    /// Sets the version of the page that the hand holds.
    pub fn restamp(&mut self, hand: &mut Hand, page: PageNo, version: Version)
        requires held { IsHeld self.old hand.old }
        requires page { page < length hand.old.held }
        ensures hand { hand.new ≡ restamped hand.old page version }
        ensures stored { Follow self.old self.new hand.old hand.new }
    {
        hand.restamp(page, version);
        if let Some(stored) = &mut self.entries[hand.client().index()] {
            stored.restamp(page, version);
        }
    }

    /// The client's next incarnation begins: its hand holds nothing.
    pub fn renew(&mut self, hand: &mut Hand, incarnation: Incarnation)
        requires { IsHeld self.old hand.old }
        ensures hand { hand.new
            ≡ empty_hand hand.old.client incarnation (length hand.old.held) }
        ensures stored { Follow self.old self.new hand.old hand.new }
    {
        hand.renew(incarnation);
        if let Some(stored) = &mut self.entries[hand.client().index()] {
            stored.renew(incarnation);
        }
    }
}
