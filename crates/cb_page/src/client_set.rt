ghost use Rattle.std.specs.Prelude.{◌≡◌, ◌<◌, ◌≤◌, ℕ, ◌&&◌, ◌||◌, not, true, false, MatchOption};
ghost use Rattle.cb_page.specs.Clients.{IsLeast, IsNext, has, left_out, with, without};

use crate::numbers::ClientNo;
use std::marker::Model;

/// A set of clients. In contracts, `has` says of each client whether it is a member.
///
/// No call costs more than a few machine steps, and none takes memory.
#[derive(Clone, Copy, PartialEq, Eq)]
pub struct ClientSet {
    /// Bit `client` is 1 if the client is in the set.
    bits: u32,
}

impl Model for ClientSet {
    ghost use Rattle.std.specs.Prelude.{◌^◌, ◌<◌};
    ghost use Rattle.cb_page.specs.Clients.{Clients, set_of};

    ghost Value = { Clients };

    ghost view = { λ s. set_of s.bits };

    ghost invariant = { λ s. s.bits < 2 ^ 32 };

    ghost inverse = { λ set. record { bits = set.bits } };
}

impl ClientSet {
    /// The empty set.
    pub fn empty() -> ClientSet
        ensures { (client : ℕ) → has result client ≡ false }
    {
        ClientSet { bits: 0 }
    }

    /// Whether the client is in the set.
    pub fn contains(self, client: ClientNo) -> bool
        ensures { result ≡ has self client }
    {
        self.bits >> client.get() & 1 == 1
    }

    /// Puts the client in.
    pub fn insert(&mut self, client: ClientNo)
        ensures members { (other : ℕ) → has self.new other ≡ with self.old client other }
        ensures grows { has self.old client ≡ false → left_out self.new < left_out self.old }
    {
        self.bits |= 1 << client.get();
    }

    /// Takes the client out.
    pub fn remove(&mut self, client: ClientNo)
        ensures { (other : ℕ) → has self.new other ≡ without self.old client other }
    {
        self.bits &= !(1 << client.get());
    }

    /// The clients that are in either set.
    pub fn union(self, other: ClientSet) -> ClientSet
        ensures { (client : ℕ) → has result client ≡ (has self client || has other client) }
    {
        ClientSet {
            bits: self.bits | other.bits,
        }
    }

    /// The clients of this set that aren't in the other.
    pub fn difference(self, other: ClientSet) -> ClientSet
        ensures { (client : ℕ) → has result client ≡ (has self client && not (has other client)) }
    {
        ClientSet {
            bits: self.bits & !other.bits,
        }
    }

    /// The member with the least number at or above this one; `None` if there is none.
    pub fn next(self, from: usize) -> Option<ClientNo>
        ensures { MatchOption result
            ((client : ℕ) → from ≤ client → has self client ≡ false) (IsNext self from) }
    {
        let bits = self.bits;
        if from >= 32 {
            return None;
        }
        let rest = bits >> from;
        if rest == 0 {
            None
        } else {
            Some(ClientNo::new(from as u16 + rest.trailing_zeros() as u16))
        }
    }

    /// The member with the least number; `None` if the set is empty.
    pub fn first(self) -> Option<ClientNo>
        ensures { MatchOption result ((client : ℕ) → has self client ≡ false) (IsLeast self) }
    {
        if self.bits == 0 {
            None
        } else {
            Some(ClientNo::new(self.bits.trailing_zeros() as u16))
        }
    }
}
