//! Numbers of clients.
ghost use Rattle.std.specs.Prelude.{◌≡◌, ℕ, ◌<◌, ◌↔◌, nat_lt, if◌then◌else◌, Some, None, IsSome};
ghost use Rattle.std.specs.Prelude.{IfSome};
ghost use Rattle.cb_page.specs.Bounds.{AreInRange};

use crate::Limits;
use std::marker::Model;

/// The number of a client, counted from 0.
#[derive(Clone, Copy, Debug, PartialEq, Eq, PartialOrd, Ord)]
pub struct ClientNo {
    value: u16,
}

impl Model for ClientNo {
    ghost Value = { ℕ };

    ghost view = { λ a. a.value };

    ghost invariant = { λ a. a.value < 32 };

    ghost inverse = { λ n. record { value = n } };
}

impl ClientNo {
    /// The number of a client that is known to be in range.
    pub fn new(value: u16) -> ClientNo
        requires { value < 32 }
        ensures { result ≡ value }
    {
        ClientNo { value }
    }

    /// The number as one of this store's clients; `None` if the store has no such client.
    pub fn in_store(limits: &Limits, value: u64) -> Option<ClientNo>
        ensures value { IfSome result (λ n. n ≡ value) }
        ensures succeeds { IsSome result ↔ (value < limits.now.clients) }
        ensures in_range { AreInRange limits.now }
    {
        if value < u64::from(limits.clients()) {
            Some(ClientNo {
                value: value as u16,
            })
        } else {
            None
        }
    }

    /// The plain number.
    pub fn get(self) -> u16
        ensures value { result ≡ self }
        ensures greatest { result < 32 }
    {
        self.value
    }

    /// The number as a place in a table of all clients.
    pub fn index(self) -> usize
        ensures value { result ≡ self }
        ensures greatest { result < 32 }
    {
        usize::from(self.value)
    }
}

/// The law of these calls: a number from outside that is one of the store's gives itself, as a
/// place too.
fn law(limits: &Limits, value: u64) -> Option<(u16, usize)>
    ensures { result ≡ (if nat_lt value limits.now.clients then Some (value, value) else None) }
{
    let number = ClientNo::in_store(limits, value)?;
    let same = ClientNo::new(number.get());
    Some((same.get(), same.index()))
}
