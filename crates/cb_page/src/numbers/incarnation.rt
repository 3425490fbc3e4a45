//! Numbers of incarnations.
ghost use Rattle.std.specs.Prelude.{◌≡◌, ℕ, ◌+◌, ◌≤◌, ◌↔◌, nat_lt, if◌then◌else◌, Some, None};
ghost use Rattle.std.specs.Prelude.{IsSome, IfSome};
ghost use Rattle.cb_page.specs.Numbers.{IsNumber, is_number, max_number};

use crate::MAX_NUMBER;
use std::marker::Model;

/// The number of an incarnation: how many times a client has started.
#[derive(Clone, Copy, Debug, PartialEq, Eq, PartialOrd, Ord)]
pub struct Incarnation {
    value: u64,
}

impl Model for Incarnation {
    ghost Value = { ℕ };

    ghost view = { λ a. a.value };

    ghost invariant = { λ a. (1 ≤ a.value) × (a.value ≤ max_number) };

    ghost inverse = { λ n. record { value = n } };
}

impl Incarnation {
    /// A number that is known to be in range.
    pub fn new(value: u64) -> Incarnation
        requires least { 1 ≤ value }
        requires greatest { value ≤ max_number }
        ensures { result ≡ value }
    {
        Incarnation { value }
    }

    /// Checks a number from outside; `None` if it is 0 or too great.
    pub fn checked(value: u64) -> Option<Incarnation>
        ensures value { IfSome result (λ n. n ≡ value) }
        ensures succeeds { IsSome result ↔ IsNumber value }
    {
        if 1 <= value && value <= MAX_NUMBER {
            Some(Incarnation { value })
        } else {
            None
        }
    }

    /// The plain number.
    pub fn get(self) -> u64
        ensures value { result ≡ self }
        ensures least { 1 ≤ result }
        ensures greatest { result ≤ max_number }
    {
        self.value
    }

    /// The next incarnation's number; `None` if all numbers are used up.
    pub fn next(self) -> Option<Incarnation>
        ensures value { IfSome result (λ n. n ≡ self + 1) }
        ensures succeeds { IsSome result ↔ (self + 1 ≤ max_number) }
    {
        Incarnation::checked(self.value + 1)
    }
}

/// The law of these calls: a number from outside that is in range gives itself and the next one.
fn law(value: u64) -> Option<(u64, Option<Incarnation>)>
    ensures { result ≡
        (if is_number value
        then Some (value, (if nat_lt value max_number then Some (value + 1) else None))
        else None) }
{
    let number = Incarnation::checked(value)?;
    let same = Incarnation::new(number.get());
    Some((same.get(), same.next()))
}
