//! Numbers of grants.
ghost use Rattle.std.specs.Prelude.{◌≡◌, ℕ, ◌+◌, ◌≤◌, ◌↔◌, nat_lt, if◌then◌else◌, Some, None};
ghost use Rattle.std.specs.Prelude.{IsSome, IfSome};
ghost use Rattle.cb_page.specs.Numbers.{IsNumber, is_number, max_number};

use crate::MAX_NUMBER;
use std::marker::Model;

/// The number of a grant: one server's grants are 1, 2, 3 and so on, over all clients and pages.
#[derive(Clone, Copy, Debug, PartialEq, Eq, PartialOrd, Ord)]
pub struct GrantNo {
    value: u64,
}

impl Model for GrantNo {
    ghost Value = { ℕ };

    ghost view = { λ a. a.value };

    ghost invariant = { λ a. (1 ≤ a.value) × (a.value ≤ max_number) };

    ghost inverse = { λ n. record { value = n } };
}

impl GrantNo {
    /// A number that is known to be in range.
    pub fn new(value: u64) -> GrantNo
        requires least { 1 ≤ value }
        requires greatest { value ≤ max_number }
        ensures { result ≡ value }
    {
        GrantNo { value }
    }

    /// Checks a number from outside; `None` if it is 0 or too great.
    pub fn checked(value: u64) -> Option<GrantNo>
        ensures value { IfSome result (λ n. n ≡ value) }
        ensures succeeds { IsSome result ↔ IsNumber value }
    {
        if 1 <= value && value <= MAX_NUMBER {
            Some(GrantNo { value })
        } else {
            None
        }
    }

    /// The plain number.
    pub fn get(self) -> u64
        ensures value { result ≡ self }
        ensures least { 1 ≤ result }
        ensures greatest { result ≤ max_number }
    {
        self.value
    }

    /// The next grant's number; `None` if all numbers are used up.
    pub fn next(self) -> Option<GrantNo>
        ensures value { IfSome result (λ n. n ≡ self + 1) }
        ensures succeeds { IsSome result ↔ (self + 1 ≤ max_number) }
    {
        GrantNo::checked(self.value + 1)
    }
}

/// The law of these calls: a number from outside that is in range gives itself and the next one.
fn law(value: u64) -> Option<(u64, Option<GrantNo>)>
    ensures { result ≡
        (if is_number value
        then Some (value, (if nat_lt value max_number then Some (value + 1) else None))
        else None) }
{
    let number = GrantNo::checked(value)?;
    let same = GrantNo::new(number.get());
    Some((same.get(), same.next()))
}
