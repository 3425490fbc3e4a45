//! Numbers of pages.
ghost use Rattle.std.specs.Prelude.{◌≡◌, ℕ, ◌<◌, ◌↔◌, nat_lt, if◌then◌else◌, Some, None, IsSome};
ghost use Rattle.std.specs.Prelude.{IfSome};
ghost use Rattle.cb_page.specs.Bounds.{AreInRange};

use crate::Limits;
use std::marker::Model;

/// The number of a page, counted from 0.
#[derive(Clone, Copy, Debug, PartialEq, Eq, PartialOrd, Ord, Hash)]
pub struct PageNo {
    value: u32,
}

impl Model for PageNo {
    ghost Value = { ℕ };

    ghost view = { λ a. a.value };

    ghost invariant = { λ a. a.value < 4096 };

    ghost inverse = { λ n. record { value = n } };
}

impl PageNo {
    /// The number of a page that is known to be in range.
    pub fn new(value: u32) -> PageNo
        requires { value < 4096 }
        ensures { result ≡ value }
    {
        PageNo { value }
    }

    /// The number as one of this store's pages; `None` if the store has no such page.
    pub fn in_store(limits: &Limits, value: u64) -> Option<PageNo>
        ensures value { IfSome result (λ n. n ≡ value) }
        ensures succeeds { IsSome result ↔ (value < limits.now.pages) }
        ensures in_range { AreInRange limits.now }
    {
        if value < u64::from(limits.pages()) {
            Some(PageNo {
                value: value as u32,
            })
        } else {
            None
        }
    }

    /// The plain number.
    pub fn get(self) -> u32
        ensures value { result ≡ self }
        ensures greatest { result < 4096 }
    {
        self.value
    }

    /// The number as a place in a table of all pages.
    pub fn index(self) -> usize
        ensures value { result ≡ self }
        ensures greatest { result < 4096 }
    {
        self.get() as usize
    }
}

/// The law of these calls: a number from outside that is one of the store's gives itself, as a
/// place too.
fn law(limits: &Limits, value: u64) -> Option<(u32, usize)>
    ensures { result ≡ (if nat_lt value limits.now.pages then Some (value, value) else None) }
{
    let number = PageNo::in_store(limits, value)?;
    let same = PageNo::new(number.get());
    Some((same.get(), same.index()))
}
