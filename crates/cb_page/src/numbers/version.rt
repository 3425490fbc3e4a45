//! Versions of pages.
ghost use Rattle.std.specs.Prelude.{◌≡◌, ℕ, ◌≤◌, ◌↔◌, if◌then◌else◌, Some, None, IsSome, IfSome};
ghost use Rattle.cb_page.specs.Numbers.{is_version, max_number};

use crate::MAX_NUMBER;
use std::marker::Model;

/// The version of a page: the number of the commit that wrote it last, and 0 before any did.
#[derive(Clone, Copy, Debug, PartialEq, Eq, PartialOrd, Ord)]
pub struct Version {
    value: u64,
}

impl Model for Version {
    ghost Value = { ℕ };

    ghost view = { λ a. a.value };

    ghost invariant = { λ a. a.value ≤ max_number };

    ghost inverse = { λ n. record { value = n } };
}

impl Version {
    /// A version that is known to be in range.
    pub fn new(value: u64) -> Version
        requires { value ≤ max_number }
        ensures { result ≡ value }
    {
        Version { value }
    }

    /// Checks a version from outside; `None` if it is too great.
    pub fn checked(value: u64) -> Option<Version>
        ensures value { IfSome result (λ n. n ≡ value) }
        ensures succeeds { IsSome result ↔ (value ≤ max_number) }
    {
        if value <= MAX_NUMBER {
            Some(Version { value })
        } else {
            None
        }
    }

    /// The plain number.
    pub fn get(self) -> u64
        ensures value { result ≡ self }
        ensures greatest { result ≤ max_number }
    {
        self.value
    }
}

/// The law of these calls: a version from outside that is in range gives itself.
fn law(value: u64) -> Option<u64>
    ensures { result ≡ (if is_version value then Some value else None) }
{
    let version = Version::checked(value)?;
    Some(Version::new(version.get()).get())
}
