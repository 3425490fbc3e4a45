//! The permission to read one page.
ghost use Rattle.std.specs.Prelude.{◌≡◌};

use cb_page::{GrantNo, Version};
use std::marker::Model;

/// What a grant says: its number, and the version of the page.
#[derive(Clone, Copy, PartialEq, Eq)]
pub struct Held {
    pub grant: GrantNo,
    pub version: Version,
}

/// What a hand shows of a page that it holds.
#[derive(Clone, Copy, Debug, PartialEq, Eq)]
pub struct Shown {
    pub grant: GrantNo,
    pub version: Version,
    /// Whether the client's transaction was told that it may write the page.
    pub may_write: bool,
}

impl From<Shown> for (GrantNo, Version, bool) {
    ghost from_gives = { λ shown triple. triple ≡ (shown.grant, shown.version, shown.may_write) };

    fn from(shown: Shown) -> (GrantNo, Version, bool) {
        (shown.grant, shown.version, shown.may_write)
    }
}

/// The permission to read one page. It can't be copied or dropped. A hand gets it when the server's
/// grant comes, and spends it when the copy goes.
pub struct Grant {
    held: Held,
}

impl Model for Grant {
    ghost use Rattle.cb_hands.specs.declared.grant.Held.{Held};

    ghost Value = { Held };

    ghost view = { λ g. g.held };
}

impl Grant {
    pub(crate) fn new(held: Held) -> Grant
        ensures { result ≡ held }
    {
        Grant { held }
    }

    /// What it says.
    pub fn held(&self) -> Held
        ensures { result ≡ self.now }
    {
        self.held
    }

    pub(crate) fn spend(self) {
        let Grant { held: _ } = self;
    }
}
