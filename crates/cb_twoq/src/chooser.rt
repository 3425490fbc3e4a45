ghost use Rattle.std.specs.Prelude.{◌≡◌, ◌≤◌, ◌↔◌, ℕ, Bool, List, [], length, Option, true, None};
ghost use Rattle.std.specs.Prelude.{IfOk, OnErr};
ghost use Rattle.cb_twoq.specs.Pages.{has};
ghost use Rattle.cb_twoq.specs.Law.{Chooses, IsFull, Forgets};

use cb_page::{Limits, PageNo, PageSet};
use std::alloc::{AllocError, Global};
use std::fmt;
use thiserror::Error;

/// Why a reference was refused. Nothing changed then. It is printed as its number and its name.
#[derive(Clone, Copy, Debug, PartialEq, Eq, Error)]
pub enum ChooseFault {
    /// The page has no slot, and each slot has a fixed page.
    Full,
    /// A growth was refused.
    Memory,
}

impl fmt::Display for ChooseFault {
    ghost use Rattle.std.specs.Prelude.{Some};
    ghost use Rattle.cb_twoq.specs.FaultTexts.{fault_text};

    ghost output = { λ fault. Some (fault_text fault) };

    fn fmt<W: fmt::Write>(&self, f: &mut fmt::Formatter<W>) -> fmt::Result {
        let text = match self {
            ChooseFault::Full => "1 Full",
            ChooseFault::Memory => "2 Memory",
        };
        write!(f, "{text}")
    }
}

impl From<AllocError> for ChooseFault {
    ghost use Rattle.cb_twoq.specs.declared.chooser.ChooseFault.TheVariants.{Memory};

    ghost from_gives = { λ _ fault. fault ≡ Memory };

    fn from(_: AllocError) -> ChooseFault {
        ChooseFault::Memory
    }
}

/// A call that changes a chooser, as it stands in a history. A refused reference isn't one.
#[derive(Clone, Copy)]
pub enum ChooserCall {
    /// The page was referred to.
    Reference(PageNo),
    /// It was taken out.
    Forget(PageNo),
}

/// Chooses which page leaves a pool for the page that comes in.
///
/// The clauses are the whole law of a chooser. Whatever is proved of a pool, and of all that uses
/// pools, holds for every type that keeps this law, whichever pages it lets go. A type may promise
/// more, as `TwoQ` does.
pub trait Chooser: Drop {
    /// The pages in slots, each once.
    ghost members: { Self → List ℕ };

    /// How many slots there are, which no call changes.
    ghost slots: { Self → ℕ };

    /// What a reference to a page makes of the chooser, while these pages are fixed; the option is
    /// the page that is let go. A type may say less than all of it.
    ghost refers: { Self → ℕ → List Bool → Option ℕ → Self → Type 0 };

    /// What the chooser is once a page was removed. A type may say less than all of it.
    ghost takes_out: { Self → ℕ → Self → Type 0 };

    /// Makes a chooser with no members and as many slots as the limits say. It is refused only if a
    /// growth is.
    fn make(alloc: Global, limits: &Limits) -> Result<Self, AllocError>
    where
        Self: Sized,
        ensures members { IfOk result (λ chooser. members chooser ≡ []) }
        ensures slots { IfOk result (λ chooser. slots chooser ≡ limits.now.slots) };

    /// Refers to a page, which is a member afterwards, and returns the page that was let go for it,
    /// if any.
    ///
    /// A reference to a member takes no memory and lets nothing go.
    fn reference(&mut self, page: PageNo, fixed: &PageSet) -> Result<Option<PageNo>, ChooseFault>
        ensures ok { IfOk result (λ gone.
            Chooses (slots self.old) fixed.now (members self.old) page gone (members self.new)) }
        ensures member { has (members self.old) page ≡ true → result ≡ Ok None }
        ensures full { (result ≡ Err ChooseFault.Full)
            ↔ IsFull (slots self.old) fixed.now (members self.old) page }
        ensures err { OnErr result (self.new ≡ self.old) }
        ensures within { length (members self.new) ≤ slots self.new }
        ensures slots { slots self.new ≡ slots self.old }
        ensures refers { IfOk result (λ gone.
            refers self.old page fixed.now gone self.new) };

    /// Removes a page, if it is a member. It takes no memory.
    fn forget(&mut self, page: PageNo)
        ensures forgets { Forgets (members self.old) page (members self.new) }
        ensures slots { slots self.new ≡ slots self.old }
        ensures takes_out { takes_out self.old page self.new };
}
