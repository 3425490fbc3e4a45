//! Counts that are kept as entries change.
ghost use Rattle.std.specs.Prelude.{◌≡◌, ◌+◌, ◌<◌, ◌≤◌, ◌^◌};
ghost use Rattle.cb_page.specs.Counting.{bit};

/// The new count of entries after one of them changed. `was` says whether that entry was counted
/// before, `is` whether it is counted now.
pub fn recount(count: usize, was: bool, is: bool) -> usize
    requires some { bit was ≤ count }
    requires most { count < 2 ^ 63 }
    ensures { result + bit was ≡ count + bit is }
{
    count - was as usize + is as usize
}
