//! The answers to C.
ghost use Rattle.std.specs.Prelude.{◌≡◌, ◌≤◌, MatchResult};
ghost use Rattle.cb_handle.specs.Faults.{number_of};

use cb_handle::HandleRefusal;

/// The number that a call returns: 0 if it is done, otherwise the refusal's, which is never 0.
pub(crate) fn answer(done: Result<(), HandleRefusal>) -> u32
    ensures { MatchResult done (λ _. result ≡ 0)
        (λ refusal. (result ≡ number_of refusal) × (1 ≤ result)) }
{
    match done {
        Ok(()) => 0,
        Err(refusal) => refusal.number(),
    }
}
