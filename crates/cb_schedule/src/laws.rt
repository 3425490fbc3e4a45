//! The serial check of what a world tells.
ghost use Rattle.std.specs.Prelude.{◌≡◌, IfOk};
ghost use Rattle.cb_transcript.specs.declared.serial.Verdict.TheVariants as verdict;

use crate::world::World;
use cb_transcript::{Verdict, check_serial};
use cb_twoq::Chooser;
use std::alloc::{AllocError, Global};

/// The serial check of a world's transcript says `Serial`, whatever was played, or memory was
/// refused.
pub fn worlds_are_serial<Q: Chooser>(alloc: Global, world: &World<Q>) -> Result<Verdict, AllocError>
    ensures { IfOk result (λ v. v ≡ verdict.Serial) }
{
    check_serial(alloc, world.transcript())
}
