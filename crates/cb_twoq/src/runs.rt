//! Many references in turn.

ghost use Rattle.std.specs.Prelude.{◌≡◌, IfOk, OnErr};
ghost use Rattle.cb_twoq.specs.Runs.{Runs};

use crate::chooser::{ChooseFault, Chooser};
use cb_page::{PageNo, PageSet};
use std::alloc::{AllocError, Global};

/// What a reference answers: the page let go, if any, or why it was refused.
pub type Answer = Result<Option<PageNo>, ChooseFault>;

/// Refers to pages in turn, each with the pages that are fixed at that time, and returns what each
/// reference returned.
///
/// `AllocError` only if there is no memory for the answers; then no reference was made.
pub fn run_refs<Q: Chooser>(
    alloc: Global,
    chooser: &mut Q,
    references: &[(PageNo, PageSet)],
) -> Result<Vec<Answer>, AllocError>
    ensures runs { IfOk result (λ answers. Runs (Q.slots chooser.old)
        (Q.members chooser.old) references.now answers.items (Q.members chooser.new)) }
    ensures slots { Q.slots chooser.new ≡ Q.slots chooser.old }
    ensures err { OnErr result (chooser.new ≡ chooser.old) }
{
    let mut answers = Vec::with_capacity(alloc, references.len())?;
    for i in 0..references.len() {
        let (page, fixed) = &references[i];
        let answer = chooser.reference(*page, fixed);
        answers.push_reserved(answer);
    }
    Ok(answers)
}
