//! What a history of calls says of 2Q, as a law.
ghost use Rattle.std.specs.Prelude.{◌≡◌};
ghost use Rattle.cb_twoq.specs.Calls.{Calls, Leads, lists_after};
ghost use Rattle.cb_twoq.specs.Queues.{TwoQState};

use crate::chooser::Chooser;
use crate::plain::PlainTwoQ;
use crate::twoq::TwoQ;

/// Calls that lead from one 2Q to another change its three lists as the published rules do, call by
/// call. This holds of both forms.
pub fn calls_make_the_lists()
    ensures indexed { (first now : TwoQState) (calls : Calls)
        → Leads ⟦<TwoQ as Chooser>⟧ first calls now → now ≡ lists_after calls first }
    ensures plain { (first now : TwoQState) (calls : Calls)
        → Leads ⟦<PlainTwoQ as Chooser>⟧ first calls now → now ≡ lists_after calls first }
{}
