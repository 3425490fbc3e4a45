//! References to pages that are in no slot.

ghost use Rattle.std.specs.Prelude.{◌≡◌, ◌+◌, ◌↔◌, ◌||◌, false, Some, None, IfOk, OnErr};
ghost use Rattle.cb_twoq.specs.Pages.{has};
ghost use Rattle.cb_twoq.specs.Law.{Chooses, IsFull};
ghost use Rattle.cb_twoq.specs.Queues.{AreQueues, reference, members_of};
ghost use Rattle.cb_twoq.specs.Indexed.{queues_of};
ghost use Rattle.cb_twoq.specs.Places.{ArePlaces};

use crate::chooser::ChooseFault;
use crate::twoq::places::come_in;
use crate::twoq::queues::IndexedQueues;
use crate::twoq::steps::is_in;
use cb_page::{PageNo, PageSet};

/// Brings a page that is in no slot in, and answers the page let go for it, if any.
///
/// It stays a call of its own, so that a reference to a page in a slot is short.
#[inline(never)]
pub(crate) fn bring_in(
    queues: &mut IndexedQueues,
    page: PageNo,
    fixed: &PageSet,
) -> Result<Option<PageNo>, ChooseFault>
    requires queues { AreQueues (queues_of queues.old) }
    requires cap { queues.old.am.cap ≡ queues.old.slots + 1 }
    requires places { ArePlaces queues.old.places.items (queues_of queues.old) }
    requires out { (has (queues_of queues.old).am page || has (queues_of queues.old).a1in page)
        ≡ false }
    ensures two_q { IfOk result (λ gone.
        reference page fixed.now (queues_of queues.old) ≡ Some (gone, queues_of queues.new)) }
    ensures none { (result ≡ Err ChooseFault.Full)
        ↔ (reference page fixed.now (queues_of queues.old) ≡ None) }
    ensures ok { IfOk result (λ gone. Chooses queues.old.slots fixed.now
        (members_of (queues_of queues.old)) page gone (members_of (queues_of queues.new))) }
    ensures full { (result ≡ Err ChooseFault.Full)
        ↔ IsFull queues.old.slots fixed.now (members_of (queues_of queues.old)) page }
    ensures err { OnErr result (queues_of queues.new ≡ queues_of queues.old) }
    ensures queues { AreQueues (queues_of queues.new) }
    ensures places { ArePlaces queues.new.places.items (queues_of queues.new) }
    ensures cap { queues.new.am.cap ≡ queues.new.slots + 1 }
    ensures slots { queues.new.slots ≡ queues.old.slots }
{
    let Some(slot) = queues.reclaim(fixed) else {
        return Err(ChooseFault::Full);
    };
    let was_remembered = is_in(&queues.a1out, page);
    let gone = queues.enter(page, slot, was_remembered)?;
    come_in(&mut queues.places, page, was_remembered, &gone);
    Ok(gone)
}
