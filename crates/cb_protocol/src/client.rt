//! Laws of a client alone: what its transaction keeps of its pages until it ends, and how it ended.
//! They hold with kept write permission and without it.

ghost use Rattle.std.specs.Prelude.{ℕ};
ghost use Rattle.cb_protocol.specs.Basics.{Limits};
ghost use Rattle.cb_protocol.specs.ClientAlone.{Anything};
ghost use Rattle.cb_protocol.specs.ClientLaws.{FixedPagesStay, LastOutcomeIsTrue, NewCopyIsRead};

/// A page that the transaction wrote or wants to write is in the pool, and stays there, fixed,
/// until the transaction ends. A page that it reads stays held and read as long.
pub fn fixed_pages_stay()
    ensures law { (L : Limits) → FixedPagesStay L Anything }
{}

/// A copy that comes in counts as read by the transaction that asked for it.
pub fn new_copy_is_read()
    ensures law { (L : Limits) → NewCopyIsRead L }
{}

/// A client's last outcome tells how its last transaction ended: committed with that number,
/// dropped by the client, or aborted by the server.
pub fn last_outcome_is_true()
    ensures law { (L : Limits) → LastOutcomeIsTrue L }
{}
