//! Laws of in-use marks and write permissions at the server.

ghost use Rattle.cb_protocol.specs.Downgrades.{DowngradesRise, HolderStaysWhileReadWaits};
ghost use Rattle.cb_protocol.specs.Marks.{DroppedHoldNothing, KeptHoldersHaveRows, KeptHoldsUp};
ghost use Rattle.cb_protocol.specs.Marks.{MarksLive, MarksSetAndTaken};

/// A mark belongs to a client with a copy of the page and a live transaction. It is there from the
/// client's InUse until the client gives the copy back or the transaction ends, and at no other
/// time. A step for one page or client touches no other mark.
pub fn marks_are_live()
    ensures live { MarksLive }
    ensures set_and_taken { MarksSetAndTaken }
{}

/// A transaction that ends as dropped leaves its client no write permission, whether its Drop, a
/// message of a later transaction or a greater Hello ends it.
pub fn dropped_hold_nothing()
    ensures law { DroppedHoldNothing }
{}

/// With kept write permission each write holder has a copy of the page, and the first ask for
/// a page is held up by exactly the clients that use the page, or that may write it now.
pub fn kept_permissions_have_rows()
    ensures rows { KeptHoldersHaveRows }
    ensures holds_up { KeptHoldsUp }
{}

/// Downgrades for one ask have rising tags, so each permission is called back once for it: while a
/// read ask waits as the first, the page's holder stays the same, and its tag rises.
pub fn downgrades_rise()
    ensures once { DowngradesRise }
    ensures holder_stays { HolderStaysWhileReadWaits }
{}
