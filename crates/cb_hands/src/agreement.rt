//! The laws, each with its statement by name.
ghost use Rattle.cb_hands.specs.Agreement.{CommitLeavesOthers, CopyComes, CopyGoes, EmptyHand};
ghost use Rattle.cb_hands.specs.Agreement.{HandsMeet, OthersStay, PermissionComes};
ghost use Rattle.cb_hands.specs.Agreement.{PermissionsEnd};
ghost use Rattle.cb_hands.specs.OwnHand.{OwnCommit, OwnMessage};
ghost use Rattle.cb_hands.specs.OwnStays.{OwnStays};

/// Hands of two clients that agree with one server show the same version of each page that both
/// hold, and neither may write such a page.
pub fn hands_meet()
    ensures law { HandsMeet }
{}

/// A hand goes on agreeing while another client's message, resending or a flush changes the server.
/// This holds if no commit is applied, and if one is applied to pages that its client alone may
/// write.
pub fn others_stay()
    ensures stay { OthersStay }
    ensures commit { CommitLeavesOthers }
{}

/// At a server that doesn't keep write permissions, a message other than Hello leaves its own
/// client its rows, except one that it gives back. It leaves the client's permissions while the
/// transaction lasts.
pub fn own_stays()
    ensures law { OwnStays }
{}

/// A hand goes on agreeing through its own client's messages. A message does so if it gives back
/// nothing that the hand holds, while the transaction lasts. A commit does so once the written
/// pages are restamped and the permissions ended.
pub fn own_hand_stays()
    ensures message { OwnMessage }
    ensures commit { OwnCommit }
{}

/// A hand that holds nothing agrees. A hand goes on agreeing if it gets a copy whose row the server
/// has, gives a copy back, is told that it may write a page for which its client has the
/// permission, or loses all permissions.
pub fn own_changes()
    ensures empty { EmptyHand }
    ensures comes { CopyComes }
    ensures goes { CopyGoes }
    ensures told { PermissionComes }
    ensures ended { PermissionsEnd }
{}
