//! Laws of a client alone and of a server alone, which their contracts cite. They hold with kept
//! write permission and without it.

ghost use Rattle.std.specs.Prelude.{ℕ, Bool};
ghost use Rattle.cb_protocol.specs.Basics.{Limits};
ghost use Rattle.cb_protocol.specs.Server.{DeadlockTest, Server};
ghost use Rattle.cb_protocol.specs.ClientAlone.{Anything, CallbackAnsweredAtOnce};
ghost use Rattle.cb_protocol.specs.ClientAlone.{DowngradeAnsweredAtOnce, InUseGivenBackOnce};
ghost use Rattle.cb_protocol.specs.StepsKeep.{OthersKeepRowsAndPermissions, PacketsOnlyGrow};
ghost use Rattle.cb_protocol.specs.StepsKeep.{StepsAreAlone};
ghost use Rattle.cb_protocol.specs.Ranges.{ClientMessagesInRange, InputFits, ServerMessagesInRange};

/// A welcomed client, whatever its state, answers each Callback of its incarnation at once with one
/// message: InUse if it holds that grant and its transaction read the page. Otherwise it is a
/// GiveBack of that page and grant, even if the grant never came.
pub fn callback_answered_at_once()
    ensures law { (L : Limits) → CallbackAnsweredAtOnce L }
{}

/// With kept write permission, a welcomed client answers each Downgrade of its incarnation at once
/// with one message: InUse if its transaction uses that permission, else Downgraded, and GiveBack
/// if it doesn't hold the grant. Without it the Downgrade is ignored.
pub fn downgrade_answered_at_once()
    ensures law { (L : Limits) → DowngradeAnsweredAtOnce L }
{}

/// A page whose Callback was answered InUse is given back exactly once when its transaction ends,
/// by its own drop, an AbortNow or a Done, and by no earlier step. At that end each page that is
/// due or bare is given back once, by rising page; if the transaction is dropped, so is each page
/// that it wrote. No other page is given back. If the transaction commits, each permission whose
/// downgrade is due is given up once. This holds whatever is called and received, and also if only
/// messages that fit are received, as in the law of ranges.
pub fn in_use_given_back_once()
    ensures whatever_comes { (L : Limits) → InUseGivenBackOnce L Anything }
    ensures where_it_fits { (L : Limits) → InUseGivenBackOnce L (InputFits L) }
{}

/// If the messages received have pages, numbers and bytes in range, so have all messages sent: by a
/// client, and by a server that has a number left for each message that it takes.
pub fn messages_in_range()
    ensures client { (L : Limits) → ClientMessagesInRange L }
    ensures server { (L : Limits) (cycle : DeadlockTest) → ServerMessagesInRange L cycle }
{}

/// A server's step for a message of one client removes no row, permission, mark or transaction of
/// another client. It may give others rows with new grants, and permissions. Resending and a flush
/// change nothing that clients have.
pub fn others_keep_rows_and_permissions()
    ensures law { (cycle : DeadlockTest) → OthersKeepRowsAndPermissions cycle }
{}

/// In the world a client's step changes that client alone, and a server's step changes no client.
/// Packets are only added.
pub fn steps_are_alone()
    ensures sides { (L : Limits) (cycle : DeadlockTest) → StepsAreAlone L cycle }
    ensures packets { (L : Limits) (cycle : DeadlockTest) → PacketsOnlyGrow L cycle }
{}
