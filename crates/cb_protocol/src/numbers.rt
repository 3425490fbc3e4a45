//! Laws of the numbers and the room that a step of the server needs, which code is to have
//! before it begins.

ghost use Rattle.std.specs.Prelude.{ℕ, Bool};
ghost use Rattle.cb_protocol.specs.AnyMessages.{Input};
ghost use Rattle.cb_protocol.specs.Basics.{Limits};
ghost use Rattle.cb_protocol.specs.Numbers.{GrantsLeftAtFirst, GrantsNeverRunOut};
ghost use Rattle.cb_protocol.specs.Numbers.{SettlingSendsAtMost, SettlingTakesKeptGrants};
ghost use Rattle.cb_protocol.specs.Numbers.{StepSendsAtMost};
ghost use Rattle.cb_protocol.specs.Server.{DeadlockTest, Server};

/// Settling takes only grant numbers that are kept for the read asks that wait. Take a new server
/// to which anything is handed that isn't refused as exhausted. All grants that it gives are in
/// range, and each ask that waits can still have one.
pub fn grants_never_run_out()
    ensures settling { (cycle : DeadlockTest) (server : Server)
        → SettlingTakesKeptGrants cycle server }
    ensures at_first { (L : Limits) → GrantsLeftAtFirst L }
    ensures stays { (cycle : DeadlockTest) (server : Server) (input : Input)
        → GrantsNeverRunOut cycle server input }
{}

/// The asks that wait when settling begins bound the messages that it sends, and there is at most
/// one copy of a page for each read ask. Since a client has at most one ask, the number of clients
/// bounds what a step sends.
pub fn messages_are_bounded()
    ensures settling { (cycle : DeadlockTest) (server : Server)
        → SettlingSendsAtMost cycle server }
    ensures step { StepSendsAtMost }
{}
