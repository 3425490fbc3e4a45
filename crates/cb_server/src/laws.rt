//! What holds of every server, whatever was called before, as laws over its contracts: a caller has
//! `arose` of [`Server::limits`](crate::Server::limits) and the contract of the call that it made.
ghost use Rattle.cb_server.specs.Knowing.{HellosAloneAreKnown, ResumedKnowTheFloor};
ghost use Rattle.cb_server.specs.ServerLaws.{AsksAreFew, DoomedLayOnCycle, FramesAreTaken};
ghost use Rattle.cb_server.specs.ServerLaws.{NewRowsAreAnswered, NoAskIsForgotten};
ghost use Rattle.cb_server.specs.ServerLaws.{NobodyIsDeadlocked, NobodyWaitsInVain, RulesAreKept};

/// If a page has a write holder, no other client has a row of it, and grant numbers are distinct.
/// No transaction commits twice. Commits are numbered one by one, and the store is the opening
/// store with them written over it, in order.
pub fn rules_are_kept()
    ensures rules { RulesAreKept }
{}

/// No client lies on a cycle of waits. A client has at most one ask, and none while its transaction
/// is doomed.
pub fn nobody_is_deadlocked()
    ensures no_cycle { NobodyIsDeadlocked }
    ensures asks { AsksAreFew }
{}

/// A transaction becomes doomed only if its client lay on a cycle of waits just before the server
/// removed the client's ask.
pub fn doomed_lay_on_a_cycle()
    ensures dooms { DoomedLayOnCycle }
    ensures frames { FramesAreTaken }
{}

/// An ask that waits stays in its queue, or is met by a message that says so, or its client is told
/// that the transaction is aborted, or that transaction ends.
pub fn no_ask_is_forgotten()
    ensures law { NoAskIsForgotten }
{}

/// A new grant is sent in the step in which its ask may have it. No page's first ask waits if it
/// may have what it asks for. Whatever row a call makes, its copy is among that call's messages.
pub fn grants_come_at_once()
    ensures in_time { NobodyWaitsInVain }
    ensures sent { NewRowsAreAnswered }
{}

/// If every incarnation that a server knows is below a number, it stays so at each input except a
/// Hello of an incarnation from that number on. A resumed server knows the floor alone.
pub fn hellos_alone_are_known()
    ensures known { HellosAloneAreKnown }
    ensures resumed { ResumedKnowTheFloor }
{}
