//! What a step sends at most, as laws over the protocol's definitions.
ghost use Rattle.std.specs.Prelude.{◌≡◌, ◌≤◌, ◌+◌, ◌∷◌, [], ℕ, false, length};
ghost use Rattle.cb_outbox.specs.Saying.{HasRoomFor, OutboxState};
ghost use Rattle.cb_protocol.specs.Messages.{Body, Welcome};
ghost use Rattle.cb_protocol.specs.Numbers.{HasGrantsLeft};
ghost use Rattle.cb_protocol.specs.Server.{ChangeSession, DeadlockTest, ForgetTransaction, Send};
ghost use Rattle.cb_protocol.specs.Server.{Server, WaitingAsk, server_after};
ghost use Rattle.cb_protocol.specs.ServerMessages.{begin_transaction, direct_answer, enter_queue};
ghost use Rattle.cb_protocol.specs.ServerMessages.{lacks_number};
ghost use Rattle.cb_protocol.specs.Session.{Admit};
ghost use Rattle.cb_protocol.specs.WaitsFor.{on_cycle};

/// An ask that enters a queue is answered by one message at most, and by no copy.
pub fn an_ask_sends_at_most_one()
    ensures { (server : Server) (page : ℕ) (ask : WaitingAsk) (outbox : OutboxState)
        → length outbox.sent + 1 ≤ outbox.room
        → HasRoomFor (enter_queue on_cycle server page ask) outbox }
{}

/// A grant number is left for each ask to read that waits, even in the middle of a step: once a
/// message's transaction has begun, once the message is answered (if it doesn't lack a number
/// itself), and once a greater incarnation is admitted.
pub fn grants_are_left()
    ensures begins { (server : Server) (client txn : ℕ) → HasGrantsLeft server
        → HasGrantsLeft (server_after server (begin_transaction server client txn)) }
    ensures answers { (cycle : DeadlockTest) (server : Server) (client : ℕ) (body : Body)
        → HasGrantsLeft server → lacks_number server client body ≡ false
        → HasGrantsLeft (server_after server (direct_answer cycle server client body)) }
    ensures admits { (server : Server) (client incarnation : ℕ) → HasGrantsLeft server
        → HasGrantsLeft (server_after server
        (ForgetTransaction client ∷ ChangeSession client (Admit incarnation)
        ∷ Send client incarnation Welcome ∷ [])) }
{}
