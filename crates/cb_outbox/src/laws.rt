//! How what is said composes, as laws over the protocol's definitions.
ghost use Rattle.std.specs.Prelude.{List};
ghost use Rattle.cb_outbox.specs.Laws.{CarriesOn, GoesOnSettling, RoomIsLeft, StopsSettling};
ghost use Rattle.cb_outbox.specs.Laws.{TestedAfter};
ghost use Rattle.cb_outbox.specs.Saying.{OutboxState};
ghost use Rattle.cb_protocol.specs.Server.{Server, ServerStep};

/// How one list of steps follows another, and the room for both.
pub fn steps_follow_steps()
    ensures done { CarriesOn }
    ensures room { (before after : Server) (steps : Server → List ServerStep)
        (others : List ServerStep) (old new : OutboxState)
        → RoomIsLeft before after steps others old new }
{}

/// A page is settled decision by decision. The steps for an ask that can't be met, with the
/// deadlock test after them, are one decision. A decision that goes on is followed by the others,
/// and one that doesn't is the last.
pub fn pages_are_settled_by_decisions()
    ensures tested { TestedAfter }
    ensures stops { StopsSettling }
    ensures goes_on { GoesOnSettling }
{}
