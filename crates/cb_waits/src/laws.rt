//! Laws of the kept waits-for view.
ghost use Rattle.std.specs.Prelude.{◌≡◌, ◌<◌, ◌++◌, ◌∷◌, ◌&&◌, ◌==◌, ◌↔◌, not, ℕ, List, Bool};
ghost use Rattle.std.specs.Prelude.{IsTrue, false};
ghost use Rattle.cb_protocol.specs.Deadlock.{OneAsk};
ghost use Rattle.cb_protocol.specs.Server.{Server, WaitingAsk, has_ask};
ghost use Rattle.cb_protocol.specs.WaitsFor.{AsksInRange, LiesOnCycle, holds_up, on_cycle};
ghost use Rattle.cb_protocol.specs.WaitsFor.{waits_for};
ghost use Rattle.cb_waits.specs.Graph.{Edges, Waits};
ghost use Rattle.cb_waits.specs.Follows.{Follows, waited_for};

/// For whom a client waits follows from the place of its ask in the queue; without an ask it waits
/// for nobody. A view that has these edges gives the same answers as the protocol's deadlock test.
pub fn waits_by_place()
    ensures place { (server : Server) → OneAsk server.queue → (page : ℕ) → page < server.pages
        → (front back : List WaitingAsk) (ask : WaitingAsk)
        → server.queue page ≡ front ++ ask ∷ back
        → (other : ℕ) → waits_for server ask.client other
        ≡ (not (ask.client == other) && waited_for (holds_up server page ask) front other) }
    ensures none { (server : Server) (client : ℕ)
        → ((page : ℕ) → has_ask client (server.queue page) ≡ false)
        → (other : ℕ) → waits_for server client other ≡ false }
    ensures test { (view : Edges) (server : Server) → AsksInRange server
        → Follows view server → (client : ℕ) (answer : Bool)
        → IsTrue answer ↔ LiesOnCycle (Waits view) client → answer ≡ on_cycle server client }
{}
