ghost use Rattle.std.specs.Prelude.{◌≡◌, ◌≢◌, ◌⊎◌, ◌↔◌, ◌==◌, if◌then◌else◌, ℕ};
ghost use Rattle.std.specs.Prelude.{true, false, IsTrue};
ghost use Rattle.cb_page.specs.Clients.{has};
ghost use Rattle.cb_protocol.specs.WaitsFor.{LiesOnCycle};
ghost use Rattle.cb_waits.specs.Follows.{FollowsQueue};
ghost use Rattle.cb_waits.specs.Graph.{Waits, waits};

use cb_asks::Queue;
use cb_page::{ClientNo, ClientSet};
use std::marker::Model;

/// For each client the set of those that it waits for. No call takes memory.
#[derive(Clone, Drop)]
pub struct View {
    rows: [ClientSet; 32],
}

impl Model for View {
    ghost use Rattle.cb_waits.specs.Graph.{Edges};

    ghost Value = { Edges };

    ghost view = { λ v. v.rows };
}

impl View {
    /// Nobody waits.
    pub fn nobody() -> View
        ensures { (client other : ℕ) → waits result client other ≡ false }
    {
        View {
            rows: [ClientSet::empty(); 32],
        }
    }

    /// The clients that this one waits for.
    pub fn row(&self, client: ClientNo) -> ClientSet
        ensures { (other : ℕ) → has result other ≡ waits self.now client other }
    {
        self.rows[client.index()]
    }

    /// The client waits for the others of the set, and for nobody else.
    pub fn put_row(&mut self, client: ClientNo, others: ClientSet)
        ensures row { (other : ℕ)
            → waits self.new client other ≡ (if other == client then false else has others other) }
        ensures rest { (waiting other : ℕ) → waiting ≢ client
            → waits self.new waiting other ≡ waits self.old waiting other }
    {
        let mut row = others;
        row.remove(client);
        self.rows[client.index()] = row;
    }

    /// Follows a change at a page: each ask in its queue waits for all asks ahead of it, and the
    /// first ask for those who hold it up. A client whose ask has left the queue keeps its row,
    /// which [`View::put_row`] changes. It costs as many steps as asks wait there.
    pub fn follow(&mut self, queue: &Queue, held_up_by: ClientSet)
        ensures { FollowsQueue self.old queue.now.asks held_up_by self.new }
    {
        let mut ahead = ClientSet::empty();
        let mut waited_for = held_up_by;
        for place in 0..queue.len() {
            let Some(client) = queue.client_at(place) else {
                unreachable!();
            };
            self.put_row(client, waited_for);
            ahead.insert(client);
            waited_for = ahead;
        }
    }
}

/// Whether the client waits, in one or more steps, for itself.
pub fn closes_cycle(view: &View, client: ClientNo) -> bool
    ensures { IsTrue result ↔ LiesOnCycle (Waits view.now) client }
{
    let mut reached = view.row(client);
    let mut followed = ClientSet::empty();
    while let Some(next) = reached.difference(followed).first() {
        followed.insert(next);
        reached = reached.union(view.row(next));
    }
    reached.contains(client)
}
