//! The passes of the protocol's proof as laws by name: what a client holds, may write and has read
//! is the server's, and stays so for a commit that comes after its client restarted.
//!
//! The laws are about every world that is reached from a sound opening store, whatever is called,
//! sent, lost, repeated or reordered, whoever restarts, whatever pages are let go and whoever is
//! doomed, with kept write permission and without it.
//!
//! The contracts of `cb_schedule` hand out such worlds. While a world runs (`World::is_running`) it
//! is one that is reached: `IsReached` has the protocol's world that it stands for, the soundness
//! of its opening store and the run (`sound`, `world`, `reached`). `Steps.promise` has the world
//! after a step and that it is reached, and `Played.plays` a run from `Played.first`. These fields
//! are what the laws take, and what a caller cites a law with.
ghost use Rattle.cb_protocol.specs.Basics.{Limits};
ghost use Rattle.cb_protocol.specs.Laws.{Always};
ghost use Rattle.cb_protocol.specs.Server.{DeadlockTest};
ghost use Rattle.cb_protocol.specs.CommitsOnTheirWay.{CommitsFindTheirRows, CommitsKeepTheirRows};
ghost use Rattle.cb_protocol.specs.Passes.{HeldGrantsHaveRows, HeldPagesAreTheStores};
ghost use Rattle.cb_protocol.specs.Passes.{WritersHavePermission};

/// At every moment a grant that a client holds has its row at the server, and no GiveBack of it was
/// sent.
pub fn held_grants_have_rows()
    ensures law { Always (λ opening world. HeldGrantsHaveRows world) }
{}

/// At every moment a page that a client's open transaction may write has its permission at the
/// server.
pub fn writers_have_permission()
    ensures law { Always (λ opening world. WritersHavePermission world) }
{}

/// At every moment a page that a client holds has the store's version and, if it isn't bare, the
/// store's bytes. The exception is a page that the open or committing transaction wrote.
pub fn held_pages_are_the_stores()
    ensures law { Always (λ opening world. HeldPagesAreTheStores world) }
{}

/// The pages that a transaction had locked at its finish, written ones included, keep their rows at
/// the server, and the store keeps the versions that were read. This lasts until the commit is
/// applied or the server takes a greater Hello of the client, even if the client restarts while the
/// Commit is still on its way. In particular, each Commit that was sent finds until then the rows
/// and permissions of the pages that it writes.
pub fn commits_on_their_way_keep_their_rows()
    ensures law { (L : Limits) (cycle : DeadlockTest) → CommitsKeepTheirRows L cycle }
    ensures writes { Always (λ opening world. CommitsFindTheirRows world) }
{}
