//! What one life of a server leaves to the next one, wherever it stops; and which world of the
//! protocol a service and its clients are.
//!
//! These laws put together what `cb_serve` says of rounds, what `cb_shelf_laws` says of a file's
//! rows, and what `cb_client` says of clients.
ghost use Rattle.cb_running_laws.specs.NextLife.{NextLifeIsNew};
ghost use Rattle.cb_running_laws.specs.ProcessLaws.{CopiesAgree, ProcessesAreSerial};
ghost use Rattle.cb_running_laws.specs.ProcessLaws.{ProcessesGoAlong, ProcessesKeepThePromise};
ghost use Rattle.cb_running_laws.specs.ProcessLaws.{RunsAreServed, WritersAreAlone};
ghost use Rattle.cb_running_laws.specs.ServedFile.{DonesStand, LivesFollow, RoundsAreSteps};
ghost use Rattle.cb_running_laws.specs.ServedFile.{ServicesRestart};

use sqlite::Alter;

/// Suppose that a service did any rounds over a shelf's tables, which had the row of its life. Then
/// every incarnation that its server knows is below the floor of each life that may follow over the
/// tables.
pub fn next_life_is_new<S: Alter>()
    ensures law { NextLifeIsNew S.Store }
{}

/// Whatever a service and its clients do, and whatever comes through between them, a run of the
/// protocol's world goes along. Each step is a round of the service (`IsRoundOfLife`), a call of a
/// `Client`, a frame that a client takes, or a process that begins an incarnation of a client. The
/// service may also stop, even within a round. At each moment the world has this server, while it
/// runs, these clients and every frame that was sent, and its transcript has what was read and
/// written. The whole promise therefore holds of it. What committed transactions read and wrote is
/// serial in commit order, and leaves the store. Two processes that began in this life and have
/// bytes of one page have the same bytes. While a transaction may write a page, no other such
/// process has bytes of it. The rounds of the run are `AreRounds`; the converse is no law.
///
/// Any frame that was sent may come, once, often or never, in any order, and so may bytes that are
/// no frame. Four premises aren't clauses of any call. No frame comes that no client sent, except
/// of incarnations below the floor. The server has a number left for each frame that a round takes:
/// `serve` takes no other, but `IsRound` doesn't say so. A process has an incarnation above the
/// floor and above the earlier ones of its client, and the process before it does nothing more. Its
/// client has the service's limits.
pub fn processes_are_worlds<S: Alter>()
    ensures along { ProcessesGoAlong S.Store }
    ensures promise { ProcessesKeepThePromise S.Store }
    ensures serial { ProcessesAreSerial S.Store }
    ensures agree { CopiesAgree S.Store }
    ensures alone { WritersAreAlone S.Store }
    ensures served { RunsAreServed S.Store }
{}

/// The law is about a file from its first open on, over which any services run one after another.
/// Each begins by `begin_life` over the tables that the one before left, and each may stop
/// anywhere. A round consists of steps: its pieces are taken in memory, the tables get room, the
/// answers go out, a batch is written, and it is reported. What a service told is its server as it
/// was when bytes last went out.
///
/// When a service begins, that is a restart of the server which the service before told, and it may
/// happen in whatever world over all lives that service belonged to. The floor is therefore a new
/// one, the new server is `server_of_life` over `store_on_disk`, and the number on disk is one
/// between the last that was reported and the last that was made. At any moment the tables answer
/// the first store with the commits that stand written over it. Each Done that went out, from
/// whichever service, is of one of these commits. On a clean disk, rounds as `serve` does them are
/// such steps. After `begin_life`, such rounds and a stop, the next life is therefore a restart of
/// that server.
///
/// By the definition of a step, a stop keeps what was committed, and nobody else writes the file.
/// What the first open found, and its premises, are as in `loads_follow_commits` of
/// `cb_shelf_laws`. Each service has limits of its own, of which the tables fix the pages and
/// their size.
pub fn services_are_lives<S: Alter>()
    ensures restart { ServicesRestart S.Store }
    ensures stand { DonesStand S.Store }
    ensures rounds { RoundsAreSteps S.Store }
    ensures follow { LivesFollow S.Store }
{}
