//! Threads that share a station, as a world of the protocol.
//!
//! `specs/Programs` says what a running program is, and `specs/Steps` what its threads do to it:
//! each step is the record of some call's contract. `specs/Worlds` says which world of the protocol
//! the program is. The laws are in `specs/Laws`. `specs/ByContracts` says which calls are steps, by
//! their contracts, and `specs/Moves` which steps the moves of a worker's call are.
ghost use Rattle.cb_running_laws.specs.ByContracts.{BeginsAreSteps, CallsAreRuns, CallsGoBySteps};
ghost use Rattle.cb_running_laws.specs.ByContracts.{CommitsAreSteps, FetchesLend, FlushesAreSteps};
ghost use Rattle.cb_running_laws.specs.ByContracts.{ForgetsAreSteps, HitsAreSteps, JoinsAreSteps};
ghost use Rattle.cb_running_laws.specs.ByContracts.{LeavesAreSteps, NewStationsHaveOpened};
ghost use Rattle.cb_running_laws.specs.ByContracts.{RefusalsAreSteps, RestartsAreSteps};
ghost use Rattle.cb_running_laws.specs.ByContracts.{ResumedStationsHaveOpened, TellsAreSteps};
ghost use Rattle.cb_running_laws.specs.ByContracts.{TurnsAreSteps, WorkersJoinBySteps};
ghost use Rattle.cb_running_laws.specs.ByContracts.{WorkersLeaveBySteps, WorkersRestartBySteps};
ghost use Rattle.cb_running_laws.specs.ByContracts.{WritesAreSteps};
ghost use Rattle.cb_running_laws.specs.Laws.{HitsAgree, HitsAreTheStores, MailIsTheStores};
ghost use Rattle.cb_running_laws.specs.Laws.{RunsAreSerial, RunsAreWorlds, RunsGoAlong};
ghost use Rattle.cb_running_laws.specs.Laws.{RunsKeepThePromise, WorkersHaveTheLimits};
ghost use Rattle.cb_running_laws.specs.Laws.{WritersAreAlone};

/// Threads make steps at one station and its workers, each under the station's lock or on a worker
/// of its own. Whatever these steps are, a run of the protocol's world goes along with them. At
/// each moment its world has this server, these clients and every frame that is on its way, and its
/// transcript has what was read and written. The whole promise therefore holds of it. What
/// committed transactions read and wrote is serial in commit order, and leaves the store. The bytes
/// that `hit` lends are the store's, unless the worker's own transaction wrote the page. Two
/// workers are lent the same bytes of a page. While a worker's transaction may write a page, no
/// other worker is lent bytes of it. A copy in a mailbox that its client would take is of a row
/// that stands, with the store's bytes.
pub fn runs_are_worlds()
    ensures along { RunsGoAlong }
    ensures worlds { RunsAreWorlds }
    ensures promise { RunsKeepThePromise }
    ensures serial { RunsAreSerial }
    ensures stores { HitsAreTheStores }
    ensures agree { HitsAgree }
    ensures alone { WritersAreAlone }
    ensures mail { MailIsTheStores }
{}

/// By their contracts these calls are steps, in whatever program: the calls of a station and an
/// office that change the station, and a worker's `begin`, `write`, `hit`, `turn_at` and
/// `commit_at`. A new or resumed station without workers has just opened.
pub fn calls_are_steps()
    ensures opens { NewStationsHaveOpened }
    ensures resumes { ResumedStationsHaveOpened }
    ensures joins { JoinsAreSteps }
    ensures restarts { RestartsAreSteps }
    ensures leaves { LeavesAreSteps }
    ensures turns { TurnsAreSteps }
    ensures commits { CommitsAreSteps }
    ensures begins { BeginsAreSteps }
    ensures writes { WritesAreSteps }
    ensures hits { HitsAreSteps }
    ensures flushes { FlushesAreSteps }
    ensures forgets { ForgetsAreSteps }
    ensures tells { TellsAreSteps }
    ensures refusals { RefusalsAreSteps }
{}

/// By their contracts a worker's calls that take the lock are lists of steps, even if they are
/// refused. `join`, `restart` and `leave` are one step of the station, after which the clients are
/// told that are to be told. From there the worker of a new hand goes on by moves, and so does the
/// worker of each other call. Each move is a step of whatever program has the station that the move
/// names. A whole call is therefore a run, whatever others do between its moves, and what `fetch`
/// lends at its end is what `hit` would lend. In a run each worker has the station's limits.
pub fn workers_go_by_steps()
    ensures joins { WorkersJoinBySteps }
    ensures restarts { WorkersRestartBySteps }
    ensures leaves { WorkersLeaveBySteps }
    ensures calls { CallsGoBySteps }
    ensures runs { CallsAreRuns }
    ensures lends { FetchesLend }
    ensures limits { WorkersHaveTheLimits }
{}
