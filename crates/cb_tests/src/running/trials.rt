//! What is tried over an office and a shelf, which one function makes and lends.
ghost use Rattle.std.specs.Prelude.{◌≡◌, false};

use crate::office::case::is_worked_through;
use crate::office::limits::works_at_the_greatest;
use crate::running::alone::commits_and_leaves;
use crate::running::clocks::OwnClock;
use crate::running::disks::{NONE, once};
use crate::running::flags::{Flags, Moment, follows, wakes};
use crate::running::gates::Counts;
use crate::running::giving_up::drops_and_gives_up;
use crate::running::late::{comes_too_late, is_skipped, is_skipped_beside};
use crate::running::looking::Looks;
use crate::running::numbers::are_answered_their_own;
use crate::running::other_limits::is_refused_with_others;
use crate::running::pacing::keeps_pace;
use crate::running::refusals::{BetweenTries, is_refused_at_first};
use crate::running::run::came_in;
use crate::running::sharing::are_shared;
use crate::running::tickets::{Wake, ends_its_wait, goes_on_until_halted};
use crate::running::unwatched::is_counted;
use crate::running::work::{ShelfTask, WorkEnd, opening};
use cb_page::{ClientNo, Limits};
use cb_shelf::{Shelf, ShelfFault};
use cb_station::{Office, Station};
use cb_twoq::{Chooser, TwoQ};
use cb_worker::Worker;
use sqlite::Alter;
use std::alloc::Global;
use std::sync::Wait;
use std::thread::Threads;
use std::time::Clock;

/// What is tried over an office and a shelf, both of zeros.
#[derive(Clone, Copy)]
pub(crate) enum Trial<'a> {
    /// Two clients of a station go through a worked case, step by step.
    Station,
    /// A client of a station at the greatest limits commits.
    Greatest,
    /// So many calls of `work` are left to use the office, and these moments come one after
    /// another, each with the flags that it leaves.
    Flagged(usize, &'a [(Moment, Flags)]),
    /// Threads wait until this moment, which leaves these flags.
    Woken(Moment, Flags),
    /// Four threads commit at once.
    Shared,
    /// Two workers commit side by side, and are each answered a number.
    Numbered,
    /// A client reads, writes, commits and leaves.
    Alone,
    /// A client drops its transaction, restarts, and gives up.
    GivingUp,
    /// A call of `work` comes to a closed office, in which another is going on.
    Late,
    /// One's client can't join an office for two, in which another is going on.
    Skipped,
    /// One doesn't begin in an office for two, which is closed while another is going on.
    SkippedBeside,
    /// Clients come with limits that aren't the office's.
    OtherLimits,
    /// A batch is refused at first.
    Refused(BetweenTries),
    /// A try waits to be let in until this ends its wait.
    Entered(Wake),
    /// A client's tries are let in one after another, until the office is halted.
    GoingOn,
    /// The flusher waits for those whom it told, by this clock.
    Paced(&'a OwnClock),
    /// Workers of four clients run, and nobody looks on.
    Unwatched,
    /// Workers run.
    Run(&'a Counts),
    /// The same, in the office that is looked at.
    LookedAt(Looks<'a>),
}

/// How many calls of `work` the office is for.
fn calls_of(trial: Trial<'_>) -> usize {
    match trial {
        Trial::Flagged(calls, _) => calls,
        Trial::Run(counts) => usize::from(counts.plan.clients),
        Trial::Unwatched => 4,
        Trial::Skipped | Trial::SkippedBeside => 2,
        _ => 1,
    }
}

/// Whether a worker of client 0, the only one, does as it should.
fn works<Q: Chooser, R: Wait, S: Alter>(
    rt: &R,
    alloc: Global,
    limits: &Limits,
    office: &Office,
    shelf: &mut Shelf<S>,
    leaves: bool,
) -> bool {
    let Ok(chooser) = Q::make(alloc, limits) else {
        return false;
    };
    match Worker::join(rt, alloc, office, limits, ClientNo::new(0), chooser) {
        Ok(worker) if leaves => commits_and_leaves(rt, alloc, office, shelf, worker),
        Ok(worker) => drops_and_gives_up(rt, alloc, office, worker),
        Err(_) => false,
    }
}

/// What comes of it in an office over a shelf.
fn comes_with<R: Wait + Threads + Clock + Sync, S: Alter>(
    trial: Trial<'_>,
    rt: &R,
    alloc: Global,
    limits: &Limits,
    office: &Office,
    shelf: &mut Shelf<S>,
) -> WorkEnd {
    let well = match trial {
        Trial::Station => is_worked_through(alloc, shelf),
        Trial::Greatest => works_at_the_greatest(alloc, limits, shelf),
        Trial::Flagged(_, moments) => follows(rt, alloc, office, moments),
        Trial::Woken(moment, flags) => wakes(rt, alloc, office, moment, flags),
        Trial::Shared => are_shared(rt, alloc, office),
        Trial::Numbered => are_answered_their_own(rt, alloc, limits, office, shelf),
        Trial::Alone => works::<TwoQ, R, S>(rt, alloc, limits, office, shelf, true),
        Trial::GivingUp => works::<TwoQ, R, S>(rt, alloc, limits, office, shelf, false),
        Trial::Late => comes_too_late::<TwoQ, R>(rt, alloc, limits, office),
        Trial::Skipped => is_skipped::<TwoQ, R>(rt, alloc, limits, office),
        Trial::SkippedBeside => is_skipped_beside(rt, office),
        Trial::OtherLimits => is_refused_with_others::<TwoQ, R>(rt, alloc, limits, office),
        Trial::Refused(between) => is_refused_at_first(rt, alloc, limits, office, shelf, between),
        Trial::Entered(wake) => ends_its_wait(rt, alloc, limits, office, wake),
        Trial::GoingOn => goes_on_until_halted(rt, alloc, limits, office),
        Trial::Paced(clock) => keeps_pace(rt, alloc, office, shelf, clock),
        Trial::Unwatched => is_counted(rt, alloc, limits, office, shelf),
        Trial::Run(counts) => {
            return WorkEnd::Ran(came_in(rt, alloc, limits, office, shelf, counts));
        }
        Trial::LookedAt(looks) => {
            let Looks { office, counts } = looks;
            return WorkEnd::Ran(came_in(rt, alloc, limits, office, shelf, counts));
        }
    };
    WorkEnd::Well(well)
}

/// What comes of it over a shelf: the office is over what that holds.
pub(crate) fn comes_over<R: Wait + Threads + Clock + Sync, S: Alter>(
    trial: Trial<'_>,
    rt: &R,
    alloc: Global,
    limits: &Limits,
    shelf: &mut Shelf<S>,
) -> WorkEnd
    requires plain { limits.now.keep_write ≡ false }
    requires shelf { shelf.old.limits ≡ limits.now }
{
    let store = match shelf.load(alloc) {
        Ok(store) => store,
        Err(fault) => return WorkEnd::Refused(fault),
    };
    match Station::new(alloc, limits, store) {
        Ok(station) => {
            let office = Office::new(station, calls_of(trial));
            comes_with(trial, rt, alloc, limits, &office, shelf)
        }
        Err(_) => WorkEnd::Refused(ShelfFault::Memory),
    }
}

/// Whether it goes well over a new database, of four clients.
pub(crate) fn goes_well<R: Wait + Threads + Clock + Sync>(
    trial: Trial<'_>,
    rt: &R,
    alloc: Global,
) -> bool {
    let work = opening(ShelfTask::Try(trial));
    once(rt, alloc, 4, NONE, work) == WorkEnd::Well(true)
}
