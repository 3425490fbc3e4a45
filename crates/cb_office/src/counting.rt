//! What is counted of a run.
ghost use Rattle.std.specs.Prelude.{◌≡◌, ◌≤◌, ◌*◌, true, false, length, Ok, Err, IfOk, IsTrue};
ghost use Rattle.sqlite.specs.Held.{state};
ghost use Rattle.sqlite.specs.State.{HasCleanDisk};
ghost use Rattle.cb_office.specs.Tallies.{is_done, jobs_done, jobs_of, with_done};
ghost use Rattle.cb_office.specs.Runs.{IsSumIn, adds_up};

use crate::faults::of_shelf;
use crate::results::Results;
use crate::{EarlyEnding, JobDone, Tally, Watch, counter_sum};
use cb_page::{CommitNo, Limits};
use cb_shelf::Shelf;
use sqlite::Alter;
use std::alloc::Global;
use std::sync::Wait;

/// Counts the results of a run as they come, each job once: those that are there whenever a batch
/// was written. So no more of them lie in their channel than were sent since. Who looks on is told
/// of each batch.
#[derive(Drop)]
pub(crate) struct Counting<'a, R, W> {
    rt: &'a R,
    results: &'a Results,
    watch: &'a mut W,
    tally: Tally,
    /// Whether one was a double, or a stranger's.
    odd: bool,
}

impl<'a, R: Wait, W: Watch> Counting<'a, R, W> {
    /// None of so many jobs of each client is done.
    pub(crate) fn new(
        rt: &'a R,
        alloc: Global,
        limits: &Limits,
        jobs: u32,
        results: &'a Results,
        watch: &'a mut W,
    ) -> Result<Counting<'a, R, W>, EarlyEnding> {
        match Tally::new(alloc, limits.clients(), jobs) {
            Ok(tally) => Ok(Counting {
                rt,
                results,
                watch,
                tally,
                odd: false,
            }),
            Err(_) => Err(EarlyEnding::Memory),
        }
    }

    /// How many jobs were done, once all that did them have ended. A double or a stranger is a
    /// worker's fault.
    pub(crate) fn committed(&mut self) -> Result<u64, EarlyEnding> {
        count_results(self.rt, self.results, &mut self.tally, &mut self.odd);
        committed(&self.tally, self.odd)
    }
}

impl<R: Wait, W: Watch> Watch for Counting<'_, R, W> {
    ghost tells = { λ counting number after. W.tells counting.watch.now number after.watch.now };

    fn begins(&mut self, jobs: u64, number: u64) {
        self.watch.begins(jobs, number);
    }

    fn flushed(&mut self, number: CommitNo) {
        count_results(self.rt, self.results, &mut self.tally, &mut self.odd);
        self.watch.flushed(number);
    }

    fn waits(&mut self) {
        self.watch.waits();
    }
}

/// Counts the results that are there. Whether one was odd is told besides.
fn count_results<R: Wait>(rt: &R, results: &Results, tally: &mut Tally, odd: &mut bool) {
    for done in results.so_far(rt) {
        if !count(tally, done.told()) {
            *odd = true;
        }
    }
}

/// Counts a result; `false` where it is a double or a stranger's.
fn count(tally: &mut Tally, done: JobDone) -> bool
    ensures double { is_done tally.old done.client done.job ≡ true → result ≡ false }
    ensures stranger { length (jobs_of tally.old done.client) ≤ done.job → result ≡ false }
    ensures counted { result ≡ true → tally.new ≡ with_done tally.old done.client done.job }
{
    match tally.add(done) {
        Ok(()) => true,
        Err(_) => false,
    }
}

/// How many jobs were counted; a worker's fault where one result was odd.
fn committed(tally: &Tally, odd: bool) -> Result<u64, EarlyEnding>
    ensures odd { odd ≡ true → result ≡ Err EarlyEnding.Worker }
    ensures counted { odd ≡ false → result ≡ Ok (jobs_done tally.now) }
{
    if odd {
        return Err(EarlyEnding::Worker);
    }
    Ok(tally.committed())
}

/// How many jobs all clients have together.
pub(crate) fn all_jobs(limits: &Limits, jobs: u32) -> u64
    ensures { result ≡ limits.now.clients * jobs }
{
    u64::from(limits.clients()) * u64::from(jobs)
}

/// Whether so many committed jobs are all, or fewer where the run was cut off.
pub(crate) fn adds_up(committed: u64, all: u64, cut_off: bool) -> bool
    ensures { result ≡ adds_up committed all cut_off }
{
    committed == all || (cut_off && committed < all)
}

/// The sum of the counters as the tables have them.
pub(crate) fn sum_up<S: Alter>(alloc: Global, shelf: &mut Shelf<S>) -> Result<u64, EarlyEnding>
    ensures summed { IfOk result (λ sum.
        HasCleanDisk (state S.Store shelf.new.conn)
        → IsTrue (state S.Store shelf.new.conn).is_open
        → IsSumIn (state S.Store shelf.new.conn).now sum) }
    ensures limits { shelf.new.limits ≡ shelf.old.limits }
{
    match shelf.load(alloc) {
        Ok(store) => Ok(counter_sum(&store)),
        Err(fault) => Err(of_shelf(fault)),
    }
}
