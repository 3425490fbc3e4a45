//! What the flusher asks of the office, and what it tells it.
ghost use Rattle.std.specs.Prelude.{◌≡◌, ◌↔◌, ℕ, false, Err, IfErr, IfOk};
ghost use Rattle.std.specs.Prelude.{OnErr, OnOk, Some};
ghost use Rattle.std.specs.Sync.Mutex.{mutex_guard_value};
ghost use Rattle.sqlite.specs.Held.{state};
ghost use Rattle.sqlite.specs.State.{Survives};
ghost use Rattle.cb_station.specs.Flags.{is_over};
ghost use Rattle.cb_station.specs.Reporting.{ReportsUpTo};
ghost use Rattle.cb_station.specs.Telling.{Tells};
ghost use Rattle.cb_station.specs.Stations.{IsUnchanged, StationState};
ghost use Rattle.cb_office.specs.Ends.{IsWritten};
ghost use Rattle.cb_office.specs.Pacing.{awaited_after};
ghost use Rattle.cb_office.specs.Stopping.{EndsAt};
ghost use Rattle.cb_shelf.specs.Flushing.{WritesOne, WritesOrStays};
ghost use Rattle.cb_shelf.specs.Writing.{Fits, Wrote};

use crate::Watch;
use crate::over::{Next, next_at};
use crate::pace::{Pace, time_since};
use cb_commit::Batch;
use cb_shelf::{Reports, Shelf, ShelfFault, Written, write_and_report};
use cb_station::{Office, Reported, Station};
use sqlite::Alter;
use std::alloc::{AllocError, Global};
use std::sync::{MutexGuard, Wait};
use std::time::{Clock, Instant};

/// Waits for others who commit, where there is something to write: as the pace says.
fn await_others<'a, R: Wait + Clock>(
    rt: &R,
    office: &'a Office,
    station: MutexGuard<'a, Station>,
    pace: &Pace,
) -> MutexGuard<'a, Station> {
    match pace.waits_for(&station) {
        Some(number) => office.wait_for_commit(rt, station, number, pace.limit),
        None => station,
    }
}

/// Waits for more to be committed, which the watch is told: where nothing is left to write, and
/// some call of `work` may still commit.
fn wait_for_more<'a, R: Wait, W: Watch>(
    rt: &R,
    office: &'a Office,
    station: MutexGuard<'a, Station>,
    watch: &mut W,
) -> MutexGuard<'a, Station>
    requires written { IsWritten (mutex_guard_value station) }
    requires goes_on { is_over (mutex_guard_value station).flags ≡ false }
{
    watch.waits();
    office.wait(rt, station)
}

/// The next batch; or that the run is over, once nothing is left to write and no call of `work`
/// commits any more. The watch is told each time that it is waited for. Who is about to commit is
/// waited for as the pace says.
pub(crate) fn next_batch<'a, R: Wait + Clock, W: Watch>(
    rt: &R,
    alloc: Global,
    office: &'a Office,
    watch: &mut W,
    pace: &Pace,
) -> Result<Next<'a>, ShelfFault>
    ensures office { IfOk result (EndsAt office.entry.ref_ptr) }
    ensures fault { IfErr result (λ fault. fault ≡ ShelfFault.Memory) }
{
    let mut station = office.lock_to_wait(rt);
    for _ in rt.forever() {
        station = await_others(rt, office, station, pace);
        if let Some(next) = next_at(alloc, office, &station) {
            return next;
        }
        station = wait_for_more(rt, office, station, watch);
    }
    unreachable!()
}

/// Reports a batch to the station under the lock, and tells all who are to be told of that. A batch
/// whose report is refused is handed back.
fn report_under(
    alloc: Global,
    office: &Office,
    station: &mut Station,
    written: Written,
) -> Result<Reported, Written>
    ensures told { IfOk result (λ reported. reported.number ≡ written) }
    ensures reports { OnOk result ((mid : StationState) × ReportsUpTo written station.old mid
        × Tells mid station.new) }
    ensures unchanged { OnErr result ((mid : StationState) × IsUnchanged station.old mid
        × Tells mid station.new) }
{
    let reported = station.report(alloc, written);
    office.tell(station);
    reported
}

/// The office, to which a batch is reported under its lock (`report_under`). That the station lies
/// there no contract says; what was reported, and that `Station::report` did it, the answer says.
#[derive(Drop)]
struct Desk<'a, R> {
    rt: &'a R,
    office: &'a Office,
}

impl<R: Wait> Reports for Desk<'_, R> {
    type Told = Reported;

    ghost can_report = { λ desk number. Unit {0} };

    ghost tells = { λ desk number reported after. reported.number ≡ number };

    fn report(&mut self, alloc: Global, written: Written) -> Result<Reported, AllocError> {
        match report_under(alloc, self.office, &mut self.office.lock(self.rt), written) {
            Ok(reported) => Ok(reported),
            // Its batch is held, and is written again.
            Err(_written) => Err(AllocError),
        }
    }
}

/// Writes a batch, then reports it, and tells who looks on once it is reported. It holds no lock
/// while it writes.
pub(crate) fn flush_batch<R: Wait + Clock, S: Alter, W: Watch>(
    rt: &R,
    alloc: Global,
    office: &Office,
    shelf: &mut Shelf<S>,
    watch: &mut W,
    pace: &mut Pace,
    batch: &Batch,
) -> Result<Reported, ShelfFault>
    ensures number { IfOk result (λ reported. reported.number ≡ batch.now.number) }
    ensures told { OnOk result (W.tells watch.old batch.now.number watch.new) }
    ensures untold { OnErr result (watch.new ≡ watch.old) }
    ensures paced { OnOk result (pace.new.reported ≡ Some batch.now.number) }
    ensures awaited { IfOk result (λ reported. pace.new.awaited
        ≡ awaited_after pace.old.reported batch.now.number reported.next) }
    ensures limits { shelf.new.limits ≡ shelf.old.limits }
    ensures fits { OnOk result (Fits shelf.old.limits batch.now) }
    ensures shape { (result ≡ Err ShelfFault.Shape) ↔ ¬ Fits shelf.old.limits batch.now }
    ensures untouched { result ≡ Err ShelfFault.Shape → shelf.new ≡ shelf.old }
    ensures written { OnOk result (WritesOne S.Store shelf.old.limits batch.now shelf.old.conn
        shelf.new.conn) }
    ensures refused { OnErr result (WritesOrStays S.Store shelf.old.limits batch.now
        shelf.old.conn shelf.new.conn) }
    ensures crash { Survives (state S.Store shelf.old.conn) (state S.Store shelf.new.conn)
        (Wrote S.Store batch.now shelf.old.conn) }
{
    let start = Instant::now(rt).ok();
    let mut desk = Desk { rt, office };
    let reported = write_and_report(alloc, &mut desk, shelf, batch)?;
    let took = time_since(rt, start);
    pace.report(reported.number(), reported.next(), took);
    watch.flushed(reported.number());
    Ok(reported)
}
