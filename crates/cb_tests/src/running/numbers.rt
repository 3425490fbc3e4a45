//! Workers that commit side by side: each is answered the number of its own commit.
use crate::running::trials::{Trial, goes_well};
use cb_hands::Entry;
use cb_page::{ClientNo, CommitNo, Incarnation, Limits, PageNo, TxnNo, Version};
use cb_shelf::Shelf;
use cb_station::{Office, Station};
use cb_twoq::{Chooser, TwoQ};
use cb_worker::{Fetched, Finished, Wanted, Worker, WorkerFault};
use sqlite::Alter;
use std::alloc::Global;
use std::sync::atomic::{AtomicU64, Ordering};
use std::sync::{MutexGuard, Wait};
use std::thread;
use std::thread::Threads;

/// How many transactions each of the two workers commits.
const COUNT: u64 = 20;

/// What a worker's commit is, by which its entry is known. It read one page at this version.
#[derive(Clone, Copy)]
struct OwnCommit {
    client: ClientNo,
    incarnation: Incarnation,
    txn: TxnNo,
    page: PageNo,
    version: Version,
    /// Whether it wrote the page, too.
    writes: bool,
}

/// Whether an entry of the history is of that commit.
fn is_of(entry: &Entry, commit: OwnCommit) -> bool {
    if entry.reads.len() != 1 || entry.writes.len() != usize::from(commit.writes) {
        return false;
    }
    let read = entry.reads[0];
    let written = entry.writes.iter().all(|page| *page == commit.page);
    (entry.client, entry.incarnation, entry.txn) == (commit.client, commit.incarnation, commit.txn)
        && (read.page, read.version) == (commit.page, commit.version)
        && written
}

/// Whether the entry at this number's place in the history is of that commit. The first place is
/// that of number 1: the history is of a store without commits, and nothing was forgotten.
fn stands_at(station: &Station, number: CommitNo, commit: OwnCommit) -> bool {
    let mut place = 1;
    for entry in station.history() {
        if place == number.get() {
            return is_of(entry, commit);
        }
        place = u64::saturating_add(place, 1);
    }
    false
}

/// Reads the page in the open transaction, writes it where that is so, and commits: the number that
/// is answered, if nothing was aborted.
fn commits<R: Wait>(
    rt: &R,
    alloc: Global,
    office: &Office,
    worker: &mut Worker<TwoQ>,
    page: PageNo,
    writes: bool,
) -> Result<Option<CommitNo>, WorkerFault> {
    if worker.fetch(rt, alloc, office, page)? == Fetched::Aborted {
        return Ok(None);
    }
    if writes {
        if worker.want(rt, alloc, office, page)? == Wanted::Aborted {
            return Ok(None);
        }
        worker.write(page, &[7; 16])?;
    }
    match worker.finish(rt, alloc, office)? {
        Finished::Committed(number) => Ok(Some(number)),
        Finished::Aborted => Ok(None),
    }
}

/// Whether each of a worker's transactions is answered the number of its own commit. Every second
/// one writes the page that all of them read.
fn are_its_own<R: Wait>(
    rt: &R,
    alloc: Global,
    office: &Office,
    worker: &mut Worker<TwoQ>,
    incarnation: Incarnation,
    page: PageNo,
) -> Result<bool, WorkerFault> {
    let client = worker.client();
    let mut version = Version::new(0);
    for count in 0..COUNT {
        let writes = count % 2 == 0;
        let txn = worker.begin()?;
        let Some(number) = commits(rt, alloc, office, worker, page, writes)? else {
            return Ok(false);
        };
        let commit = OwnCommit {
            client,
            incarnation,
            txn,
            page,
            version,
            writes,
        };
        if !stands_at(&office.lock(rt), number, commit) {
            return Ok(false);
        }
        if writes {
            version = Version::new(number.get());
        }
    }
    Ok(true)
}

/// Whether a worker of the client behind that number, in an incarnation that is no other client's,
/// has such transactions at the page of the number. So none is client 0, and nobody wakes those who
/// wait as that one.
fn works<R: Wait>(
    rt: &R,
    alloc: Global,
    limits: &Limits,
    office: &Office,
    number: u64,
) -> Option<bool> {
    let client = ClientNo::in_store(limits, number.wrapping_add(1))?;
    let page = PageNo::in_store(limits, number)?;
    let incarnation = Incarnation::checked(if number == 0 { 5 } else { 6 })?;
    let Ok(chooser) = TwoQ::make(alloc, limits) else {
        return None;
    };
    let worker = Worker::join(rt, alloc, office, limits, client, chooser).ok()?;
    match worker.restart(rt, alloc, office, incarnation) {
        Ok(mut worker) => {
            let own = are_its_own(rt, alloc, office, &mut worker, incarnation, page);
            worker.abandon();
            Some(own == Ok(true))
        }
        Err((_, worker)) => {
            worker.abandon();
            None
        }
    }
}

/// Waits until that commit is made; `None` if the office is halted.
fn wait_for<'a, R: Wait>(
    rt: &R,
    office: &'a Office,
    locked: MutexGuard<'a, Station>,
    number: CommitNo,
) -> Option<MutexGuard<'a, Station>> {
    let mut station = locked;
    for _ in rt.forever() {
        if station.is_halted() {
            return None;
        }
        if station.can_flush(number) {
            return Some(station);
        }
        station = office.wait(rt, station);
    }
    unreachable!()
}

/// Writes what is committed, and reports it.
fn reports<S: Alter>(alloc: Global, station: &mut Station, shelf: &mut Shelf<S>) -> bool {
    let Ok(Some(batch)) = station.batch(alloc) else {
        return false;
    };
    match shelf.write(&batch) {
        Ok(written) => station.flushed(alloc, &written).is_ok(),
        Err(_) => false,
    }
}

/// Reports commits in pairs, each once both are made: so one of each pair is told of its number
/// while a greater one is the newest. Whether all were.
fn reports_in_pairs<R: Wait, S: Alter>(
    rt: &R,
    alloc: Global,
    office: &Office,
    shelf: &mut Shelf<S>,
) -> Option<bool> {
    let mut station = office.lock_to_wait(rt);
    for pair in 0..COUNT {
        station = wait_for(rt, office, station, CommitNo::checked(2 * pair + 2)?)?;
        if !reports(alloc, &mut station, shelf) {
            return Some(false);
        }
        office.tell(&mut station);
    }
    Some(true)
}

/// Whether two workers that commit side by side are each answered their own numbers.
pub(crate) fn are_answered_their_own<R: Wait + Threads + Sync, S: Alter>(
    rt: &R,
    alloc: Global,
    limits: &Limits,
    office: &Office,
    shelf: &mut Shelf<S>,
) -> bool {
    let counter = AtomicU64::new(0);
    let counted = &counter;
    let reported = thread::scope(thread::scope_env(), rt, |scope| {
        for number in 0..2u64 {
            let started = scope.spawn(move || {
                if works(rt, alloc, limits, office, number) == Some(true) {
                    counted.fetch_add(1, Ordering::SeqCst);
                } else {
                    office.halt(rt);
                }
            });
            if started.is_err() {
                office.halt(rt);
            }
        }
        let reported = reports_in_pairs(rt, alloc, office, shelf);
        if reported != Some(true) {
            office.halt(rt);
        }
        reported
    });
    reported == Some(true) && counter.load(Ordering::SeqCst) == 2
}

#[test]
fn each_is_answered_its_own_number(rt: HostRuntime) {
    assert!(rt; goes_well(Trial::Numbered, &rt, rt.alloc()));
}
