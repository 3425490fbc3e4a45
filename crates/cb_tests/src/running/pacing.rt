//! For whom the flusher waits before it takes a batch: counted by batches, over a clock that stands
//! still.
use crate::running::clocks::OwnClock;
use crate::running::disks::{Faults, NONE, once};
use crate::running::run::Told;
use crate::running::trials::Trial;
use crate::running::visits::commit;
use crate::running::work::{ShelfTask, WorkEnd, opening};
use cb_frame::Writes;
use cb_hands::Hand;
use cb_office::{Watch, flush_loop_watched};
use cb_page::{ClientNo, CommitNo, PageSet, TxnNo};
use cb_shelf::Shelf;
use cb_station::{Office, Station};
use sqlite::Alter;
use std::alloc::Global;
use std::sync::Wait;
use std::thread;
use std::thread::Threads;
use std::time::Clock;

/// The numbers with which the first batches end: of the second two commits are told, so that two
/// are awaited for the third.
const FIRST: u64 = 1;

const SECOND: u64 = 3;

const THIRD: u64 = 5;

/// How often the flusher looks at the clock between two reports where it doesn't wait: as it begins
/// to write, and behind that.
const LOOKS: u64 = 2;

/// Whether a transaction commits that read and wrote nothing.
fn commits(alloc: Global, station: &mut Station, hand: &mut Hand, txn: u64) -> bool {
    let nothing = Writes::from_vec(Vec::new(alloc));
    match (PageSet::new(alloc, 2), TxnNo::checked(txn)) {
        (Ok(none), Some(txn)) => commit(alloc, station, hand, txn, &none, nothing),
        _ => false,
    }
}

/// Looks on, and commits by itself as a batch is reported: two commits behind the first one, and
/// one behind the second.
struct Committing<'a, R> {
    rt: &'a R,
    alloc: Global,
    office: &'a Office,
    clock: &'a OwnClock,
    hand: Hand,
    told: Told,
    well: bool,
}

impl<R: Wait> Committing<'_, R> {
    /// Commits once more.
    fn commit(&mut self, txn: u64) {
        let mut station = self.office.lock(self.rt);
        let committed = commits(self.alloc, &mut station, &mut self.hand, txn);
        self.well = self.well && committed;
    }
}

impl<R: Wait> Watch for Committing<'_, R> {
    ghost tells = { λ watch number after. Unit {0} };

    fn begins(&mut self, _jobs: u64, _number: u64) {}

    fn flushed(&mut self, number: CommitNo) {
        self.told.flushed(number);
        self.clock.begin_to_count();
        if number.get() == FIRST {
            self.commit(2);
            self.commit(3);
        }
        if number.get() == SECOND {
            self.commit(4);
        }
        self.clock.reach(number.get());
    }

    fn waits(&mut self) {}
}

/// Commits once the flusher has looked at the clock behind its second report, and closes the
/// office; whether that went well. Where it looked too often before, it waits for nobody who would
/// come: then the office is halted.
fn commits_last<R: Wait>(
    rt: &R,
    alloc: Global,
    office: &Office,
    hand: &mut Hand,
    clock: &OwnClock,
) -> bool {
    for _ in rt.forever() {
        let looks = clock.looks();
        if clock.reached() < SECOND {
            if looks > LOOKS {
                return false;
            }
        } else if clock.looks() > 0 {
            let mut station = office.lock(rt);
            let committed = commits(alloc, &mut station, hand, 1);
            office.close_at(&mut station);
            return committed;
        }
        thread::yield_now();
    }
    unreachable!()
}

/// A second client joins and commits last; the office is halted where that doesn't go well.
fn comes_last<R: Wait>(rt: &R, alloc: Global, office: &Office, clock: &OwnClock) {
    let joined = office.lock(rt).join(alloc, ClientNo::new(1));
    let well = match joined {
        Ok(mut hand) => {
            let well = commits_last(rt, alloc, office, &mut hand, clock);
            hand.abandon();
            well
        }
        Err(_) => false,
    };
    if !well {
        office.halt(rt);
    }
}

/// Whether the flusher ends well, and nobody halts it, beside a client that comes last.
fn flushes_beside<R: Wait + Threads + Clock + Sync, S: Alter, W: Watch>(
    rt: &R,
    alloc: Global,
    office: &Office,
    shelf: &mut Shelf<S>,
    clock: &OwnClock,
    watch: &mut W,
) -> bool {
    let ended = thread::scope(thread::scope_env(), rt, |scope| {
        let started = scope.spawn(move || comes_last(rt, alloc, office, clock));
        if started.is_err() {
            office.halt(rt);
        }
        flush_loop_watched(rt, alloc, office, shelf, watch).is_ok()
    });
    ended && !office.lock(rt).is_halted()
}

/// Whether three batches carry five commits, the first of them alone and the last two together: the
/// flusher waits for two once it has told of two, and for none once it has told of one.
pub(crate) fn keeps_pace<R: Wait + Threads + Clock + Sync, S: Alter>(
    rt: &R,
    alloc: Global,
    office: &Office,
    shelf: &mut Shelf<S>,
    clock: &OwnClock,
) -> bool {
    let joined = office.lock(rt).join(alloc, ClientNo::new(0));
    let Ok(hand) = joined else {
        return false;
    };
    let mut watch = Committing {
        rt,
        alloc,
        office,
        clock,
        hand,
        told: Told::none(),
        well: true,
    };
    watch.commit(1);
    let ended = flushes_beside(rt, alloc, office, shelf, clock, &mut watch);
    let Committing {
        rt: _,
        alloc: _,
        office: _,
        clock: _,
        hand,
        told,
        well,
    } = watch;
    hand.abandon();
    ended && well && (told.batches, told.first, told.last) == (3, FIRST, THIRD)
}

/// Whether it does over a new database, by a clock that goes on as that is written.
fn is_paced<R: Threads + Wait + Clock + Sync>(rt: &R, alloc: Global) -> bool {
    let clock = OwnClock::new();
    let faults = Faults {
        clock: Some(&clock),
        ..NONE
    };
    let paced = opening(ShelfTask::Try(Trial::Paced(&clock)));
    once(rt, alloc, 2, faults, paced) == WorkEnd::Well(true)
}

#[test]
fn a_batch_for_all_who_were_told(rt: HostRuntime) {
    assert!(rt; is_paced(&rt, rt.alloc()));
}
