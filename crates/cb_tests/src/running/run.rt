//! Whole runs, and what is told of them.
use crate::running::disks::{Faults, both};
use crate::running::flags::greet;
use crate::running::gates::{Act, Counts, Guarded, Plan};
use crate::running::tickets::narrow;
use crate::running::trials::Trial;
use crate::running::work::{ShelfTask, Work, WorkEnd, opening};
use cb_admission::AdmissionWindow;
use cb_office::{RunEnd, Watch, run_on_watched};
use cb_page::{ClientNo, CommitNo, Limits};
use cb_shelf::{Shelf, ShelfFault};
use cb_station::{Office, OfficeFault, Station};
use sqlite::Alter;
use std::alloc::Global;
use std::io;
use std::sync::Wait;
use std::sync::atomic::Ordering;
use std::thread::Threads;
use std::time::Clock;

/// Which batches were told of as on disk.
#[derive(Clone, Copy, PartialEq, Eq)]
pub(crate) struct Told {
    /// How many.
    pub(crate) batches: u64,
    /// The number of the first one's last commit; 0 before there is one.
    pub(crate) first: u64,
    /// The number of the last one's.
    pub(crate) last: u64,
}

impl Told {
    /// None was told of yet.
    pub(crate) fn none() -> Told {
        Told {
            batches: 0,
            first: 0,
            last: 0,
        }
    }
}

impl Watch for Told {
    ghost tells = { λ watch number after. Unit {0} };

    fn begins(&mut self, _jobs: u64, _number: u64) {}

    fn flushed(&mut self, number: CommitNo) {
        if self.batches == 0 {
            self.first = number.get();
        }
        self.batches = self.batches.saturating_add(1);
        self.last = number.get();
    }

    fn waits(&mut self) {}
}

/// Notes which batches were told of, whether each ends behind the one before, and after how many
/// commits the flusher waits.
#[derive(Drop)]
struct Waited<'a> {
    told: Told,
    rises: bool,
    counts: &'a Counts,
}

impl Watch for Waited<'_> {
    ghost tells = { λ watch number after. Unit {0} };

    fn begins(&mut self, _jobs: u64, _number: u64) {}

    fn flushed(&mut self, number: CommitNo) {
        self.rises = self.rises && number.get() > self.told.last;
        self.told.flushed(number);
    }

    fn waits(&mut self) {
        self.counts.waited.store(self.told.last, Ordering::SeqCst);
    }
}

/// What came of a run.
#[derive(Clone, Copy, PartialEq, Eq)]
pub(crate) enum Came {
    /// It said that so many jobs were done, as many as the gate had answered for.
    Done(u64),
    /// The disk stopped, or refused each write.
    Stopped,
    /// No number was left.
    Exhausted,
    /// A worker couldn't join.
    Fault,
    /// Memory was refused, or a thread.
    Memory,
    /// Memory was refused as its line was printed, or as its disk was looked at behind it.
    Unseen,
    /// Something else.
    Wrong,
}

/// What ended a run with status 3, by what it said of it.
fn ended_by(err: &[u8]) -> Came {
    if err == b"store: Store\n".as_slice() {
        return Came::Stopped;
    }
    if err == b"store: Exhausted\n".as_slice() {
        return Came::Exhausted;
    }
    if err == b"worker: Fault\n".as_slice() {
        return Came::Fault;
    }
    Came::Wrong
}

/// Whether the office is halted, the last commit on disk was told of, and all are forgotten.
fn is_whole(station: &Station, last: u64) -> bool {
    let told = match CommitNo::checked(last) {
        Some(number) => station.is_on_disk(number),
        None => last == 0,
    };
    let untold = match CommitNo::checked(last.saturating_add(1)) {
        Some(number) => station.is_on_disk(number),
        None => false,
    };
    station.is_halted() && told && !untold && station.history().is_empty()
}

/// Whether every ticket came back, and few tries were aborted: those of 32 clients that come at
/// once, and three more for each time that the window was widened.
fn are_fair(window: &AdmissionWindow, answered: u64) -> bool {
    let widened = answered.saturating_add(32) / 64;
    window.inside() == 0 && window.aborted() <= widened.saturating_mul(3).saturating_add(63)
}

/// Whether a commit may be on disk that was answered to nobody: of a worker that was halted.
fn may_be_unanswered(act: Act) -> bool {
    match act {
        Act::CutOff { halts, .. } => halts,
        _ => false,
    }
}

/// What came of a run that said this: it is to say that so many jobs were done, each by a commit of
/// its own, and the sum that the tables have. Where these can't be looked at any more, the disk
/// stopped.
fn came_of<S: Alter>(
    alloc: Global,
    shelf: &mut Shelf<S>,
    answered: u64,
    act: Act,
    out: &[u8],
) -> Came {
    let number = match shelf.load(alloc) {
        Ok(store) => store.number(),
        Err(ShelfFault::Memory) => return Came::Unseen,
        Err(_) => return Came::Stopped,
    };
    if number != answered && !may_be_unanswered(act) {
        return Came::Wrong;
    }
    let sum = number.wrapping_mul(2);
    match format!(in alloc; "committed {answered}\nsum {sum}\n") {
        Ok(lines) if lines.as_bytes() == out => Came::Done(answered),
        Ok(_) => Came::Wrong,
        Err(_) => Came::Unseen,
    }
}

/// Whether each client has left, so that it may join again. Where the run was cut off that isn't
/// looked at.
fn have_left<R: Wait>(rt: &R, alloc: Global, office: &Office, plan: Plan) -> bool {
    if let Act::CutOff { .. } = plan.act {
        return true;
    }
    for client in 0..plan.clients {
        let joined = office.lock(rt).join(alloc, ClientNo::new(client % 32));
        match joined {
            Ok(hand) => hand.abandon(),
            Err(fault) => return fault == OfficeFault::Memory,
        }
    }
    true
}

/// What is done in an office before such a run.
fn prepare<R: Wait>(rt: &R, alloc: Global, office: &Office, act: Act) {
    match act {
        Act::Joined => greet(rt, alloc, office, ClientNo::new(1)),
        Act::Mutual => narrow(&mut office.lock(rt)),
        _ => {}
    }
}

/// The status of a run; nothing where a writer failed.
pub(crate) fn status_of(ran: io::Result<RunEnd<'_>>) -> Option<u8> {
    match ran {
        Ok(ended) => Some(ended.status),
        Err(_) => None,
    }
}

/// What comes of a run in an office.
pub(crate) fn came_in<R: Threads + Wait + Clock + Sync, S: Alter>(
    rt: &R,
    alloc: Global,
    limits: &Limits,
    office: &Office,
    shelf: &mut Shelf<S>,
    counts: &Counts,
) -> Came {
    prepare(rt, alloc, office, counts.plan.act);
    let mut watch = Waited {
        told: Told::none(),
        rises: true,
        counts,
    };
    let mut out = Vec::new(alloc);
    let mut err = Vec::new(alloc);
    let gate = Guarded { rt, office, counts };
    let jobs = counts.plan.jobs;
    shelf.limit_steps(counts.plan.steps);
    let ran = run_on_watched(
        rt, alloc, limits, office, shelf, jobs, &gate, &mut watch, &mut out, &mut err,
    );
    let answered = counts.answered.load(Ordering::SeqCst);
    let whole = is_whole(&office.lock(rt), watch.told.last) && counts.is_well(answered);
    if !watch.rises || !are_fair(office.lock(rt).window(), answered) {
        return Came::Wrong;
    }
    match status_of(ran) {
        None => Came::Unseen,
        Some(0) if whole && err.is_empty() && have_left(rt, alloc, office, counts.plan) => {
            came_of(alloc, shelf, answered, counts.plan.act, out.as_slice())
        }
        Some(3) if out.is_empty() => ended_by(err.as_slice()),
        Some(4) if out.is_empty() && err.as_slice() == b"memory\n".as_slice() => Came::Memory,
        _ => Came::Wrong,
    }
}

/// Workers run after a text.
fn running<'a>(text: &'a str, counts: &'a Counts) -> Work<'a> {
    let trial = Trial::Run(counts);
    let task = ShelfTask::Try(trial);
    Work { text, task }
}

/// Whether the disk is full for a while.
fn is_full(act: Act) -> bool {
    match act {
        Act::Full => true,
        _ => false,
    }
}

/// What comes of a run over new disks, after a text, where after a crash the database holds what
/// the first commits left, at least as many as were answered as done. A disk that stops before
/// there is a database counts as stopped; where no number was left nothing is looked at.
pub(crate) fn came_over<R: Threads + Wait + Clock + Sync>(
    rt: &R,
    alloc: Global,
    plan: Plan,
    calls: (u64, u64),
    text: &str,
) -> Came {
    let counts = Counts::new(plan);
    let faults = Faults {
        log: calls.0,
        db: calls.1,
        left: Some(&counts.left),
        frees: is_full(plan.act),
        clock: None,
        looks: None,
    };
    let works = [running(text, &counts), opening(ShelfTask::Begin(&counts))];
    let ((ran, _), (seen, _)) = both(rt, alloc, plan.clients, faults, works);
    match (ran, seen) {
        (WorkEnd::Ran(Came::Exhausted), _) => Came::Exhausted,
        (WorkEnd::Ran(came), WorkEnd::Well(true)) => came,
        (WorkEnd::Nothing, WorkEnd::Well(true)) => Came::Stopped,
        (WorkEnd::Refused(ShelfFault::Store), WorkEnd::Well(true)) => Came::Stopped,
        _ => Came::Wrong,
    }
}

/// What comes of a run over new disks that don't stop.
pub(crate) fn run_to_end<R: Threads + Wait + Clock + Sync>(
    rt: &R,
    alloc: Global,
    plan: Plan,
) -> Came {
    came_over(rt, alloc, plan, (u64::MAX, u64::MAX), "")
}

/// A run where every job may begin at once.
pub(crate) fn open_plan(clients: u16, jobs: u32, steps: u64) -> Plan {
    let act = Act::Open;
    Plan {
        clients,
        jobs,
        steps,
        act,
    }
}

/// No write gets through: three tries, then the office is halted.
#[test]
fn store_that_refuses_each_write(rt: HostRuntime) {
    assert!(rt; run_to_end(&rt, rt.alloc(), open_plan(2, 3, 1)) == Came::Stopped);
}
