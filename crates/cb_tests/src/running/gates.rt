//! The gate of all runs: one type, so that a run is built once; and workers that wait for each
//! other.
use crate::running::run::{Came, run_to_end};
use cb_hands::Entry;
use cb_office::{Gate, Turn};
use cb_page::{ClientNo, CommitNo};
use cb_station::{Office, Station};
use std::sync::atomic::{AtomicU64, Ordering};
use std::sync::{Mutex, Wait};
use std::thread;

/// What happens at a gate.
#[derive(Clone, Copy)]
pub(crate) enum Act {
    /// Every job may begin at once.
    Open,
    /// The same; client 1 has joined before.
    Joined,
    /// As the first job begins, or each, so many writes are set to be refused.
    Refuse { writes: u64, at_each: bool },
    /// Every job may begin at once, and the history is looked at before each write.
    Looked,
    /// As the first job begins the disk is full, and has room again after a second.
    Full,
    /// The office is closed or halted at this call; the first is 0.
    CutOff { at: u64, halts: bool },
    /// The office is closed once every client has asked for its first job, which none begins
    /// before. Each later one begins once all commits are on disk and the flusher waits, or has
    /// ended.
    Closed,
    /// Two clients wait for each other, and one try is let in at once.
    Mutual,
}

/// A run of so many clients with so many jobs each.
#[derive(Clone, Copy)]
pub(crate) struct Plan {
    pub(crate) clients: u16,
    pub(crate) jobs: u32,
    /// How many steps each statement may take; 0 is no limit.
    pub(crate) steps: u64,
    pub(crate) act: Act,
}

/// What is counted at a gate.
#[derive(Drop)]
pub(crate) struct Counts {
    pub(crate) plan: Plan,
    /// How often it was called.
    calls: Mutex<u64>,
    /// How many jobs were answered as done.
    pub(crate) answered: AtomicU64,
    /// How many entries of the history hadn't both pages read and written, whenever they were
    /// looked at; and of how many jobs, as they were answered, the commit wasn't on disk.
    pub(crate) odd: AtomicU64,
    /// The entries of the commits up to this number were looked at before writes, in a store that
    /// had none.
    looked: AtomicU64,
    /// How many writes are left to be refused.
    pub(crate) left: AtomicU64,
    /// How many commits were on disk when the flusher last waited.
    pub(crate) waited: AtomicU64,
    pub(crate) turns: Mutual,
}

impl Counts {
    /// Nothing happened yet.
    pub(crate) fn new(plan: Plan) -> Counts {
        Counts {
            plan,
            calls: Mutex::new(0),
            answered: AtomicU64::new(0),
            odd: AtomicU64::new(0),
            looked: AtomicU64::new(0),
            left: AtomicU64::new(0),
            waited: AtomicU64::new(0),
            turns: Mutual {
                asked: [AtomicU64::new(0), AtomicU64::new(0)],
                let_go: [AtomicU64::new(0), AtomicU64::new(0)],
                first: [AtomicU64::new(0), AtomicU64::new(0)],
                ungated: AtomicU64::new(0),
                spent: AtomicU64::new(0),
            },
        }
    }

    /// Looks at the entries in memory: from the first that isn't forgotten, up to the last commit.
    /// They count as looked at only where none is left out between them and those before.
    pub(crate) fn look(&self, station: &Station) {
        self.odd.fetch_add(odd_entries(station), Ordering::SeqCst);
        let Some(next) = station.next_commit() else {
            return;
        };
        let made = next.get().saturating_sub(1);
        let forgotten = made.saturating_sub(station.history().len() as u64);
        if forgotten <= self.looked.load(Ordering::SeqCst) {
            self.looked.store(made, Ordering::SeqCst);
        }
    }

    /// Whether the entry of each of so many commits was looked at before it was forgotten, where
    /// that is to be.
    fn has_looked(&self, answered: u64) -> bool {
        match self.plan.act {
            Act::Looked => self.looked.load(Ordering::SeqCst) == answered,
            _ => true,
        }
    }

    /// Whether all was as it should be, once so many jobs were answered as done.
    pub(crate) fn is_well(&self, answered: u64) -> bool {
        let odd = self.odd.load(Ordering::SeqCst);
        odd == 0 && self.turns.is_well() && self.has_looked(answered)
    }
}

/// A gate of workers in an office.
#[derive(Drop)]
pub(crate) struct Guarded<'a, R> {
    pub(crate) rt: &'a R,
    pub(crate) office: &'a Office,
    pub(crate) counts: &'a Counts,
}

impl<R: Wait> Guarded<'_, R> {
    /// Notes a call, and does what is due at it before another can be noted: so no job begins in
    /// between.
    fn note_call(&self, begins: bool) {
        let mut calls = self.counts.calls.lock(self.rt);
        let call = *calls;
        *calls = call.saturating_add(1);
        match self.counts.plan.act {
            Act::CutOff { at, halts } => self.cut_off(call == at, halts),
            Act::Refuse { writes, at_each } => {
                if begins && (at_each || call == 0) {
                    self.counts.left.store(writes, Ordering::SeqCst);
                }
            }
            Act::Full => {
                if call == 0 {
                    self.counts.left.store(u64::MAX, Ordering::SeqCst);
                }
            }
            _ => {}
        }
    }

    /// Halts or closes the office, if that is due.
    fn cut_off(&self, is_due: bool, halts: bool) {
        if is_due && halts {
            self.office.halt(self.rt);
        }
        if is_due && !halts {
            self.office.close(self.rt);
        }
    }

    /// Closes the office once all have asked for their first job. Whether a job may begin: the
    /// first one then, and each later one once the flusher waits after as many commits as all have
    /// made by then. A flusher that ended is one whose office is halted.
    fn is_closed_for(&self, client: ClientNo, job: u64) -> bool {
        let clients = self.counts.plan.clients;
        if job == 0 {
            let all = self.counts.turns.have_asked(client.index(), clients);
            if all {
                self.office.close(self.rt);
            }
            return all;
        }
        let made = job.saturating_mul(u64::from(clients));
        self.counts.waited.load(Ordering::SeqCst) >= made || self.office.lock(self.rt).is_halted()
    }
}

impl<R: Wait> Gate for Guarded<'_, R> {
    fn before_job(&self, client: ClientNo, job: u64) -> Turn {
        self.note_call(true);
        match self.counts.plan.act {
            Act::Mutual => self.counts.turns.turn_of(client.index(), job),
            Act::Closed => {
                if self.is_closed_for(client, job) {
                    return Turn::Go;
                }
                thread::yield_now();
                Turn::Later
            }
            _ => Turn::Go,
        }
    }

    fn after_commit(&self, client: ClientNo, job: u64) {
        let answered = self.counts.answered.fetch_add(1, Ordering::SeqCst);
        let station = self.office.lock(self.rt);
        let unreported = u64::from(!has_reported(&station, answered));
        let odd = odd_entries(&station).saturating_add(unreported);
        drop(station);
        self.counts.odd.fetch_add(odd, Ordering::SeqCst);
        self.note_call(false);
        if let Act::Mutual = self.counts.plan.act {
            self.counts.turns.note(client.index() % 2, job);
        }
    }
}

/// Whether one more than so many commits are on disk, in a store that had none.
fn has_reported(station: &Station, answered: u64) -> bool {
    match CommitNo::checked(answered.saturating_add(1)) {
        Some(number) => station.is_on_disk(number),
        None => false,
    }
}

/// Whether pages 0 and 1 were read and written, and no others.
fn has_both(entry: &Entry) -> bool {
    let read = match entry.reads.as_slice() {
        [first, second] => first.page.get() == 0 && second.page.get() == 1,
        _ => false,
    };
    let written = match entry.writes.as_slice() {
        [first, second] => first.get() == 0 && second.get() == 1,
        _ => false,
    };
    read && written
}

/// How many entries in memory haven't both pages read and written.
fn odd_entries(station: &Station) -> u64 {
    let mut odd = 0;
    for entry in station.history() {
        if !has_both(entry) {
            odd = u64::saturating_add(odd, 1);
        }
    }
    odd
}

/// How often a gate says `Later` in all.
const TURNS: u64 = 10_000_000;

/// Each job is let go at its second asking at the earliest, and a client's second one only after
/// the other client's first commit.
#[derive(Drop)]
pub(crate) struct Mutual {
    /// How many jobs of each client were asked for: by client.
    asked: [AtomicU64; 2],
    /// How many were let go: by client.
    let_go: [AtomicU64; 2],
    /// How often each client's first job was committed: by client.
    first: [AtomicU64; 2],
    /// How many commits came of jobs that had not been let go.
    ungated: AtomicU64,
    spent: AtomicU64,
}

impl Mutual {
    /// Whether a job may begin that is asked for once more.
    fn may_go(&self, client: usize, job: u64) -> bool {
        let number = job.saturating_add(1);
        let is_new = self.asked[client % 2].fetch_max(number, Ordering::SeqCst) < number;
        let is_second = job > 0 && self.first[1 - client % 2].load(Ordering::SeqCst) == 0;
        !is_new && !is_second
    }

    /// Notes that a client asked for its first job; whether each of so many has.
    fn have_asked(&self, client: usize, clients: u16) -> bool {
        self.asked[client % 2].fetch_max(1, Ordering::SeqCst);
        self.asked
            .iter()
            .take(usize::from(clients))
            .all(|asked| asked.load(Ordering::SeqCst) > 0)
    }

    /// Whether it begins now.
    fn turn_of(&self, client: usize, job: u64) -> Turn {
        if self.may_go(client, job) || self.spent.fetch_add(1, Ordering::SeqCst) >= TURNS {
            self.let_go[client % 2].store(job.saturating_add(1), Ordering::SeqCst);
            return Turn::Go;
        }
        thread::yield_now();
        Turn::Later
    }

    /// Notes a commit.
    fn note(&self, client: usize, job: u64) {
        if self.let_go[client % 2].load(Ordering::SeqCst) != job.saturating_add(1) {
            self.ungated.fetch_add(1, Ordering::SeqCst);
        }
        if job == 0 {
            self.first[client % 2].fetch_add(1, Ordering::SeqCst);
        }
    }

    /// Whether every job was let go before its commit, as it should be.
    fn is_well(&self) -> bool {
        let ungated = self.ungated.load(Ordering::SeqCst);
        ungated == 0 && self.spent.load(Ordering::SeqCst) < TURNS
    }
}

#[test]
fn two_at_once(rt: HostRuntime) {
    let plan = Plan {
        clients: 2,
        jobs: 2,
        steps: 0,
        act: Act::Mutual,
    };
    assert!(rt; run_to_end(&rt, rt.alloc(), plan) == Came::Done(4));
}
