//! A try that waits to be let in while another holds the only ticket; and tries of one client, one
//! after another.
use crate::running::trials::{Trial, goes_well};
use cb_admission::TryEnd;
use cb_page::{ClientNo, Limits};
use cb_station::{Office, Station, Ticket};
use cb_twoq::{Chooser, TwoQ};
use cb_worker::{Worker, WorkerFault};
use std::alloc::Global;
use std::sync::Wait;
use std::sync::atomic::{AtomicU64, Ordering};
use std::thread;
use std::thread::Threads;

/// What ends the wait.
#[derive(Clone, Copy)]
pub(crate) enum Wake {
    /// The ticket comes back.
    Return,
    /// The office is halted.
    Halt,
}

/// How a wait ended: not yet, the try was let in, the office was halted, or something else.
const WAITS: u64 = 0;

const LET_IN: u64 = 1;

const HALTED: u64 = 2;

const WRONG: u64 = 3;

/// So many aborted tries leave the window one try wide.
const ABORTED: u64 = 5;

/// Narrows the window to one try, where none is in.
pub(crate) fn narrow(station: &mut Station) {
    for _try in 0..ABORTED {
        if let Some(ticket) = station.admit(ClientNo::new(1)) {
            station.end_try(ticket.ended(TryEnd::Aborted));
        }
    }
}

/// Narrows the window to one try, and takes its ticket for client 1.
fn take_last(station: &mut Station) -> Option<Ticket> {
    narrow(station);
    station.admit(ClientNo::new(1))
}

/// Client 0 joins, and waits until its try is let in.
fn enters<R: Wait>(rt: &R, alloc: Global, limits: &Limits, office: &Office) -> u64 {
    let Ok(chooser) = TwoQ::make(alloc, limits) else {
        return WRONG;
    };
    let joined = Worker::join(rt, alloc, office, limits, ClientNo::new(0), chooser);
    let Ok(mut worker) = joined else {
        return WRONG;
    };
    let entered = worker.enter(rt, alloc, office);
    worker.abandon();
    match entered {
        Ok(ticket) => {
            office.end_try(rt, ticket.ended(TryEnd::Committed));
            LET_IN
        }
        Err(WorkerFault::Halted) => HALTED,
        Err(_) => WRONG,
    }
}

/// Holds a ticket until somebody waits for one, or has ended. Who waits is seen where a try might
/// be let in: so the ticket goes back and is taken again at each look, under one lock.
fn hold<R: Wait>(rt: &R, office: &Office, held: Ticket, told: &AtomicU64) -> Option<Ticket> {
    let mut ticket = held;
    for _ in rt.forever() {
        let mut station = office.lock(rt);
        station.end_try(ticket.ended(TryEnd::GivenUp));
        let waits = station.window().next().is_some();
        ticket = station.admit(ClientNo::new(1))?;
        drop(station);
        if waits || told.load(Ordering::SeqCst) != WAITS {
            return Some(ticket);
        }
        thread::yield_now();
    }
    unreachable!()
}

/// Ends the wait.
fn wake_up<R: Wait>(rt: &R, office: &Office, ticket: Ticket, wake: Wake) {
    if let Wake::Halt = wake {
        office.halt(rt);
    }
    office.end_try(rt, ticket.ended(TryEnd::GivenUp));
}

/// Whether no try is in, and nobody waits for one.
fn is_empty(station: &Station) -> bool {
    station.window().inside() == 0 && station.window().next().is_none()
}

/// Whether a try that waits ends its wait by this, and every ticket comes back.
pub(crate) fn ends_its_wait<R: Wait + Threads + Sync>(
    rt: &R,
    alloc: Global,
    limits: &Limits,
    office: &Office,
    wake: Wake,
) -> bool {
    let outcome = AtomicU64::new(WAITS);
    let told = &outcome;
    thread::scope(thread::scope_env(), rt, |scope| {
        let Some(held) = take_last(&mut office.lock(rt)) else {
            return;
        };
        let started = scope.spawn(move || {
            let ended = enters(rt, alloc, limits, office);
            told.store(ended, Ordering::SeqCst);
        });
        if started.is_err() {
            told.store(WRONG, Ordering::SeqCst);
        }
        if let Some(ticket) = hold(rt, office, held, told) {
            wake_up(rt, office, ticket, wake);
        }
    });
    let ended = match wake {
        Wake::Return => LET_IN,
        Wake::Halt => HALTED,
    };
    outcome.load(Ordering::SeqCst) == ended && is_empty(&office.lock(rt))
}

/// Whether a worker's next try is let in as its last one ends, and is the only one that is in; and
/// whether none is once the office is halted, with the last one's end noted.
fn goes_on<R: Wait>(
    rt: &R,
    alloc: Global,
    office: &Office,
    worker: &mut Worker<TwoQ>,
) -> Result<bool, WorkerFault> {
    let ticket = worker.enter(rt, alloc, office)?;
    let again = worker.enter_again(rt, alloc, office, ticket.ended(TryEnd::Committed))?;
    let inside = office.lock(rt).window().inside();
    office.halt(rt);
    match worker.enter_again(rt, alloc, office, again.ended(TryEnd::Aborted)) {
        Err(WorkerFault::Halted) => Ok(inside == 1 && office.lock(rt).window().aborted() == 1),
        Err(_) => Ok(false),
        Ok(ticket) => {
            office.end_try(rt, ticket.ended(TryEnd::GivenUp));
            Ok(false)
        }
    }
}

/// Whether a client's tries go on until the office is halted, and every ticket comes back.
pub(crate) fn goes_on_until_halted<R: Wait>(
    rt: &R,
    alloc: Global,
    limits: &Limits,
    office: &Office,
) -> bool {
    let Ok(chooser) = TwoQ::make(alloc, limits) else {
        return false;
    };
    let joined = Worker::join(rt, alloc, office, limits, ClientNo::new(0), chooser);
    let Ok(mut worker) = joined else {
        return false;
    };
    let well = goes_on(rt, alloc, office, &mut worker).unwrap_or(false);
    worker.abandon();
    well && is_empty(&office.lock(rt))
}

#[test]
fn goes_on_by_one_call(rt: HostRuntime) {
    assert!(rt; goes_well(Trial::GoingOn, &rt, rt.alloc()));
}

#[test]
fn let_in_as_a_ticket_comes_back(rt: HostRuntime) {
    assert!(rt; goes_well(Trial::Entered(Wake::Return), &rt, rt.alloc()));
}

#[test]
fn halted_before_it_is_let_in(rt: HostRuntime) {
    assert!(rt; goes_well(Trial::Entered(Wake::Halt), &rt, rt.alloc()));
}
