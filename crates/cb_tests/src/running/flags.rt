//! Closing, halting, and waiting for it.
use crate::running::trials::{Trial, goes_well};
use crate::running::visits::commit_page;
use cb_page::{ClientNo, CommitNo, TxnNo};
use cb_station::{Office, Station};
use std::alloc::Global;
use std::sync::Wait;
use std::sync::atomic::{AtomicU64, Ordering};
use std::thread;
use std::thread::Threads;
use std::time::{Clock, Duration};

/// Whether the office is closed, and whether it is halted.
pub(crate) type Flags = (bool, bool);

const OPEN: Flags = (false, false);

const CLOSED: Flags = (true, false);

const HALTED: Flags = (true, true);

/// What happens in an office.
#[derive(Clone, Copy)]
pub(crate) enum Moment {
    Nothing,
    /// A call of `work` ends.
    EndOfWork,
    /// One that was expected won't begin.
    SkippedWork,
    Closing,
    Halting,
    /// Client 1 has a frame.
    Greeting,
    /// Client 0 commits for the first time.
    Commit,
    /// It does so, and waits by the same guard until the office is closed.
    CommitAndWait,
    /// Waits with a limit end, though nobody tells of anything.
    ShortWaits,
}

/// The client joins, so that there is a Welcome to it, of which the guard tells as the lock goes;
/// its number stays joined. Where it can't join the office is halted.
pub(crate) fn greet<R: Wait>(rt: &R, alloc: Global, office: &Office, client: ClientNo) {
    let joined = office.lock(rt).join(alloc, client);
    match joined {
        Ok(hand) => hand.abandon(),
        Err(_) => office.halt(rt),
    }
}

/// Client 0 joins and commits, of which the guard tells as the lock goes, and which takes no lock
/// then; its number stays joined. Where it can't the office is halted.
fn commit_first<R: Wait>(rt: &R, alloc: Global, office: &Office) {
    let joined = office.lock(rt).join(alloc, ClientNo::new(0));
    let Ok(mut hand) = joined else {
        return office.halt(rt);
    };
    let committed = commit_page(alloc, &mut office.lock(rt), &mut hand, TxnNo::new(1));
    hand.abandon();
    if !committed {
        office.halt(rt);
    }
}

/// Client 0 joins and commits, and waits until the office is closed, which who is told of the
/// commit does. Where it can't commit the office is halted.
fn commit_and_wait<R: Wait>(rt: &R, alloc: Global, office: &Office) {
    let joined = office.lock(rt).join(alloc, ClientNo::new(0));
    let Ok(mut hand) = joined else {
        return office.halt(rt);
    };
    let mut station = office.lock_to_wait(rt);
    if !commit_page(alloc, &mut station, &mut hand, TxnNo::new(1)) {
        office.halt_at(&mut station);
    }
    hand.abandon();
    for _ in rt.forever() {
        if station.is_closed() {
            return;
        }
        station = office.wait(rt, station);
    }
    unreachable!()
}

/// Waits for a frame to client 0 and for a commit, a millisecond each. Neither comes.
fn wait_shortly<R: Wait + Clock>(rt: &R, office: &Office) {
    let limit = Duration::from_millis(1);
    let station = office.lock_to_wait(rt);
    let station = office.wait_for_frame_at_most(rt, station, ClientNo::new(0), limit);
    let _station = office.wait_for_commit(rt, station, CommitNo::new(1), limit);
}

/// It happens.
fn happens<R: Wait + Clock>(rt: &R, alloc: Global, office: &Office, moment: Moment) {
    match moment {
        Moment::Nothing => {}
        Moment::EndOfWork => office.end_work(rt),
        Moment::SkippedWork => office.skip_work(rt),
        Moment::Closing => office.close(rt),
        Moment::Halting => office.halt(rt),
        Moment::Greeting => greet(rt, alloc, office, ClientNo::new(1)),
        Moment::Commit => commit_first(rt, alloc, office),
        Moment::CommitAndWait => commit_and_wait(rt, alloc, office),
        Moment::ShortWaits => wait_shortly(rt, office),
    }
}

/// Whether the office has these flags.
fn has_flags<R: Wait>(rt: &R, office: &Office, flags: Flags) -> bool {
    let station = office.lock(rt);
    (station.is_closed(), station.is_halted()) == flags
}

/// Whether each of these moments leaves its flags.
pub(crate) fn follows<R: Wait + Clock>(
    rt: &R,
    alloc: Global,
    office: &Office,
    moments: &[(Moment, Flags)],
) -> bool {
    for (moment, flags) in moments {
        happens(rt, alloc, office, *moment);
        if !has_flags(rt, office, *flags) {
            return false;
        }
    }
    true
}

#[test]
fn last_work_closes(rt: HostRuntime) {
    let moments = [
        (Moment::Nothing, OPEN),
        (Moment::EndOfWork, OPEN),
        (Moment::EndOfWork, CLOSED),
        (Moment::EndOfWork, CLOSED),
    ];
    assert!(rt; goes_well(Trial::Flagged(2, &moments), &rt, rt.alloc()));
}

#[test]
fn skipped_work_closes(rt: HostRuntime) {
    let last = [(Moment::EndOfWork, OPEN), (Moment::SkippedWork, CLOSED)];
    assert!(rt; goes_well(Trial::Flagged(2, &last), &rt, rt.alloc()));
    let first = [(Moment::SkippedWork, OPEN), (Moment::EndOfWork, CLOSED)];
    assert!(rt; goes_well(Trial::Flagged(2, &first), &rt, rt.alloc()));
}

#[test]
fn closed_and_halted(rt: HostRuntime) {
    let closing = [(Moment::Closing, CLOSED), (Moment::Halting, HALTED)];
    assert!(rt; goes_well(Trial::Flagged(1, &closing), &rt, rt.alloc()));
    assert!(rt;
        goes_well(
            Trial::Flagged(1, &[(Moment::Halting, HALTED)]),
            &rt,
            rt.alloc()
        )
    );
    assert!(rt;
        goes_well(
            Trial::Flagged(0, &[(Moment::Nothing, CLOSED)]),
            &rt,
            rt.alloc()
        )
    );
}

#[test]
fn waits_end_at_their_limits(rt: HostRuntime) {
    let waits = [(Moment::ShortWaits, OPEN)];
    assert!(rt; goes_well(Trial::Flagged(1, &waits), &rt, rt.alloc()));
}

/// How many wait.
const WAITING: u64 = 2;

/// Whether what is waited for has come.
fn has_come(station: &Station, moment: Moment) -> bool {
    match moment {
        Moment::Greeting => station.has_frame_for(ClientNo::new(1)),
        Moment::Commit | Moment::CommitAndWait => station.can_flush(CommitNo::new(1)),
        _ => station.is_closed(),
    }
}

/// Waits for it, or until the office is halted; who commits and waits is answered by closing the
/// office. `counted` counts who holds the lock or waits, and once more who was woken by what it
/// waits for.
fn wait_for<R: Wait>(rt: &R, office: &Office, counted: &AtomicU64, moment: Moment) {
    let mut station = office.lock_to_wait(rt);
    counted.fetch_add(1, Ordering::SeqCst);
    for _ in rt.forever() {
        let come = has_come(&station, moment);
        if come || station.is_halted() {
            counted.fetch_add(u64::from(come), Ordering::SeqCst);
            if let Moment::CommitAndWait = moment {
                office.close_at(&mut station);
            }
            return;
        }
        station = match moment {
            Moment::Greeting => office.wait_for_frame(rt, station, ClientNo::new(1)),
            _ => office.wait(rt, station),
        };
    }
    unreachable!()
}

/// Until all that wait are counted.
fn spin_until_all<R: Wait>(rt: &R, counted: &AtomicU64) {
    for _ in rt.forever() {
        if counted.load(Ordering::SeqCst) >= WAITING {
            return;
        }
        thread::yield_now();
    }
}

/// Threads wait, and this one wakes them once all do: each counts itself under the lock, which it
/// lets go only by waiting. What they counted.
fn count_woken<R: Wait + Threads + Clock + Sync>(
    rt: &R,
    alloc: Global,
    office: &Office,
    moment: Moment,
) -> u64 {
    let counter = AtomicU64::new(0);
    let counted = &counter;
    thread::scope(thread::scope_env(), rt, |scope| {
        for _waiter in 0..WAITING {
            if scope
                .spawn(move || wait_for(rt, office, counted, moment))
                .is_err()
            {
                counted.fetch_add(1, Ordering::SeqCst);
            }
        }
        spin_until_all(rt, counted);
        happens(rt, alloc, office, moment);
    });
    counter.load(Ordering::SeqCst)
}

/// Whether all that wait are woken by it, and the flags are what it makes of them.
pub(crate) fn wakes<R: Wait + Threads + Clock + Sync>(
    rt: &R,
    alloc: Global,
    office: &Office,
    moment: Moment,
    flags: Flags,
) -> bool {
    count_woken(rt, alloc, office, moment) == 2 * WAITING && has_flags(rt, office, flags)
}

/// Nobody tells of it but the guard: those that wait would sleep on over one that doesn't.
#[test]
fn commit_is_told_as_the_lock_goes(rt: HostRuntime) {
    assert!(rt; goes_well(Trial::Woken(Moment::Commit, OPEN), &rt, rt.alloc()));
}

/// Nobody tells of it but the call that waits, before it lets the lock go.
#[test]
fn commit_is_told_before_a_wait(rt: HostRuntime) {
    assert!(rt; goes_well(Trial::Woken(Moment::CommitAndWait, CLOSED), &rt, rt.alloc()));
}

#[test]
fn those_that_wait_are_woken(rt: HostRuntime) {
    assert!(rt; goes_well(Trial::Woken(Moment::Closing, CLOSED), &rt, rt.alloc()));
    assert!(rt; goes_well(Trial::Woken(Moment::Halting, HALTED), &rt, rt.alloc()));
    assert!(rt; goes_well(Trial::Woken(Moment::Greeting, OPEN), &rt, rt.alloc()));
}
