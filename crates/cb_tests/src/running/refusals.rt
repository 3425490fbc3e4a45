//! A store that refuses each write, and later none.
use crate::running::commits::holds;
use crate::running::run::Told;
use crate::running::trials::{Trial, goes_well};
use crate::running::unwatched::is_written_next;
use crate::running::visits::{commit_page, is_reported};
use cb_frame::{Body, Frame, ShortBody};
use cb_hands::Hand;
use cb_office::{FlushStop, flush_again_watched, flush_in_tries, flush_loop_watched};
use cb_page::{ClientNo, Limits, TxnNo};
use cb_shelf::{Shelf, ShelfFault};
use cb_station::{Office, Station};
use sqlite::Alter;
use std::alloc::Global;
use std::sync::Wait;
use std::time::Clock;

/// What comes between the first refusal of a batch and its write.
#[derive(Clone, Copy)]
pub(crate) enum BetweenTries {
    /// Three tries, after which the office is halted; and one more refusal.
    Tries,
    /// The client waits for its Done.
    Awaited,
    /// It commits again.
    Again,
    /// Nothing, and nobody looks on.
    Unwatched,
}

/// Whether the tables hold what so many commits of page 0 leave, each of sevens.
fn holds_sevens<S: Alter>(
    alloc: Global,
    limits: &Limits,
    shelf: &mut Shelf<S>,
    number: u64,
) -> bool {
    let byte = if number == 0 { 0 } else { 7 };
    holds(alloc, limits, shelf, number, &[(number, byte), (0, 0)])
}

/// Whether the database refused the batch that ends with the first commit.
pub(crate) fn is_refused(stop: &FlushStop) -> bool {
    match &stop.batch {
        Some(batch) => stop.fault == ShelfFault::Store && batch.number().get() == 1,
        None => false,
    }
}

/// Whether a frame is a Done.
fn says_done(frame: &Frame) -> bool {
    match frame.body {
        Body::Short(ShortBody::Done { .. }) => true,
        _ => false,
    }
}

/// Whether a Done comes next.
fn is_done(station: &mut Station, hand: &mut Hand) -> bool {
    match station.collect(hand) {
        Ok(Some(frame)) => says_done(&frame),
        _ => false,
    }
}

/// Whether three tries are refused, then the office is halted, and nothing was told or reported.
fn is_given_up<R: Wait + Clock, S: Alter>(
    rt: &R,
    alloc: Global,
    office: &Office,
    shelf: &mut Shelf<S>,
    told: &mut Told,
) -> bool {
    let refused = flush_in_tries(rt, alloc, office, shelf, told).err() == Some(ShelfFault::Store);
    let halted = office.lock(rt).is_halted();
    refused && halted && *told == Told::none() && !is_reported(rt, alloc, office)
}

/// Whether the batch of a stop is written now, and the Done of its commit comes then and not
/// before; after it that of a commit that came since.
fn is_written_now<R: Wait + Clock, S: Alter>(
    rt: &R,
    alloc: Global,
    office: &Office,
    shelf: &mut Shelf<S>,
    told: &mut Told,
    stop: FlushStop,
    hand: &mut Hand,
) -> bool {
    let refused = is_refused(&stop) && *told == Told::none();
    let early = is_done(&mut office.lock(rt), hand);
    let written = flush_again_watched(rt, alloc, office, shelf, told, stop).is_ok();
    let late = is_done(&mut office.lock(rt), hand);
    refused && !early && written && late && (told.batches, told.first) == (told.last, 1)
}

/// Whether the batch of a stop is refused again, and then written.
fn is_written_after<R: Wait + Clock, S: Alter>(
    rt: &R,
    alloc: Global,
    office: &Office,
    shelf: &mut Shelf<S>,
    told: &mut Told,
    first: FlushStop,
    hand: &mut Hand,
) -> bool {
    shelf.limit_steps(1);
    let ran = flush_again_watched(rt, alloc, office, shelf, told, first);
    shelf.limit_steps(0);
    match ran {
        Err(second) => is_written_now(rt, alloc, office, shelf, told, second, hand),
        Ok(_) => false,
    }
}

/// Whether a first commit is refused, then again, and then written.
fn is_written_at_last<R: Wait + Clock, S: Alter>(
    rt: &R,
    alloc: Global,
    limits: &Limits,
    office: &Office,
    shelf: &mut Shelf<S>,
    hand: &mut Hand,
    between: BetweenTries,
) -> bool {
    let mut told = Told::none();
    shelf.limit_steps(1);
    let given_up = match between {
        BetweenTries::Tries => is_given_up(rt, alloc, office, shelf, &mut told),
        _ => true,
    };
    let stopped = flush_loop_watched(rt, alloc, office, shelf, &mut told);
    shelf.limit_steps(0);
    let zeros = holds_sevens(alloc, limits, shelf, 0);
    let last = match between {
        BetweenTries::Again => 1 + u64::from(commits(rt, alloc, office, hand, TxnNo::new(2))),
        _ => 1,
    };
    let written = match stopped {
        Err(stop) => is_written_after(rt, alloc, office, shelf, &mut told, stop, hand),
        Ok(_) => false,
    };
    given_up && zeros && written && told.last == last && holds_sevens(alloc, limits, shelf, last)
}

/// Whether the client commits.
fn commits<R: Wait>(rt: &R, alloc: Global, office: &Office, hand: &mut Hand, txn: TxnNo) -> bool {
    commit_page(alloc, &mut office.lock(rt), hand, txn)
}

/// A client commits, the office is closed, and the batch is refused at first.
pub(crate) fn is_refused_at_first<R: Wait + Clock, S: Alter>(
    rt: &R,
    alloc: Global,
    limits: &Limits,
    office: &Office,
    shelf: &mut Shelf<S>,
    between: BetweenTries,
) -> bool {
    let joined = office.lock(rt).join(alloc, ClientNo::new(0));
    let Ok(mut hand) = joined else {
        return false;
    };
    let committed = commits(rt, alloc, office, &mut hand, TxnNo::new(1));
    office.close(rt);
    let written = match between {
        BetweenTries::Unwatched => is_written_next(rt, alloc, office, shelf),
        _ => is_written_at_last(rt, alloc, limits, office, shelf, &mut hand, between),
    };
    hand.abandon();
    committed && written && is_reported(rt, alloc, office)
}

#[test]
fn refused_write_is_written_again(rt: HostRuntime) {
    assert!(rt; goes_well(Trial::Refused(BetweenTries::Tries), &rt, rt.alloc()));
}

#[test]
fn no_done_before_its_batch_is_written(rt: HostRuntime) {
    assert!(rt; goes_well(Trial::Refused(BetweenTries::Awaited), &rt, rt.alloc()));
}

#[test]
fn refused_batch_goes_first(rt: HostRuntime) {
    assert!(rt; goes_well(Trial::Refused(BetweenTries::Again), &rt, rt.alloc()));
}
