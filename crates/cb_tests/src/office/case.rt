//! A worked case, step by step: grants, a commit, and a second reader.
use crate::office::frames::{
    ask_read, ask_write, commit, commit_one, insert, is_granted, is_told, no_writes, shown,
};
use crate::office::stations::{over_zeros, two_join};
use crate::running::trials::{Trial, goes_well};
use cb_frame::ShortBody;
use cb_hands::Hand;
use cb_page::{ClientNo, CommitNo, GrantNo, Incarnation, PageNo, PageSet, TxnNo, Version};
use cb_shelf::{Shelf, Written};
use cb_station::{OfficeFault, Station};
use sqlite::Alter;
use std::alloc::{AllocError, Global};

/// The first client reads page 0 and may write it.
pub(crate) fn prepare(alloc: Global, station: &mut Station, one: &mut Hand) -> bool {
    let page = PageNo::new(0);
    let txn = TxnNo::new(1);
    let grant = GrantNo::new(1);
    let version = Version::new(0);
    let mut good = is_told(station.collect(one), ShortBody::Welcome);
    let ask = ask_read(one, txn, page);
    good = station.take(alloc, &ask, one) == Ok(()) && good;
    good = is_granted(station.collect(one), page, grant, version) && good;
    good = one.shows(page) == shown(grant, version, false) && good;
    let ask = ask_write(one, txn, page, grant);
    good = station.take(alloc, &ask, one) == Ok(()) && good;
    good = is_told(
        station.collect(one),
        ShortBody::MayWrite { txn, page, grant },
    ) && good;
    good = one.txn() == Some(txn) && good;
    one.shows(page) == shown(grant, version, true) && good
}

/// It commits that write, having read the page; not with a read of what it doesn't hold.
fn commits(alloc: Global, station: &mut Station, one: &mut Hand) -> Result<bool, AllocError> {
    let page = PageNo::new(0);
    let txn = TxnNo::new(1);
    let grant = GrantNo::new(1);
    let frame = commit_one(alloc, one, txn, page, grant)?;
    let mut few = PageSet::new(alloc, 4)?;
    insert(&mut few, page);
    let mut many = PageSet::new(alloc, 4)?;
    insert(&mut many, page);
    insert(&mut many, PageNo::new(3));
    let none = PageSet::new(alloc, 4)?;
    let not_held = Err(OfficeFault::NotHeld);
    let mut good = station.commit(alloc, &frame, &many, one) == not_held;
    good = station.commit(alloc, &frame, &few, one) == Ok(CommitNo::new(1)) && good;
    good = one.shows(page) == shown(grant, Version::new(1), false) && good;
    good = one.txn() == None && good;
    good = station.commit(alloc, &frame, &few, one) == Err(OfficeFault::NotHeld) && good;
    let empty = commit(one, txn, no_writes(alloc));
    let ended = station.commit(alloc, &empty, &none, one);
    Ok(ended == Err(OfficeFault::NotLive) && good)
}

/// The second client gets the new version; both hands meet.
fn follows(alloc: Global, station: &mut Station, one: &Hand, two: &mut Hand) -> bool {
    let page = PageNo::new(0);
    let ask = ask_read(two, TxnNo::new(1), page);
    let mut good = is_told(station.collect(two), ShortBody::Welcome);
    good = station.take(alloc, &ask, two) == Ok(()) && good;
    let granted = station.collect(two);
    good = is_granted(granted, page, GrantNo::new(2), Version::new(1)) && good;
    good = two.shows(page) == shown(GrantNo::new(2), Version::new(1), false) && good;
    good = station.meet(one, two) == Ok(()) && good;
    match station.join(alloc, ClientNo::new(0)) {
        Ok(hand) => {
            hand.abandon();
            false
        }
        Err(fault) => fault == OfficeFault::Joined && good,
    }
}

/// The history has that commit alone, with its read at the version that was.
fn is_noted(station: &Station) -> bool {
    let history = station.history();
    if history.len() != 1 {
        return false;
    }
    let entry = &history[0];
    if entry.reads.len() != 1 || entry.writes.len() != 1 {
        return false;
    }
    let named = entry.client == ClientNo::new(0)
        && entry.incarnation == Incarnation::new(1)
        && entry.txn == TxnNo::new(1);
    named
        && entry.reads[0].page == PageNo::new(0)
        && entry.reads[0].version == Version::new(0)
        && entry.writes[0] == PageNo::new(0)
}

/// The station's next batch, written twice to the shelf, as it may be by whom a report was refused.
fn written_twice<S: Alter>(
    alloc: Global,
    station: &Station,
    shelf: &mut Shelf<S>,
) -> Option<(Written, Written)> {
    let batch = station.batch(alloc).ok()??;
    let first = shelf.write(&batch).ok()?;
    Some((first, shelf.write(&batch).ok()?))
}

/// What is to be written to disk is that commit; then nothing is.
fn flushes<S: Alter>(
    alloc: Global,
    station: &mut Station,
    shelf: &mut Shelf<S>,
    one: &mut Hand,
) -> Result<bool, OfficeFault> {
    let number = CommitNo::new(1);
    let Some((first, again)) = written_twice(alloc, station, shelf) else {
        return Ok(false);
    };
    let mut good = first.number() == number;
    station.flushed(alloc, &first)?;
    let txn = TxnNo::new(1);
    good = is_told(station.collect(one), ShortBody::Done { txn, number }) && good;
    station.flushed(alloc, &again)?;
    good = station.collect(one)?.is_none() && good;
    good = station.batch(alloc)?.is_none() && good;
    Ok(is_forgotten(station, first, again) && good)
}

/// The commit is on disk and the next isn't; once it is forgotten its entry is gone, also where
/// that is said again.
fn is_forgotten(station: &mut Station, first: Written, again: Written) -> bool {
    if !station.is_on_disk(first.number()) || !station.is_on_disk(again.number()) {
        return false;
    }
    if station.is_on_disk(CommitNo::new(2)) {
        return false;
    }
    let before = station.history().len();
    station.forget(first);
    let after = station.history().len();
    station.forget(again);
    before == 1 && after == 0 && station.history().is_empty()
}

/// A restart in the same incarnation is refused, with the hand; in a later one the hand is empty.
fn restarts(alloc: Global, station: &mut Station, hand: Hand) -> Option<Hand> {
    let hand = match station.restart(alloc, hand, Incarnation::new(1)) {
        Ok(hand) => {
            hand.abandon();
            return None;
        }
        Err((fault, hand)) => {
            if fault != OfficeFault::Old {
                hand.abandon();
                return None;
            }
            hand
        }
    };
    match station.restart(alloc, hand, Incarnation::new(5)) {
        Ok(hand) => Some(hand),
        Err((_, hand)) => {
            hand.abandon();
            None
        }
    }
}

/// It leaves, and joins again two incarnations later: one is that of its leave.
fn leaves(alloc: Global, station: &mut Station, hand: Hand) -> bool {
    let empty = hand.shows(PageNo::new(0)) == None;
    if let Err((_, hand)) = station.leave(alloc, hand) {
        hand.abandon();
        return false;
    }
    match station.join(alloc, ClientNo::new(0)) {
        Ok(mut hand) => {
            let welcome = is_told(station.collect(&mut hand), ShortBody::Welcome);
            let seventh = hand.incarnation() == Incarnation::new(7);
            hand.abandon();
            empty && welcome && seventh
        }
        Err(_) => false,
    }
}

/// The whole case.
fn grants_and_commits<S: Alter>(
    alloc: Global,
    station: &mut Station,
    shelf: &mut Shelf<S>,
) -> bool {
    let Some((mut one, mut two)) = two_join(alloc, station) else {
        return false;
    };
    let mut good = prepare(alloc, station, &mut one);
    good = commits(alloc, station, &mut one).unwrap_or(false) && good;
    good = follows(alloc, station, &one, &mut two) && good;
    good = is_noted(station) && good;
    good = flushes(alloc, station, shelf, &mut one).unwrap_or(false) && good;
    two.abandon();
    match restarts(alloc, station, one) {
        Some(hand) => leaves(alloc, station, hand) && good,
        None => false,
    }
}

/// Whether a new station over zeros goes through it. The shelf has two of its pages.
pub(crate) fn is_worked_through<S: Alter>(alloc: Global, shelf: &mut Shelf<S>) -> bool {
    match over_zeros(alloc) {
        Some(mut station) => grants_and_commits(alloc, &mut station, shelf),
        None => false,
    }
}

#[test]
fn station_grants(rt: HostRuntime) {
    assert!(rt; goes_well(Trial::Station, &rt, rt.alloc()));
}
