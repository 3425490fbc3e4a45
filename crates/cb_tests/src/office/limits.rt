//! A station at the greatest limits.
use crate::office::batches::first_written;
use crate::office::frames::{ask_read, ask_write, commit, insert, no_writes, write};
use crate::office::stations::greatest;
use crate::running::trials::{Trial, goes_well};
use cb_hands::Hand;
use cb_page::{ClientNo, CommitNo, Limits, PageNo, PageSet, TxnNo};
use cb_shelf::{Shelf, Written};
use cb_station::{OfficeFault, Station};
use sqlite::Alter;
use std::alloc::Global;

/// How many pages are written: the last one of each 64.
const WRITTEN: u32 = 64;

/// Reads the pages, and may write each.
fn is_permitted(
    alloc: Global,
    station: &mut Station,
    hand: &mut Hand,
    txn: TxnNo,
) -> Result<bool, OfficeFault> {
    for number in 0..WRITTEN {
        let page = PageNo::new(number * 64 + 63);
        let read = ask_read(hand, txn, page);
        station.take(alloc, &read, hand)?;
        let _granted = station.collect(hand)?;
        let Some(held) = hand.held(page) else {
            return Ok(false);
        };
        let ask = ask_write(hand, txn, page, held.grant);
        station.take(alloc, &ask, hand)?;
        let _permission = station.collect(hand)?;
    }
    Ok(true)
}

/// Commits all the pages; one batch has them. It is reported by what was written, which is handed
/// back as long as nothing was committed.
fn commits(
    alloc: Global,
    station: &mut Station,
    hand: &mut Hand,
    txn: TxnNo,
    first: Written,
) -> Result<bool, OfficeFault> {
    let Err(first) = station.report(alloc, first) else {
        return Ok(false);
    };
    let mut reads = PageSet::new(alloc, 4096)?;
    let mut writes = no_writes(alloc);
    for number in 0..WRITTEN {
        let page = PageNo::new(number * 64 + 63);
        if let Some(shown) = hand.shows(page) {
            insert(&mut reads, page);
            write(alloc, &mut writes, page, shown.grant)?;
        }
    }
    let frame = commit(hand, txn, writes);
    let number = station.commit(alloc, &frame, &reads, hand)?;
    let pages = match station.batch(alloc)? {
        Some(batch) => batch.pages().len(),
        None => 0,
    };
    let Ok(reported) = station.report(alloc, first) else {
        return Ok(false);
    };
    let is_reported = reported.number() == number && reported.next() == Some(CommitNo::new(2));
    Ok(pages == WRITTEN as usize && is_reported && station.batch(alloc)?.is_none())
}

/// The last client works alone, after all others have joined.
fn last_works(alloc: Global, station: &mut Station, first: Written) -> Result<bool, OfficeFault> {
    for client in 0..31u16 {
        station.join(alloc, ClientNo::new(client))?.abandon();
    }
    let mut hand = station.join(alloc, ClientNo::new(31))?;
    let worked = works(alloc, station, &mut hand, first);
    hand.abandon();
    worked
}

fn works(
    alloc: Global,
    station: &mut Station,
    hand: &mut Hand,
    first: Written,
) -> Result<bool, OfficeFault> {
    let txn = TxnNo::new(1);
    let _welcome = station.collect(hand)?;
    let permitted = is_permitted(alloc, station, hand, txn)?;
    let committed = commits(alloc, station, hand, txn, first)?;
    let _done = station.collect(hand)?;
    Ok(permitted && committed && station.collect(hand)?.is_none())
}

/// Whether a client works at a station of the greatest limits. The shelf has no room for what it
/// commits. So another first batch is written there: a report tells a batch by its number alone.
pub(crate) fn works_at_the_greatest<S: Alter>(
    alloc: Global,
    limits: &Limits,
    shelf: &mut Shelf<S>,
) -> bool {
    let Some(first) = first_written(alloc, limits, shelf) else {
        return false;
    };
    match greatest(alloc) {
        Some(mut station) => last_works(alloc, &mut station, first).unwrap_or(false),
        None => false,
    }
}

#[test]
fn greatest_limits(rt: HostRuntime) {
    assert!(rt; goes_well(Trial::Greatest, &rt, rt.alloc()));
}
