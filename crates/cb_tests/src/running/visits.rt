//! What clients say by hand, and what is still to be written.
use cb_frame::{Body, Frame, ShortBody, ShortFrame, Write, Writes};
use cb_hands::Hand;
use cb_page::{GrantNo, Page, PageNo, PageSet, TxnNo};
use cb_station::{Office, Station};
use std::alloc::{AllocError, Global};
use std::sync::Wait;

/// Page 0 alone, of two.
pub(crate) fn first_page(alloc: Global) -> Result<PageSet, AllocError> {
    let mut pages = PageSet::new(alloc, 2)?;
    pages.insert(PageNo::new(0));
    Ok(pages)
}

/// Page 0, filled with sevens.
fn sevens(alloc: Global, grant: GrantNo) -> Result<Writes, AllocError> {
    let mut writes = Writes::from_vec(Vec::new(alloc));
    let bytes = Page::from_vec(vec![in alloc; 7; 16]?);
    writes.push(Write {
        page: PageNo::new(0),
        grant,
        bytes,
    })?;
    Ok(writes)
}

/// Says something, and takes what is sent for it; whether it was taken.
pub(crate) fn says(alloc: Global, station: &mut Station, hand: &mut Hand, body: ShortBody) -> bool {
    let frame = Frame::from(ShortFrame {
        client: hand.client(),
        incarnation: hand.incarnation(),
        body,
    });
    let taken = station.take(alloc, &frame, hand).is_ok();
    for _frame in 0..4 {
        let _sent = station.collect(hand).is_ok();
    }
    taken
}

/// Whether it commits these writes, having read these pages.
pub(crate) fn commit(
    alloc: Global,
    station: &mut Station,
    hand: &mut Hand,
    txn: TxnNo,
    reads: &PageSet,
    writes: Writes,
) -> bool {
    let frame = Frame {
        client: hand.client(),
        incarnation: hand.incarnation(),
        body: Body::Commit { txn, writes },
    };
    station.commit(alloc, &frame, reads, hand).is_ok()
}

/// Whether it commits page 0 of sevens, having read it.
fn commit_sevens(
    alloc: Global,
    station: &mut Station,
    hand: &mut Hand,
    txn: TxnNo,
    grant: GrantNo,
) -> bool {
    match (first_page(alloc), sevens(alloc, grant)) {
        (Ok(reads), Ok(writes)) => commit(alloc, station, hand, txn, &reads, writes),
        _ => false,
    }
}

/// Whether a transaction reads page 0, writes it, and commits.
pub(crate) fn commit_page(
    alloc: Global,
    station: &mut Station,
    hand: &mut Hand,
    txn: TxnNo,
) -> bool {
    let page = PageNo::new(0);
    let asked = says(alloc, station, hand, ShortBody::AskRead { txn, page });
    let Some(shown) = hand.shows(page) else {
        return false;
    };
    let grant = shown.grant;
    let body = ShortBody::AskWrite { txn, page, grant };
    asked && says(alloc, station, hand, body) && commit_sevens(alloc, station, hand, txn, grant)
}

/// Whether every commit is on disk.
pub(crate) fn is_reported<R: Wait>(rt: &R, alloc: Global, office: &Office) -> bool {
    match office.lock(rt).batch(alloc) {
        Ok(batch) => batch.is_none(),
        Err(_) => false,
    }
}
