//! What a commit reads and writes, beside what its hand shows.
ghost use Rattle.std.specs.Prelude.{◌≡◌, ◌↔◌, ◌++◌, length, map, IfOk, IsTrue, OnOk};
ghost use Rattle.cb_frame.specs.Grammar.{page_of};
ghost use Rattle.cb_station.specs.Moves.{HoldsAll, MayWrite, MayWriteAll, read_of};
ghost use Rattle.cb_station.specs.Moves.{reads_below};

use cb_frame::Write;
use cb_hands::{Hand, Read};
use cb_page::{PageNo, PageSet, TxnNo};
use std::alloc::{AllocError, Global};

/// Whether the hand has a grant of each of the pages.
pub(crate) fn holds_all(hand: &Hand, pages: &PageSet) -> bool
    ensures { IsTrue result ↔ HoldsAll hand.now pages.now }
{
    let mut from = 0;
    while let Some(page) = pages.next(from) {
        if hand.held(page).is_none() {
            return false;
        }
        from = page.index() + 1;
    }
    true
}

/// Whether the hand shows of each of the pages that this transaction may write it, by that grant.
pub(crate) fn may_write_all(hand: &Hand, txn: TxnNo, writes: &[Write]) -> bool
    ensures { IsTrue result ↔ MayWriteAll hand.now txn writes.now }
{
    for write in writes {
        if !may_write(hand, txn, write) {
            return false;
        }
    }
    true
}

fn may_write(hand: &Hand, txn: TxnNo, write: &Write) -> bool
    ensures { IsTrue result ↔ MayWrite hand.now txn write.now }
{
    match hand.shows(write.page) {
        Some(shown) => { shown.may_write && shown.grant == write.grant && hand.txn() == Some(txn) }
        None => false,
    }
}

/// The pages, at the versions of the grants held.
pub(crate) fn reads_of(alloc: Global, hand: &Hand, pages: &PageSet) -> Result<Vec<Read>, AllocError>
    ensures { IfOk result (λ reads.
        reads.items ≡ reads_below hand.now pages.now (length pages.now)) }
{
    let mut reads = Vec::new(alloc);
    let mut from = 0;
    while let Some(page) = pages.next(from) {
        push_read(&mut reads, hand, page)?;
        from = page.index() + 1;
    }
    Ok(reads)
}

/// Puts the page behind the others, at the version of the grant held, if there is one.
fn push_read(reads: &mut Vec<Read>, hand: &Hand, page: PageNo) -> Result<(), AllocError>
    ensures { OnOk result (reads.new.items ≡ reads.old.items ++ read_of hand.now page) }
{
    if let Some(held) = hand.held(page) {
        reads.push(Read {
            page,
            version: held.version,
        })?;
    }
    Ok(())
}

/// The pages that are written.
pub(crate) fn pages_of(alloc: Global, writes: &[Write]) -> Result<Vec<PageNo>, AllocError>
    ensures { IfOk result (λ pages. pages.items ≡ map page_of writes.now) }
{
    let mut pages = Vec::with_capacity(alloc, writes.len())?;
    for write in writes {
        pages.push(write.page)?;
    }
    Ok(pages)
}
