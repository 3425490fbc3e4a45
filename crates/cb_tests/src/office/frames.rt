//! What clients say, and what they are told.
use crate::stores::page_of;
use cb_frame::{Body, Frame, ShortBody, ShortFrame, Write, Writes};
use cb_hands::{Hand, Shown};
use cb_page::{GrantNo, PageNo, PageSet, TxnNo, Version};
use cb_station::OfficeFault;
use std::alloc::{AllocError, Global};

pub(crate) fn said(hand: &Hand, body: ShortBody) -> Frame {
    Frame::from(ShortFrame {
        client: hand.client(),
        incarnation: hand.incarnation(),
        body,
    })
}

pub(crate) fn ask_read(hand: &Hand, txn: TxnNo, page: PageNo) -> Frame {
    said(hand, ShortBody::AskRead { txn, page })
}

pub(crate) fn ask_write(hand: &Hand, txn: TxnNo, page: PageNo, grant: GrantNo) -> Frame {
    said(hand, ShortBody::AskWrite { txn, page, grant })
}

/// One more page for a Commit to write, of bytes 7.
pub(crate) fn write(
    alloc: Global,
    writes: &mut Writes,
    page: PageNo,
    grant: GrantNo,
) -> Result<(), AllocError> {
    let bytes = page_of(alloc, 7, 16)?;
    writes.push(Write { page, grant, bytes })
}

pub(crate) fn commit(hand: &Hand, txn: TxnNo, writes: Writes) -> Frame {
    Frame {
        client: hand.client(),
        incarnation: hand.incarnation(),
        body: Body::Commit { txn, writes },
    }
}

pub(crate) fn no_writes(alloc: Global) -> Writes {
    Writes::from_vec(Vec::new(alloc))
}

/// A Commit of one page.
pub(crate) fn commit_one(
    alloc: Global,
    hand: &Hand,
    txn: TxnNo,
    page: PageNo,
    grant: GrantNo,
) -> Result<Frame, AllocError> {
    let mut writes = no_writes(alloc);
    write(alloc, &mut writes, page, grant)?;
    Ok(commit(hand, txn, writes))
}

pub(crate) fn insert(pages: &mut PageSet, page: PageNo) {
    if page.index() < pages.pages() {
        pages.insert(page);
    }
}

/// What a frame without page bytes says.
pub(crate) fn short_body(frame: &Frame) -> Option<ShortBody> {
    match &frame.body {
        Body::Short(told) => Some(*told),
        _ => None,
    }
}

/// What was collected is a message without page bytes, namely this one.
pub(crate) fn is_told(frame: Result<Option<Frame>, OfficeFault>, told: ShortBody) -> bool {
    match frame {
        Ok(Some(frame)) => short_body(&frame) == Some(told),
        _ => false,
    }
}

/// What was collected is a Granted.
pub(crate) fn is_granted(
    frame: Result<Option<Frame>, OfficeFault>,
    page: PageNo,
    grant: GrantNo,
    version: Version,
) -> bool {
    match frame {
        Ok(Some(frame)) => grants(&frame, page, grant, version),
        _ => false,
    }
}

fn grants(frame: &Frame, page: PageNo, grant: GrantNo, version: Version) -> bool {
    match &frame.body {
        Body::Granted {
            page: granted,
            grant: number,
            version: at,
            ..
        } => *granted == page && *number == grant && *at == version,
        _ => false,
    }
}

pub(crate) fn shown(grant: GrantNo, version: Version, may_write: bool) -> Option<Shown> {
    Some(Shown {
        grant,
        version,
        may_write,
    })
}
