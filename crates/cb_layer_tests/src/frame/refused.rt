//! Pages and frames where growths of memory are refused: what isn't refused is as ever.

use cb_frame::{Frame, FrameFault, decode, encode, encode_granted};
use cb_page::{ClientNo, GrantNo, Incarnation, Limits, Page, PageNo, PageSet, Version};
use cb_test_parts::stores::small_limits;
use std::alloc::{AllocError, Global};

/// With the Nth growth refused.
#[test]
fn pages_with_growths_refused(rt: HostRuntime) {
    if let Ok(zeros) = Page::zeros(rt.alloc(), 16) {
        assert!(rt; zeros.as_slice() == [0; 16].as_slice());
    }
    if let Ok(copy) = Page::copy_of(rt.alloc(), [7, 8, 9].as_slice()) {
        assert!(rt; copy.as_slice() == [7, 8, 9].as_slice());
    }
    if let Ok(set) = PageSet::new(rt.alloc(), 200) {
        assert!(rt; set.pages() == 200 && set.next(0).is_none());
    }
}

// A grant of page 5, all zeros, to client 0.
static GRANTED: [u8; 56] = [
    2, 66, 0, 0, 0, 0, 0, 0, 0, 0, 0, 1, 0, 0, 0, 40, 0, 0, 0, 5, 0, 0, 0, 0, 0, 0, 0, 1, 0, 0, 0,
    0, 0, 0, 0, 0, 0, 0, 0, 16, 0, 0, 0, 0, 0, 0, 0, 0, 0, 0, 0, 0, 0, 0, 0, 0,
];

// A commit of pages 5 and 6, all zeros, by client 0.
static COMMIT: [u8; 90] = [
    2, 6, 0, 0, 0, 0, 0, 0, 0, 0, 0, 1, 0, 0, 0, 74, 0, 0, 0, 0, 0, 0, 0, 1, 0, 2, 0, 0, 0, 5, 0,
    0, 0, 0, 0, 0, 0, 1, 0, 0, 0, 16, 0, 0, 0, 0, 0, 0, 0, 0, 0, 0, 0, 0, 0, 0, 0, 0, 0, 0, 0, 6,
    0, 0, 0, 0, 0, 0, 0, 1, 0, 0, 0, 16, 0, 0, 0, 0, 0, 0, 0, 0, 0, 0, 0, 0, 0, 0, 0, 0,
];

// Whether a frame that fits is spelled so.
fn is_spelled(alloc: Global, limits: &Limits, frame: &Frame, wanted: &[u8]) -> Option<bool> {
    if !frame.fits(limits) {
        return Some(false);
    }
    let bytes = encode(alloc, frame).ok()?;
    Some(bytes.as_slice() == wanted)
}

// Whether so many bytes are read, and come back, as far as there is memory for that.
fn comes_back(alloc: Global, limits: &Limits, bytes: &[u8]) -> bool {
    match decode(alloc, limits, bytes) {
        Ok((frame, used)) => {
            used == bytes.len() && is_spelled(alloc, limits, &frame, bytes) != Some(false)
        }
        Err(fault) => fault == FrameFault::Memory,
    }
}

// The frame that is spelled in `GRANTED`, whose page bytes are lent.
fn granted_lent(alloc: Global) -> Result<Vec<u8>, AllocError> {
    encode_granted(
        alloc,
        ClientNo::new(0),
        Incarnation::new(1),
        PageNo::new(5),
        GrantNo::new(1),
        Version::new(0),
        [0; 16].as_slice(),
    )
}

// Whether each of them does, where there is memory for it.
fn frames_come_back(alloc: Global) -> Option<bool> {
    let limits = small_limits(4)?;
    let read = comes_back(alloc, &limits, GRANTED.as_slice())
        && comes_back(alloc, &limits, COMMIT.as_slice());
    let lent = match granted_lent(alloc) {
        Ok(lent) => lent.as_slice() == GRANTED.as_slice(),
        Err(_) => true,
    };
    Some(read && lent)
}

/// With the Nth growth refused.
#[test]
fn frames_with_growths_refused(rt: HostRuntime) {
    assert!(rt; frames_come_back(rt.alloc()) == Some(true));
}
