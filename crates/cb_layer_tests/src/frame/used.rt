//! How many bytes of an input a frame has.

use cb_frame::{FrameFault, decode};
use cb_test_parts::stores::small_limits;
use std::alloc::Global;

// In version 1: client 3, in its first incarnation, asks to read page 5 in transaction 7. One byte
// stands behind.
static ASK_AND_MORE: [u8; 29] = [
    1, 2, 0, 3, 0, 0, 0, 0, 0, 0, 0, 1, 0, 0, 0, 12, 0, 0, 0, 0, 0, 0, 0, 7, 0, 0, 0, 5, 0,
];

// Whether a frame of so many bytes is at the front; none if the bytes are too few.
fn uses(alloc: Global, bytes: &[u8], wanted: Option<usize>) -> bool {
    let Some(limits) = small_limits(4) else {
        return false;
    };
    match decode(alloc, &limits, bytes) {
        Ok((_, used)) => wanted == Some(used),
        Err(fault) => wanted.is_none() && fault == FrameFault::Short,
    }
}

/// With one byte behind it, without, without its last one, and of no bytes.
#[test]
fn bytes_of_a_frame(rt: HostRuntime) {
    let bytes = ASK_AND_MORE.as_slice();
    assert!(rt; uses(rt.alloc(), bytes, Some(28)));
    assert!(rt; uses(rt.alloc(), &bytes[..28], Some(28)));
    assert!(rt; uses(rt.alloc(), &bytes[..27], None));
    assert!(rt; uses(rt.alloc(), &bytes[..0], None));
}
