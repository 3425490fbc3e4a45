//! What plays print.
use cb_console::play_to;
use std::alloc::Global;

/// One client, eight pages, four slots.
const FIRST: &str = "clients = 1\npages = 8\npage_size = 16\nslots = 4\n";

/// Whether a play of two events is printed whole, or so far where memory was refused.
fn is_whole_or_so_far(status: u8, out: &[u8], err: &[u8]) -> bool {
    let whole = b"1 ok 0:Hello:0\n2 taken 1:Welcome:0\ncommits 0\nserial: yes\n".as_slice();
    if status == 0 {
        return out == whole && err.is_empty();
    }
    status == 4
        && err == b"memory\n".as_slice()
        && whole.starts_with(out)
        && !out.ends_with(b"yes\n")
}

/// The same of such a play, as far as there is memory for what is printed.
fn plays_whole_or_so_far(alloc: Global) -> Option<bool> {
    // Room for all that is printed, so that no write is refused.
    let mut out = Vec::with_capacity(alloc, 128).ok()?;
    let mut err = Vec::with_capacity(alloc, 128).ok()?;
    let schedule = b"hello 0\ntake 0\n";
    match play_to(alloc, FIRST.as_bytes(), schedule, &mut out, &mut err) {
        Ok(status) => Some(is_whole_or_so_far(status, out.as_slice(), err.as_slice())),
        Err(_) => Some(false),
    }
}

/// Passes also where memory runs out: an allocation may be made to fail. Then the lines so far are
/// printed, and no others.
#[test]
fn play_without_memory(rt: HostRuntime) {
    assert!(rt; plays_whole_or_so_far(rt.alloc()).unwrap_or(true));
}
