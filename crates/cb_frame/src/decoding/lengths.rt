//! Lengths, counts and sizes.
ghost use Rattle.std.specs.Prelude.{◌≡◌, ◌≤◌, ◌+◌, ◌*◌, length, true};
ghost use Rattle.cb_frame.specs.Checks.{can_be_length, count_in, parts_fit, short_length};
ghost use Rattle.cb_frame.specs.Checks.{sizes_fit, write_length};
ghost use Rattle.cb_frame.specs.Kinds.{is_short};

use crate::decoding::numbers::{size_at, u16_at};
use crate::{FrameVersion, Kind};
use cb_page::Limits;

/// The length of one page of a commit: the page, the grant, the size and the bytes.
pub fn write_length(version: FrameVersion, page_size: usize) -> usize
    requires { page_size ≤ 65536 }
    ensures { result ≡ write_length version page_size }
{
    12 + version.size_length() + page_size
}

/// How many pages a commit's body of this length has.
pub fn count_in(version: FrameVersion, page_size: usize, len: usize) -> usize
    requires size { page_size ≤ 65536 }
    requires len { 10 ≤ len }
    ensures { result ≡ count_in version page_size len }
{
    (len - 10) / write_length(version, page_size)
}

/// Whether a body of this kind can have this length.
#[tactic(auto, unfolding(crate::specs::Checks::can_be_length))]
pub fn can_be_length(limits: &Limits, version: FrameVersion, kind: Kind, len: usize) -> bool
    ensures { result ≡ can_be_length limits.now version kind len }
{
    let page_size = limits.page_size();
    match kind {
        Kind::Commit => {
            10 <= len
                && (len - 10) % write_length(version, page_size) == 0
                && count_in(version, page_size, len) <= limits.pages() as usize
        }
        Kind::Granted => len == 20 + version.size_length() + page_size,
        _ => len == short_length(kind),
    }
}

/// How long bodies of a kind without page bytes are.
#[tactic(auto, unfolding(crate::specs::Checks::short_length, crate::specs::Checks::short_at))]
fn short_length(kind: Kind) -> usize
    requires { is_short kind ≡ true }
    ensures { result ≡ short_length kind }
{
    match kind {
        Kind::Hello | Kind::Welcome => 0,
        Kind::Drop | Kind::AbortNow => 8,
        Kind::AskRead | Kind::GiveBack | Kind::Callback => 12,
        Kind::Done => 16,
        Kind::AskWrite | Kind::InUse | Kind::MayWrite | Kind::Downgraded | Kind::Downgrade => 20,
        Kind::Commit | Kind::Granted => unreachable!(),
    }
}

/// Whether the count and the sizes in a body are those that its length gives.
#[tactic(auto, unfolding(crate::specs::Checks::can_be_length, crate::specs::Checks::parts_fit))]
pub fn parts_fit(limits: &Limits, version: FrameVersion, kind: Kind, body: &[u8]) -> bool
    requires { can_be_length limits.now version kind (length body.now) ≡ true }
    ensures { result ≡ parts_fit limits.now version kind body.now }
{
    let page_size = limits.page_size();
    match kind {
        Kind::Commit => {
            let count = count_in(version, page_size, body.len());
            usize::from(u16_at(body, 8)) == count
                && sizes_fit(version, page_size, count, &body[10..])
        }
        Kind::Granted => size_at(version, body, 20) == page_size,
        _ => true,
    }
}

fn sizes_fit(version: FrameVersion, page_size: usize, count: usize, entries: &[u8]) -> bool
    requires small { page_size ≤ 65536 }
    requires len { length entries.now ≡ count * write_length version page_size }
    ensures { result ≡ sizes_fit version page_size count entries.now }
{
    let size = write_length(version, page_size);
    let mut rest = entries;
    for _ in 0..count {
        if size_at(version, rest, 12) != page_size {
            return false;
        }
        let (_, after) = rest.split_at(size);
        rest = after;
    }
    true
}
