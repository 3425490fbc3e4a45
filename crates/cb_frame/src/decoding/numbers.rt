//! Numbers at places of the input, their highest byte first.
ghost use Rattle.std.specs.Prelude.{◌≡◌, ◌+◌, ◌≤◌, ◌&&◌, length, nat_lt};
ghost use Rattle.std.specs.Int.{w16, w32, w64};
ghost use Rattle.cb_page.specs.Numbers.{is_number, is_version};
ghost use Rattle.cb_frame.specs.Checks.{number, GivesInRange};
ghost use Rattle.cb_frame.specs.Versions.{size_length, size_width};

use crate::{FrameFault, FrameVersion};
use cb_page::{CommitNo, GrantNo, Limits, MAX_NUMBER, PageNo, TxnNo, Version};

#[tactic(auto, unfolding(crate::specs::Checks::number))]
pub fn u16_at(bytes: &[u8], at: usize) -> u16
    requires { at + 2 ≤ length bytes.now }
    ensures { result ≡ number w16 at bytes.now }
{
    let word = &bytes[at..at + 2];
    u16::from_be_bytes([word[0], word[1]])
}

#[tactic(auto, unfolding(crate::specs::Checks::number))]
pub fn u32_at(bytes: &[u8], at: usize) -> u32
    requires { at + 4 ≤ length bytes.now }
    ensures { result ≡ number w32 at bytes.now }
{
    let word = &bytes[at..at + 4];
    u32::from_be_bytes([word[0], word[1], word[2], word[3]])
}

#[tactic(auto, unfolding(crate::specs::Checks::number))]
pub fn u64_at(bytes: &[u8], at: usize) -> u64
    requires { at + 8 ≤ length bytes.now }
    ensures { result ≡ number w64 at bytes.now }
{
    let word = &bytes[at..at + 8];
    u64::from_be_bytes([
        word[0], word[1], word[2], word[3], word[4], word[5], word[6], word[7],
    ])
}

/// The size before a page's bytes.
pub fn size_at(version: FrameVersion, bytes: &[u8], at: usize) -> usize
    requires { at + size_length version ≤ length bytes.now }
    ensures { result ≡ number (size_width version) at bytes.now }
{
    match version {
        FrameVersion::One => usize::from(u16_at(bytes, at)),
        FrameVersion::Two => u32_at(bytes, at) as usize,
    }
}

/// Whether a grant, a transaction, an incarnation or a commit can have this number.
pub fn is_number(n: u64) -> bool
    ensures { result ≡ is_number n }
{
    1 <= n && n <= MAX_NUMBER
}

pub fn txn_at(bytes: &[u8], at: usize) -> Result<TxnNo, FrameFault>
    requires { at + 8 ≤ length bytes.now }
    ensures { let n = number w64 at bytes.now in GivesInRange (is_number n) n result }
{
    TxnNo::checked(u64_at(bytes, at)).ok_or(FrameFault::Range)
}

pub fn commit_no_at(bytes: &[u8], at: usize) -> Result<CommitNo, FrameFault>
    requires { at + 8 ≤ length bytes.now }
    ensures { let n = number w64 at bytes.now in GivesInRange (is_number n) n result }
{
    CommitNo::checked(u64_at(bytes, at)).ok_or(FrameFault::Range)
}

pub fn version_at(bytes: &[u8], at: usize) -> Result<Version, FrameFault>
    requires { at + 8 ≤ length bytes.now }
    ensures { let n = number w64 at bytes.now in GivesInRange (is_version n) n result }
{
    Version::checked(u64_at(bytes, at)).ok_or(FrameFault::Range)
}

pub fn grant_at(bytes: &[u8], at: usize) -> Result<GrantNo, FrameFault>
    requires { at + 8 ≤ length bytes.now }
    ensures { let n = number w64 at bytes.now in GivesInRange (is_number n) n result }
{
    GrantNo::checked(u64_at(bytes, at)).ok_or(FrameFault::Range)
}

pub fn page_at(limits: &Limits, bytes: &[u8], at: usize) -> Result<PageNo, FrameFault>
    requires { at + 4 ≤ length bytes.now }
    ensures { let n = number w32 at bytes.now in GivesInRange (nat_lt n limits.now.pages) n result }
{
    PageNo::in_store(limits, u64::from(u32_at(bytes, at))).ok_or(FrameFault::Range)
}

/// A page and its grant.
pub fn page_grant_at(
    limits: &Limits,
    bytes: &[u8],
    at: usize,
) -> Result<(PageNo, GrantNo), FrameFault>
    requires { at + 12 ≤ length bytes.now }
    ensures { let page = number w32 at bytes.now in let grant = number w64 (at + 4) bytes.now in
        GivesInRange (nat_lt page limits.now.pages && is_number grant) (page, grant) result }
{
    let page = page_at(limits, bytes, at)?;
    let grant = grant_at(bytes, at + 4)?;
    Ok((page, grant))
}
