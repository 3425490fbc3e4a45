//! From bytes to the frame in front of them.
ghost use Rattle.std.specs.Prelude.{◌≡◌, ◌≢◌, ℕ, Err, false, None, slice_index, ◌<◌, ◌≤◌, ◌+◌};
ghost use Rattle.std.specs.Prelude.{◌++◌, List, length, take, true, not, ◌∷◌, [], IfOk, IfErr};
ghost use Rattle.std.specs.Prelude.{MatchResult};
ghost use Rattle.cb_page.specs.Bounds.{Bounds, AreInRange};
ghost use Rattle.cb_page.specs.Faults.{first_fault};
ghost use Rattle.cb_page.specs.Numbers.{IsNumber};
ghost use Rattle.cb_frame.specs.Grammar.{IsFrameIn, IsFrameInSome};
ghost use Rattle.cb_frame.specs.Kinds.{is_short};
ghost use Rattle.cb_frame.specs.declared.frame.Frame.{Frame};
ghost use Rattle.cb_frame.specs.declared.version.FrameVersion.{FrameVersion};
ghost use Rattle.cb_frame.specs.declared.fault.FrameFault.TheVariants as fault;
ghost use Rattle.cb_frame.specs.Checks.{version_of, kind_of, has_pages, can_be_length, is_sender};
ghost use Rattle.cb_frame.specs.Checks.{body_length, frame_at, frame_in_front, content_causes};
ghost use Rattle.cb_frame.specs.Checks.{causes, fault_in_bytes, Gives};

mod bodies;
mod entries;
mod lengths;
mod numbers;

use crate::{Frame, FrameFault, FrameVersion, Kind};
use bodies::body_of;
use cb_page::{ClientNo, Incarnation, Limits};
use lengths::{can_be_length, parts_fit};
use numbers::{is_number, u16_at, u32_at, u64_at};
use std::alloc::Global;

/// The frame at the front of the bytes, and how many bytes it takes. Bytes may follow it; they are
/// left unread.
///
/// If there is no frame in front, the first fault that applies is returned, in this order: fewer
/// than 16 bytes are [`FrameFault::Short`]; a version other than 1 and 2, or 1 if pages have more
/// than 4,096 bytes, is `Version`; a kind that the version doesn't have is `Kind`; a length that a
/// body of this kind can't have is `Length`; fewer bytes than the header says are `Short`; a count
/// or a size that contradicts the length is `Length`; a number out of its range is `Range`; a
/// commit whose pages don't rise is `Order`. All of this is checked before any memory is taken.
/// Memory is then taken once for each page's bytes, and once for a commit's list of pages. `Memory`
/// is returned if that memory is refused. It never is for a frame without page bytes: a commit of
/// no pages takes no memory.
pub fn decode(alloc: Global, limits: &Limits, bytes: &[u8]) -> Result<(Frame, usize), FrameFault>
    // What is read is the one spelling of a frame in its version.
    ensures found { IfOk result (λ read. IsFrameInSome limits.now read.0 (take read.1 bytes.now)) }
    ensures used { IfOk result (λ read. read.1 ≤ length bytes.now) }
    // A frame in front is read, whatever follows it, unless memory runs out.
    ensures only { (version : FrameVersion) (frame : Frame) (spelled rest : List ℕ) →
        IsFrameIn version limits.now frame spelled → bytes.now ≡ spelled ++ rest →
        MatchResult result (λ read. read ≡ (frame, length spelled)) (λ e. e ≡ fault.Memory) }
    // A fault is the first whose cause stands; want of memory never stands in place of one.
    ensures fault { IfErr result (λ e.
        first_fault (causes limits.now bytes.now) ≡ fault_in_bytes e) }
    // Memory is answered only if the kind is one whose frames can have page bytes.
    ensures memory { has_pages (kind_of (slice_index bytes.now 1)) ≡ false →
        result ≢ Err fault.Memory }
    // It isn't answered for a commit of no pages either: its body has 10 bytes.
    ensures empty { body_length bytes.now ≤ 10 → result ≢ Err fault.Memory }
{
    read(alloc, limits, bytes)
}

/// Two frames never have the same spelling, in whichever versions, and no spelling is the beginning
/// of another. If two frames are both spelled at the front of the same bytes, they are therefore
/// one frame in one version, whatever follows. The function does nothing; its contract is this law.
pub fn one_spelling()
    ensures { (limits : Bounds) (version other : FrameVersion) (frame another : Frame)
        (spelled front rest more : List ℕ) →
        AreInRange limits →
        IsFrameIn version limits frame spelled → IsFrameIn other limits another front →
        spelled ++ rest ≡ front ++ more → (version ≡ other) × (frame ≡ another) × (rest ≡ more) }
{}

/// The frame at the front, or the first fault.
fn read(alloc: Global, limits: &Limits, bytes: &[u8]) -> Result<(Frame, usize), FrameFault>
    ensures frame { Gives
        (first_fault (causes limits.now bytes.now))
        (frame_in_front limits.now bytes.now, 16 + body_length bytes.now)
        result }
    ensures range { AreInRange limits.now }
    ensures memory { has_pages (kind_of (slice_index bytes.now 1)) ≡ false →
        result ≢ Err fault.Memory }
    ensures empty { body_length bytes.now ≤ 10 → result ≢ Err fault.Memory }
{
    let page_size = limits.page_size();
    if bytes.len() < 16 {
        return Err(FrameFault::Short);
    }
    let Some(version) = version_of(bytes[0]) else {
        return Err(FrameFault::Version);
    };
    if !version.has_size(page_size) {
        return Err(FrameFault::Version);
    }
    let Some(kind) = kind_of(bytes[1]) else {
        return Err(FrameFault::Kind);
    };
    if !version.has_kind(kind) {
        return Err(FrameFault::Kind);
    }
    let len = u32_at(bytes, 12) as usize;
    if !can_be_length(limits, version, kind, len) {
        return Err(FrameFault::Length);
    }
    if bytes.len() < 16 + len {
        return Err(FrameFault::Short);
    }
    let frame = frame_of(alloc, limits, version, kind, bytes, len)?;
    Ok((frame, 16 + len))
}

#[tactic(auto, unfolding(crate::specs::Checks::version_of))]
fn version_of(byte: u8) -> Option<FrameVersion>
    ensures { result ≡ version_of byte }
{
    match byte {
        1 => Some(FrameVersion::One),
        2 => Some(FrameVersion::Two),
        _ => None,
    }
}

#[tactic(auto, unfolding(crate::specs::Checks::kind_of))]
fn kind_of(code: u8) -> Option<Kind>
    ensures { result ≡ kind_of code }
{
    match code {
        1 => Some(Kind::Hello),
        2 => Some(Kind::AskRead),
        3 => Some(Kind::AskWrite),
        4 => Some(Kind::GiveBack),
        5 => Some(Kind::InUse),
        6 => Some(Kind::Commit),
        7 => Some(Kind::Drop),
        8 => Some(Kind::Downgraded),
        65 => Some(Kind::Welcome),
        66 => Some(Kind::Granted),
        67 => Some(Kind::MayWrite),
        68 => Some(Kind::Callback),
        69 => Some(Kind::Done),
        70 => Some(Kind::AbortNow),
        71 => Some(Kind::Downgrade),
        _ => None,
    }
}

/// A frame of a kind and a length that can be.
fn frame_of(
    alloc: Global,
    limits: &Limits,
    version: FrameVersion,
    kind: Kind,
    bytes: &[u8],
    len: usize,
) -> Result<Frame, FrameFault>
    requires len_is { len ≡ body_length bytes.now }
    requires whole { 16 + len ≤ length bytes.now }
    requires len { can_be_length limits.now version kind len ≡ true }
    ensures frame { Gives
        (first_fault (content_causes limits.now version kind bytes.now))
        (frame_at limits.now version kind bytes.now)
        result }
    ensures memory { is_short kind ≡ true → result ≢ Err fault.Memory }
    ensures empty { len ≤ 10 → result ≢ Err fault.Memory }
{
    let content = &bytes[16..16 + len];
    if !parts_fit(limits, version, kind, content) {
        return Err(FrameFault::Length);
    }
    let client = u16_at(bytes, 2);
    let incarnation = u64_at(bytes, 4);
    if !is_sender(limits, client, incarnation) {
        return Err(FrameFault::Range);
    }
    let body = body_of(alloc, limits, version, kind, content)?;
    Ok(Frame {
        client: ClientNo::new(client),
        incarnation: Incarnation::new(incarnation),
        body,
    })
}

#[tactic(auto, unfolding(crate::specs::Checks::is_sender))]
fn is_sender(limits: &Limits, client: u16, incarnation: u64) -> bool
    ensures value { result ≡ is_sender limits.now client incarnation }
    ensures client { result ≡ true → client < 32 }
    ensures incarnation { result ≡ true → IsNumber incarnation }
{
    limits.has_client(client) && is_number(incarnation)
}
