//! The end of a transaction, over all pages that it has locked.
ghost use Rattle.std.specs.Prelude.{◌≡◌, ℕ, ◌+◌, ◌<◌, ◌≤◌, [], ◌∷◌, ◌++◌, false, true, length};
ghost use Rattle.std.specs.Prelude.{IfOk, IfSome, IsOk, OnErr, Some};
ghost use Rattle.std.specs.Vec.{vec_capacity, vec_len};
ghost use Rattle.cb_page.specs.Flags.{has};
ghost use Rattle.cb_protocol.specs.Cache.{Abandon, TakeDone};
ghost use Rattle.cb_protocol.specs.Client.{ChangeCache, EndTransaction, LastOutcome, Say};
ghost use Rattle.cb_protocol.specs.Client.{bodies_said};
ghost use Rattle.cb_outbox.specs.Messages.{messages_of, short_of};
ghost use Rattle.cb_cache.specs.ByTable.{Does};
ghost use Rattle.cb_cache.specs.CacheState.{copy_at};
ghost use Rattle.cb_locks.specs.Dues.{called_by};
ghost use Rattle.cb_page.specs.Counting.{bit};
ghost use Rattle.cb_locks.specs.Locks.{due_at, ended, unlocked};
ghost use Rattle.cb_cache.specs.Ending.{Ends, all_sent_by, page_steps, pages_steps};
ghost use Rattle.cb_cache.specs.Owing.{OwesLocked};
ghost use Rattle.cb_cache.specs.Room.{room_below, speaks};

use crate::cache::Cache;
use crate::page_end::{end_page, may_say};
use cb_frame::{Frame, ShortFrame};
use cb_locks::ReadLocks;
use cb_page::{CommitNo, PageNo};
use cb_twoq::Chooser;
use std::alloc::{AllocError, Global};

/// How many frames the end of the transaction may say of its pages: one at most for each that is
/// due or bare, or that it wrote if it is dropped.
fn most_frames<Q: Chooser>(copies: &Cache<Q>, locks: &ReadLocks, dropped: bool) -> usize
    requires { OwesLocked copies.now locks.now }
    ensures said { length (bodies_said
        (pages_steps copies.now locks.now dropped copies.now.limits.pages)) ≤ result }
    ensures counted { result
        ≡ room_below copies.now locks.now dropped copies.now.limits.pages }
    ensures most { result ≤ 4096 }
{
    let mut count = 0;
    let mut from = 0;
    while let Some(page) = locks.locked().next(from) {
        count += most_of(copies, locks, page, dropped);
        from = page.index() + 1;
    }
    count
}

/// How many it may say of a page.
fn most_of<Q: Chooser>(copies: &Cache<Q>, locks: &ReadLocks, page: PageNo, dropped: bool) -> usize
    requires { page < length locks.now.locked }
    ensures said { length (bodies_said (page_steps copies.now locks.now dropped page)) ≤ result }
    ensures value { result ≡ bit (speaks copies.now locks.now dropped page) }
    ensures most { result ≤ 1 }
{
    may_say(copies, locks, page, dropped) as usize
}

/// A page's end, and the frame that is said of it.
fn end_one<Q: Chooser>(
    copies: &mut Cache<Q>,
    locks: &mut ReadLocks,
    page: PageNo,
    dropped: bool,
    frames: &mut Vec<Frame>,
)
    requires page { page < copies.old.limits.pages }
    requires locked { page < length locks.old.locked }
    requires held { IfSome (called_by (due_at locks.old page))
        (λ called. (copy_at copies.old page).held ≡ Some called.0) }
    requires unwritten { dropped ≡ false → has copies.old.wrote page ≡ false }
    requires room { vec_len frames.old
        + length (bodies_said (page_steps copies.old locks.old dropped page))
        ≤ vec_capacity frames.old }
    ensures does { Does copies.old (page_steps copies.old locks.old dropped page) copies.new }
    ensures says { messages_of frames.new.items ≡ messages_of frames.old.items
        ++ all_sent_by locks.old (bodies_said (page_steps copies.old locks.old dropped page)) }
    ensures capacity { vec_capacity frames.new ≡ vec_capacity frames.old }
    ensures locks { locks.new ≡ unlocked locks.old page }
{
    if let Some(frame) = end_page(copies, locks, page, dropped) {
        frames.push_reserved(frame);
    }
}

/// The end of each page that is locked, rising.
fn end_pages<Q: Chooser>(
    copies: &mut Cache<Q>,
    locks: &mut ReadLocks,
    dropped: bool,
    frames: &mut Vec<Frame>,
)
    requires owes { OwesLocked copies.old locks.old }
    requires unwritten { dropped ≡ false → (page : ℕ) → has copies.old.wrote page ≡ false }
    requires room { vec_len frames.old + length (bodies_said
        (pages_steps copies.old locks.old dropped copies.old.limits.pages))
        ≤ vec_capacity frames.old }
    ensures does { Does copies.old
        (pages_steps copies.old locks.old dropped copies.old.limits.pages) copies.new }
    ensures says { messages_of frames.new.items ≡ messages_of frames.old.items
        ++ all_sent_by locks.old (bodies_said
        (pages_steps copies.old locks.old dropped copies.old.limits.pages)) }
    ensures capacity { vec_capacity frames.new ≡ vec_capacity frames.old }
    ensures locks { locks.new ≡ ended locks.old }
{
    let mut from = 0;
    while let Some(page) = locks.locked().next(from) {
        end_one(copies, locks, page, dropped, frames);
        from = page.index() + 1;
    }
}

/// The transaction ends as committed with that number, which becomes the version of what it wrote.
/// Copies that are due or bare are given back, and permissions that are due alone are given up, by
/// rising page. Returns these frames.
///
/// `AllocError` only if memory for them was refused; nothing changes then.
pub fn commit_ends<Q: Chooser>(
    alloc: Global,
    copies: &mut Cache<Q>,
    locks: &mut ReadLocks,
    number: CommitNo,
) -> Result<Vec<Frame>, AllocError>
    requires { OwesLocked copies.old locks.old }
    ensures ok { IfOk result (λ frames. (outcome : LastOutcome) → Ends copies.old locks.old
        (EndTransaction outcome ∷ ChangeCache (TakeDone number) ∷ []) false
        frames.items copies.new locks.new) }
    ensures err { OnErr result ((copies.new ≡ copies.old) × (locks.new ≡ locks.old)) }
    ensures room { IfOk result (λ frames. vec_capacity frames
        ≡ room_below copies.old locks.old false copies.old.limits.pages) }
    ensures none { room_below copies.old locks.old false copies.old.limits.pages ≡ 0
        → IsOk result }
{
    let most = most_frames(copies, locks, false);
    let mut frames = Vec::with_capacity(alloc, most)?;
    copies.take_done(number);
    end_pages(copies, locks, false, &mut frames);
    Ok(frames)
}

/// The transaction ends as dropped or aborted: the copies that it wrote go, and all permissions.
/// Returns the frames: `said` first, which tells the server so, then a GiveBack of each written,
/// due or bare copy, by rising page.
///
/// `AllocError` only if memory for them was refused; nothing changes then.
pub fn drop_ends<Q: Chooser>(
    alloc: Global,
    copies: &mut Cache<Q>,
    locks: &mut ReadLocks,
    said: ShortFrame,
) -> Result<Vec<Frame>, AllocError>
    requires owes { OwesLocked copies.old locks.old }
    requires client { said.client ≡ locks.old.client }
    requires incarnation { said.incarnation ≡ locks.old.incarnation }
    ensures ok { IfOk result (λ frames. (outcome : LastOutcome) → Ends copies.old locks.old
        (EndTransaction outcome ∷ ChangeCache Abandon ∷ Say (short_of said.body) ∷ []) true
        frames.items copies.new locks.new) }
    ensures err { OnErr result ((copies.new ≡ copies.old) × (locks.new ≡ locks.old)) }
    ensures room { IfOk result (λ frames. vec_capacity frames
        ≡ room_below copies.old locks.old true copies.old.limits.pages + 1) }
{
    let most = most_frames(copies, locks, true);
    let mut frames = Vec::with_capacity(alloc, most + 1)?;
    frames.push_reserved(Frame::from(said));
    end_pages(copies, locks, true, &mut frames);
    copies.abandon();
    Ok(frames)
}
