//! What a page's copy comes to as the transaction ends.
ghost use Rattle.std.specs.Prelude.{◌≡◌, ◌<◌, ◌≤◌, ◌∷◌, [], ◌&&◌, ◌||◌, not, false, length, IfSome};
ghost use Rattle.std.specs.Prelude.{Some, option_to_list, if◌then◌else◌};
ghost use Rattle.std.specs.Option.{is_some};
ghost use Rattle.cb_page.specs.Flags.{has};
ghost use Rattle.cb_protocol.specs.Cache.{LetGo};
ghost use Rattle.cb_protocol.specs.Client.{ChangeCache, bodies_said};
ghost use Rattle.cb_outbox.specs.Messages.{messages_of};
ghost use Rattle.cb_cache.specs.ByTable.{Does};
ghost use Rattle.cb_cache.specs.CacheState.{content_at, copy_at};
ghost use Rattle.cb_locks.specs.Dues.{called_by};
ghost use Rattle.cb_page.specs.Counting.{bit};
ghost use Rattle.cb_locks.specs.Locks.{due_at, unlocked};
ghost use Rattle.cb_cache.specs.Ending.{all_sent_by, page_steps};
ghost use Rattle.cb_cache.specs.Room.{answers, speaks};

use crate::cache::Cache;
use cb_frame::Frame;
use cb_locks::{CallbackDue, ReadLocks};
use cb_page::PageNo;
use cb_twoq::Chooser;

/// Whether the end of the transaction may have a frame to say of the page.
pub(crate) fn may_say<Q: Chooser>(
    copies: &Cache<Q>,
    locks: &ReadLocks,
    page: PageNo,
    dropped: bool,
) -> bool
    requires { page < length locks.now.locked }
    ensures value { result ≡ speaks copies.now locks.now dropped page }
    ensures said { length (bodies_said (page_steps copies.now locks.now dropped page))
        ≤ bit result }
{
    let due = answers(locks, page, dropped);
    let goes = goes(copies, page, dropped);
    due || goes
}

/// Whether something is due of the page that is answered at the end: if the transaction is dropped,
/// the permission alone isn't.
#[tactic(auto, using(cb_locks::proofs::Counted::flag_at))]
fn answers(locks: &ReadLocks, page: PageNo, dropped: bool) -> bool
    requires { page < length locks.now.locked }
    ensures { result ≡ answers locks.now dropped page }
{
    if dropped {
        return locks.is_copy_due(page);
    }
    locks.due().contains(page)
}

/// The page at the transaction's end. Answers the frame to say of it, if any.
///
/// A copy that a dropped transaction wrote is left for [`Cache::abandon`] to let go.
pub(crate) fn end_page<Q: Chooser>(
    copies: &mut Cache<Q>,
    locks: &mut ReadLocks,
    page: PageNo,
    dropped: bool,
) -> Option<Frame>
    requires page { page < copies.old.limits.pages }
    requires locked { page < length locks.old.locked }
    requires held { IfSome (called_by (due_at locks.old page))
        (λ called. (copy_at copies.old page).held ≡ Some called.0) }
    requires unwritten { dropped ≡ false → has copies.old.wrote page ≡ false }
    ensures does { Does copies.old (page_steps copies.old locks.old dropped page) copies.new }
    ensures says { messages_of (option_to_list result)
        ≡ all_sent_by locks.old (bodies_said (page_steps copies.old locks.old dropped page)) }
    ensures locks { locks.new ≡ unlocked locks.old page }
{
    let written = is_written(copies, page, dropped);
    let goes = goes(copies, page, dropped);
    let held = copies.at(page).held;
    let Some(due) = locks.unlock(page) else {
        let grant = held?;
        if !goes {
            return None;
        }
        let_go_unless(copies, page, written);
        return Some(locks.called(page, grant).give_back());
    };
    if !is_permission_alone(&due, goes) {
        let_go_unless(copies, page, written);
        return Some(due.give_back());
    }
    if dropped {
        due.dropped();
        return None;
    }
    copies.yield_permission(page);
    Some(due.give_down())
}

/// Whether a transaction that is dropped wrote the page.
fn is_written<Q: Chooser>(copies: &Cache<Q>, page: PageNo, dropped: bool) -> bool
    ensures { result ≡ (dropped && has copies.now.wrote page) }
{
    dropped && copies.wrote(page)
}

/// Whether the copy of a locked page goes, whatever is due: a transaction that is dropped wrote
/// it, or it is bare.
fn goes<Q: Chooser>(copies: &Cache<Q>, page: PageNo, dropped: bool) -> bool
    ensures { result ≡ (dropped && has copies.now.wrote page
        || not (is_some (content_at copies.now page))) }
{
    let written = is_written(copies, page, dropped);
    let bare = copies.peek(page).is_none();
    written || bare
}

/// Whether the permission to write the page is given up alone, where its copy stays otherwise.
fn is_permission_alone(due: &CallbackDue, goes: bool) -> bool
    ensures { result ≡ (not goes && is_some due.now.tag) }
{
    let alone = due.tag().is_some();
    !goes && alone
}

/// The copy goes, unless the transaction wrote it and is dropped: then it goes with it.
fn let_go_unless<Q: Chooser>(copies: &mut Cache<Q>, page: PageNo, written: bool)
    requires page { page < copies.old.limits.pages }
    requires unwritten { written ≡ false → has copies.old.wrote page ≡ false }
    ensures { Does copies.old (if written then [] else ChangeCache (LetGo page) ∷ []) copies.new }
{
    if !written {
        copies.let_go(page);
    }
}
