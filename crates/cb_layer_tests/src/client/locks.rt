//! The pages that a transaction reads, and what it gives back at its end.

ghost use Rattle.std.specs.Prelude.{◌≡◌, ◌≤◌, length, IsSome};

use cb_frame::{Body, ShortBody};
use cb_locks::{CallbackDue, ReadLocks};
use cb_page::{ClientNo, GrantNo, Incarnation, Limits, PageNo, TxnNo};
use std::alloc::Global;
use std::test::Fail;

/// Whether what is due is the copy of the page of that number, given back. It is spent.
fn is_copy(due: CallbackDue, number: u32, grant: GrantNo) -> bool {
    let page = due.page();
    let frame = due.give_back();
    match &frame.body {
        Body::Short(said) => {
            page.get() == number && *said == ShortBody::GiveBack { page, grant }
        }
        _ => false,
    }
}

/// Whether so many copies are given back, of rising pages.
fn rise(mut dues: Vec<CallbackDue>, grant: GrantNo, count: u32) -> bool {
    dues.reverse();
    let mut number = 0u32;
    let mut rises = true;
    while let Some(due) = dues.pop() {
        rises = is_copy(due, number, grant) && rises;
        number = number.wrapping_add(1);
    }
    dues.destroy_empty();
    rises && number == count
}

/// The transaction reads so many pages, and each is called back.
fn use_all(locks: &mut ReadLocks, pages: u32, grant: GrantNo)
    requires store { pages ≤ 4096 }
    requires pages { pages ≤ length locks.old.locked }
    requires begun { IsSome locks.old.txn }
{
    for page in 0..pages {
        locks.lock(PageNo::new(page));
        let _in_use = locks.called(PageNo::new(page), grant).in_use(locks);
    }
}

/// Whether 4,096 pages in use are given back at the end, rising, each once.
fn give_all_back(alloc: Global, locks: &mut ReadLocks) -> bool
    requires { 4096 ≤ length locks.old.locked }
{
    let grant = GrantNo::new(1);
    locks.begin(TxnNo::new(1));
    use_all(locks, 4096, grant);
    let Ok(dues) = locks.end(alloc) else {
        return false;
    };
    rise(dues, grant, 4096) && locks.due_count() == 0
}

/// Whether new locks do so.
fn new_ones_give_back(alloc: Global, limits: &Limits) -> bool
    requires { limits.now.pages ≡ 4096 }
{
    match ReadLocks::new(alloc, ClientNo::new(1), Incarnation::new(3), limits) {
        Ok(mut locks) => give_all_back(alloc, &mut locks),
        Err(_) => false,
    }
}

/// At the greatest limits with every page due: one that gives up from some number of pages on is
/// refused here.
#[test]
fn pages_in_use_are_given_back_at_the_end(rt: HostRuntime) -> Result<(), Fail> {
    let limits = Limits::new(32, 4096, 65_536, 1024, 1, 4096)?;
    assert!(rt; new_ones_give_back(rt.alloc(), &limits));
    Ok(())
}
