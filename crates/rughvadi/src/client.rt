//! A client's calls.
ghost use Rattle.std.specs.Prelude.{◌≡◌, ◌≢◌, IfOk, false, length, true};
ghost use Rattle.cb_handle.specs.Causes.{Decides, IsAnswer, begin_cause, client_cause, drop_cause};
ghost use Rattle.cb_handle.specs.Causes.{finish_cause, finish_may, hello_cause, memory, never};
ghost use Rattle.cb_handle.specs.Causes.{peek_cause, read_cause, want_cause, write_cause};
ghost use Rattle.cb_handle.specs.Objects.{Begins, Clients, Drops, Finishes, Greets, IsLeft, Peeks};
ghost use Rattle.cb_handle.specs.Objects.{Reads, ShowsOutcome, ShowsPermission, ShowsStatus};
ghost use Rattle.cb_handle.specs.Objects.{Wants, Writes};
ghost use Rattle.rughvadi.specs.Limits.{bounds_of};

use crate::answers::answer;
use crate::held::Handle;
use crate::limits::{StoreLimits, boxed, limits_of};
use cb_handle::{HandleRefusal, Object};
use std::alloc::Global;

fn made(
    alloc: Global,
    limits: &StoreLimits,
    client: u32,
    incarnation: u64,
) -> Result<Box<Object>, HandleRefusal>
    ensures made { IfOk result (λ made.
        Clients client incarnation (bounds_of limits.now) made.value) }
    ensures why { Decides (client_cause (bounds_of limits.now) client incarnation) memory result }
{
    let limits = limits_of(limits)?;
    boxed(alloc, Object::client(alloc, client, incarnation, &limits)?)
}

/// A client at the start of an incarnation, in an empty handle.
#[unsafe(no_mangle)]
pub extern "C" fn rughvadi_client_new(
    alloc: Global,
    limits: &StoreLimits,
    client: u32,
    incarnation: u64,
    h: &mut Handle,
) -> u32
    ensures made { result ≡ 0 →
        Clients client incarnation (bounds_of limits.now) h.new.held.value }
    ensures live { result ≡ 0 → h.new.live ≡ true }
    ensures was_empty { result ≡ 0 → h.old.live ≡ false }
    ensures unchanged { result ≢ 0 → h.new.live ≡ h.old.live }
    ensures same { h.old.live ≡ true → h.new.held.value ≡ h.old.held.value }
    ensures why { h.old.live ≡ false →
        IsAnswer (client_cause (bounds_of limits.now) client incarnation) memory result }
    ensures full { h.old.live ≡ true → result ≡ 774 }
{
    if h.live {
        return HandleRefusal::Held.number();
    }
    match made(alloc, limits, client, incarnation) {
        Ok(b) => {
            *h = Handle::of(b);
            0
        }
        Err(refusal) => refusal.number(),
    }
}

/// 0 no client, 1 not welcome, 2 idle, 3 open, 4 waiting, 5 committing.
#[unsafe(no_mangle)]
pub extern "C" fn rughvadi_client_status(alloc: Global, h: &mut Handle) -> u32
    ensures live { h.new.live ≡ h.old.live }
    ensures same { h.old.live ≡ true → h.new.held.value ≡ h.old.held.value }
    ensures shown { h.old.live ≡ true → ShowsStatus h.old.held.value result }
    ensures empty { h.old.live ≡ false → result ≡ 0 }
{
    let Some(b) = h.take(alloc) else {
        return 0;
    };
    let status = b.status();
    *h = Handle::of(b);
    status
}

/// How the last transaction ended, and the number of its commit or 0: 0 none did, 1 committed,
/// 2 dropped, 3 aborted.
#[unsafe(no_mangle)]
pub extern "C" fn rughvadi_client_last(alloc: Global, h: &mut Handle, number: &mut u64) -> u32
    ensures live { h.new.live ≡ h.old.live }
    ensures same { h.old.live ≡ true → h.new.held.value ≡ h.old.held.value }
    ensures shown { h.old.live ≡ true → ShowsOutcome h.old.held.value result number.new }
    ensures empty { h.old.live ≡ false → result ≡ 0 }
    ensures none { h.old.live ≡ false → number.new ≡ 0 }
{
    let Some(b) = h.take(alloc) else {
        *number = 0;
        return 0;
    };
    let (how, of) = b.last();
    *h = Handle::of(b);
    *number = of;
    how
}

/// Whether the client may write the page now.
#[unsafe(no_mangle)]
pub extern "C" fn rughvadi_client_may_write(alloc: Global, h: &mut Handle, page: u32) -> bool
    ensures live { h.new.live ≡ h.old.live }
    ensures same { h.old.live ≡ true → h.new.held.value ≡ h.old.held.value }
    ensures shown { h.old.live ≡ true → ShowsPermission h.old.held.value page result }
    ensures empty { h.old.live ≡ false → result ≡ false }
{
    let Some(b) = h.take(alloc) else {
        return false;
    };
    let may = b.may_write(page);
    *h = Handle::of(b);
    may
}

/// Greets the server.
#[unsafe(no_mangle)]
pub extern "C" fn rughvadi_client_hello(alloc: Global, h: &mut Handle) -> u32
    ensures live { h.new.live ≡ h.old.live }
    ensures held { result ≡ 0 → h.old.live ≡ true }
    ensures done { result ≡ 0 → Greets h.old.held.value h.new.held.value }
    ensures left { result ≢ 0 → h.old.live ≡ true → IsLeft h.old.held.value h.new.held.value }
    ensures why { h.old.live ≡ true → IsAnswer (hello_cause h.old.held.value) never result }
    ensures empty { h.old.live ≡ false → result ≡ 769 }
{
    let Some(mut b) = h.take(alloc) else {
        return HandleRefusal::OtherKind.number();
    };
    let done = b.hello();
    *h = Handle::of(b);
    answer(done)
}

/// Begins a transaction, and returns its number.
#[unsafe(no_mangle)]
pub extern "C" fn rughvadi_client_begin(alloc: Global, h: &mut Handle, txn: &mut u64) -> u32
    ensures live { h.new.live ≡ h.old.live }
    ensures held { result ≡ 0 → h.old.live ≡ true }
    ensures done { result ≡ 0 → Begins h.old.held.value txn.new h.new.held.value }
    ensures left { result ≢ 0 → h.old.live ≡ true → IsLeft h.old.held.value h.new.held.value }
    ensures why { h.old.live ≡ true → IsAnswer (begin_cause h.old.held.value) never result }
    ensures txn { result ≢ 0 → txn.new ≡ txn.old }
    ensures empty { h.old.live ≡ false → result ≡ 769 }
{
    let Some(mut b) = h.take(alloc) else {
        return HandleRefusal::OtherKind.number();
    };
    let done = b.begin(txn);
    *h = Handle::of(b);
    answer(done)
}

/// Reads a page. If `here` is true, its bytes are in the room; otherwise the page is asked for.
#[unsafe(no_mangle)]
pub extern "C" fn rughvadi_client_read(
    alloc: Global,
    h: &mut Handle,
    page: u32,
    room: &mut [u8],
    here: &mut bool,
) -> u32
    ensures live { h.new.live ≡ h.old.live }
    ensures held { result ≡ 0 → h.old.live ≡ true }
    ensures done { result ≡ 0 →
        Reads h.old.held.value page room.old room.new here.new h.new.held.value }
    ensures left { result ≢ 0 → h.old.live ≡ true → IsLeft h.old.held.value h.new.held.value }
    ensures why { h.old.live ≡ true → IsAnswer
        (read_cause h.old.held.value page (length room.old)) never result }
    ensures here { result ≢ 0 → here.new ≡ here.old }
    ensures empty { h.old.live ≡ false → result ≡ 769 }
    ensures kept { result ≢ 0 → room.new ≡ room.old }
{
    let Some(mut b) = h.take(alloc) else {
        return HandleRefusal::OtherKind.number();
    };
    let done = b.read(page, room, here);
    *h = Handle::of(b);
    answer(done)
}

/// Asks to write a page. If `may` is true, it may be written at once; otherwise the permission is
/// asked for.
#[unsafe(no_mangle)]
pub extern "C" fn rughvadi_client_want(
    alloc: Global,
    h: &mut Handle,
    page: u32,
    may: &mut bool,
) -> u32
    ensures live { h.new.live ≡ h.old.live }
    ensures held { result ≡ 0 → h.old.live ≡ true }
    ensures done { result ≡ 0 → Wants h.old.held.value page may.new h.new.held.value }
    ensures left { result ≢ 0 → h.old.live ≡ true → IsLeft h.old.held.value h.new.held.value }
    ensures why { h.old.live ≡ true → IsAnswer (want_cause h.old.held.value page) never result }
    ensures may { result ≢ 0 → may.new ≡ may.old }
    ensures empty { h.old.live ≡ false → result ≡ 769 }
{
    let Some(mut b) = h.take(alloc) else {
        return HandleRefusal::OtherKind.number();
    };
    let done = b.want(page, may);
    *h = Handle::of(b);
    answer(done)
}

/// Writes a page.
#[unsafe(no_mangle)]
pub extern "C" fn rughvadi_client_write(
    alloc: Global,
    h: &mut Handle,
    page: u32,
    bytes: &[u8],
) -> u32
    ensures live { h.new.live ≡ h.old.live }
    ensures held { result ≡ 0 → h.old.live ≡ true }
    ensures done { result ≡ 0 → Writes h.old.held.value page bytes.now h.new.held.value }
    ensures left { result ≢ 0 → h.old.live ≡ true → IsLeft h.old.held.value h.new.held.value }
    ensures why { h.old.live ≡ true
        → IsAnswer (write_cause h.old.held.value page bytes.now) never result }
    ensures empty { h.old.live ≡ false → result ≡ 769 }
{
    let Some(mut b) = h.take(alloc) else {
        return HandleRefusal::OtherKind.number();
    };
    let done = b.write(page, bytes);
    *h = Handle::of(b);
    answer(done)
}

/// Commits the transaction.
#[unsafe(no_mangle)]
pub extern "C" fn rughvadi_client_finish(alloc: Global, h: &mut Handle) -> u32
    ensures live { h.new.live ≡ h.old.live }
    ensures held { result ≡ 0 → h.old.live ≡ true }
    ensures done { result ≡ 0 → Finishes h.old.held.value h.new.held.value }
    ensures left { result ≢ 0 → h.old.live ≡ true → IsLeft h.old.held.value h.new.held.value }
    ensures why { h.old.live ≡ true → IsAnswer (finish_cause h.old.held.value)
        (finish_may h.old.held.value) result }
    ensures empty { h.old.live ≡ false → result ≡ 769 }
{
    let Some(mut b) = h.take(alloc) else {
        return HandleRefusal::OtherKind.number();
    };
    let done = b.finish(alloc);
    *h = Handle::of(b);
    answer(done)
}

/// Ends the transaction without a commit.
#[unsafe(no_mangle)]
pub extern "C" fn rughvadi_client_drop(alloc: Global, h: &mut Handle) -> u32
    ensures live { h.new.live ≡ h.old.live }
    ensures held { result ≡ 0 → h.old.live ≡ true }
    ensures done { result ≡ 0 → Drops h.old.held.value h.new.held.value }
    ensures left { result ≢ 0 → h.old.live ≡ true → IsLeft h.old.held.value h.new.held.value }
    ensures why { h.old.live ≡ true → IsAnswer (drop_cause h.old.held.value) memory result }
    ensures empty { h.old.live ≡ false → result ≡ 769 }
{
    let Some(mut b) = h.take(alloc) else {
        return HandleRefusal::OtherKind.number();
    };
    let done = b.drop_txn(alloc);
    *h = Handle::of(b);
    answer(done)
}

/// The bytes of the client's copy of a page. This doesn't count as a reference to the page.
#[unsafe(no_mangle)]
pub extern "C" fn rughvadi_client_peek(
    alloc: Global,
    h: &mut Handle,
    page: u32,
    room: &mut [u8],
) -> u32
    ensures live { h.new.live ≡ h.old.live }
    ensures held { result ≡ 0 → h.old.live ≡ true }
    ensures done { result ≡ 0 → Peeks h.old.held.value page room.new }
    ensures same { h.old.live ≡ true → h.new.held.value ≡ h.old.held.value }
    ensures why { h.old.live ≡ true → IsAnswer
        (peek_cause h.old.held.value page (length room.old)) never result }
    ensures empty { h.old.live ≡ false → result ≡ 769 }
    ensures kept { result ≢ 0 → room.new ≡ room.old }
{
    let Some(b) = h.take(alloc) else {
        return HandleRefusal::OtherKind.number();
    };
    let done = b.peek(page, room);
    *h = Handle::of(b);
    answer(done)
}
