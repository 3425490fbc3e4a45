//! A server's calls.
ghost use Rattle.std.specs.Prelude.{◌≡◌, ◌≢◌, IfOk, false, length, true};
ghost use Rattle.cb_handle.specs.Causes.{Decides, IsAnswer, batch_cause, flushed_cause};
ghost use Rattle.cb_handle.specs.Causes.{forget_cause};
ghost use Rattle.cb_handle.specs.Causes.{incarnation_cause, leave_cause, memory, never, page_cause};
ghost use Rattle.cb_handle.specs.Causes.{server_cause};
ghost use Rattle.cb_handle.specs.Objects.{CanFlush, Flushes, Forgets, IsLeft};
ghost use Rattle.cb_handle.specs.Objects.{IsNextIncarnation, Leaves, MakesBatch, Servers};
ghost use Rattle.cb_handle.specs.Objects.{ShowsPage};
ghost use Rattle.rughvadi.specs.Limits.{bounds_of};

use crate::answers::answer;
use crate::held::Handle;
use crate::limits::{StoreLimits, boxed, limits_of};
use cb_handle::{HandleRefusal, Object};
use std::alloc::Global;

fn zeros(alloc: Global, limits: &StoreLimits) -> Result<Box<Object>, HandleRefusal>
    ensures made { IfOk result (λ made. Servers (bounds_of limits.now) made.value) }
    ensures why { Decides (server_cause (bounds_of limits.now)) memory result }
{
    let limits = limits_of(limits)?;
    boxed(alloc, Object::server(alloc, &limits)?)
}

/// A server over a store of zeros, in an empty handle.
#[unsafe(no_mangle)]
pub extern "C" fn rughvadi_server_new(alloc: Global, limits: &StoreLimits, h: &mut Handle) -> u32
    ensures made { result ≡ 0 → Servers (bounds_of limits.now) h.new.held.value }
    ensures live { result ≡ 0 → h.new.live ≡ true }
    ensures was_empty { result ≡ 0 → h.old.live ≡ false }
    ensures unchanged { result ≢ 0 → h.new.live ≡ h.old.live }
    ensures same { h.old.live ≡ true → h.new.held.value ≡ h.old.held.value }
    ensures why { h.old.live ≡ false →
        IsAnswer (server_cause (bounds_of limits.now)) memory result }
    ensures full { h.old.live ≡ true → result ≡ 774 }
{
    if h.live {
        return HandleRefusal::Held.number();
    }
    match zeros(alloc, limits) {
        Ok(b) => {
            *h = Handle::of(b);
            0
        }
        Err(refusal) => refusal.number(),
    }
}

/// Whether that commit was made and isn't on disk yet.
#[unsafe(no_mangle)]
pub extern "C" fn rughvadi_server_can_flush(alloc: Global, h: &mut Handle, number: u64) -> bool
    ensures live { h.new.live ≡ h.old.live }
    ensures same { h.old.live ≡ true → h.new.held.value ≡ h.old.held.value }
    ensures can { h.old.live ≡ true → CanFlush h.old.held.value number result }
    ensures empty { h.old.live ≡ false → result ≡ false }
{
    let Some(b) = h.take(alloc) else {
        return false;
    };
    let can = b.can_flush(number);
    *h = Handle::of(b);
    can
}

/// The incarnation that the client may greet with next.
#[unsafe(no_mangle)]
pub extern "C" fn rughvadi_server_incarnation(
    alloc: Global,
    h: &mut Handle,
    client: u32,
    incarnation: &mut u64,
) -> u32
    ensures live { h.new.live ≡ h.old.live }
    ensures held { result ≡ 0 → h.old.live ≡ true }
    ensures done { result ≡ 0 → IsNextIncarnation h.old.held.value client incarnation.new }
    ensures same { h.old.live ≡ true → h.new.held.value ≡ h.old.held.value }
    ensures why { h.old.live ≡ true
        → IsAnswer (incarnation_cause h.old.held.value client) never result }
    ensures incarnation { result ≢ 0 → incarnation.new ≡ incarnation.old }
    ensures empty { h.old.live ≡ false → result ≡ 769 }
{
    let Some(b) = h.take(alloc) else {
        return HandleRefusal::OtherKind.number();
    };
    let found = b.next_incarnation(client);
    *h = Handle::of(b);
    match found {
        Ok(next) => {
            *incarnation = next;
            0
        }
        Err(refusal) => refusal.number(),
    }
}

/// Makes the batch that is to be written next. Returns the number of its last commit, and how many
/// pages it has.
#[unsafe(no_mangle)]
pub extern "C" fn rughvadi_server_batch(
    alloc: Global,
    h: &mut Handle,
    number: &mut u64,
    pages: &mut usize,
) -> u32
    ensures live { h.new.live ≡ h.old.live }
    ensures held { result ≡ 0 → h.old.live ≡ true }
    ensures done { result ≡ 0 → MakesBatch h.old.held.value number.new pages.new h.new.held.value }
    ensures left { result ≢ 0 → h.old.live ≡ true → IsLeft h.old.held.value h.new.held.value }
    ensures why { h.old.live ≡ true → IsAnswer (batch_cause h.old.held.value) memory result }
    ensures number { result ≢ 0 → number.new ≡ number.old }
    ensures pages { result ≢ 0 → pages.new ≡ pages.old }
    ensures empty { h.old.live ≡ false → result ≡ 769 }
{
    let Some(mut b) = h.take(alloc) else {
        return HandleRefusal::OtherKind.number();
    };
    let done = b.batch(alloc, number, pages);
    *h = Handle::of(b);
    answer(done)
}

/// A page of the batch, by its place: its number, its version and its bytes.
#[unsafe(no_mangle)]
pub extern "C" fn rughvadi_server_page(
    alloc: Global,
    h: &mut Handle,
    at: usize,
    room: &mut [u8],
    page: &mut u32,
    version: &mut u64,
) -> u32
    ensures live { h.new.live ≡ h.old.live }
    ensures held { result ≡ 0 → h.old.live ≡ true }
    ensures done { result ≡ 0 → ShowsPage h.old.held.value at room.new page.new version.new }
    ensures same { h.old.live ≡ true → h.new.held.value ≡ h.old.held.value }
    ensures why { h.old.live ≡ true → IsAnswer
        (page_cause h.old.held.value at (length room.old)) never result }
    ensures page { result ≢ 0 → page.new ≡ page.old }
    ensures version { result ≢ 0 → version.new ≡ version.old }
    ensures empty { h.old.live ≡ false → result ≡ 769 }
    ensures kept { result ≢ 0 → room.new ≡ room.old }
{
    let Some(b) = h.take(alloc) else {
        return HandleRefusal::OtherKind.number();
    };
    let done = b.batch_page(at, room, page, version);
    *h = Handle::of(b);
    answer(done)
}

/// The commits up to this number are on disk now. A Done is sent for each that wasn't before.
#[unsafe(no_mangle)]
pub extern "C" fn rughvadi_server_flushed(alloc: Global, h: &mut Handle, number: u64) -> u32
    ensures live { h.new.live ≡ h.old.live }
    ensures held { result ≡ 0 → h.old.live ≡ true }
    ensures done { result ≡ 0 → Flushes h.old.held.value number h.new.held.value }
    ensures left { result ≢ 0 → h.old.live ≡ true → IsLeft h.old.held.value h.new.held.value }
    ensures why { h.old.live ≡ true
        → IsAnswer (flushed_cause h.old.held.value number) memory result }
    ensures empty { h.old.live ≡ false → result ≡ 769 }
{
    let Some(mut b) = h.take(alloc) else {
        return HandleRefusal::OtherKind.number();
    };
    let done = b.flushed(alloc, number);
    *h = Handle::of(b);
    answer(done)
}

/// Forgets the commits up to this number, which is on disk: they leave memory.
#[unsafe(no_mangle)]
pub extern "C" fn rughvadi_server_forget(alloc: Global, h: &mut Handle, number: u64) -> u32
    ensures live { h.new.live ≡ h.old.live }
    ensures held { result ≡ 0 → h.old.live ≡ true }
    ensures done { result ≡ 0 → Forgets h.old.held.value number h.new.held.value }
    ensures left { result ≢ 0 → h.old.live ≡ true → IsLeft h.old.held.value h.new.held.value }
    ensures why { h.old.live ≡ true → IsAnswer (forget_cause h.old.held.value number) never result }
    ensures empty { h.old.live ≡ false → result ≡ 769 }
{
    let Some(mut b) = h.take(alloc) else {
        return HandleRefusal::OtherKind.number();
    };
    let done = b.forget(number);
    *h = Handle::of(b);
    answer(done)
}

/// A client went away. At the server its next incarnation begins, which belongs to nobody.
#[unsafe(no_mangle)]
pub extern "C" fn rughvadi_server_leave(alloc: Global, h: &mut Handle, client: u32) -> u32
    ensures live { h.new.live ≡ h.old.live }
    ensures held { result ≡ 0 → h.old.live ≡ true }
    ensures done { result ≡ 0 → Leaves h.old.held.value client h.new.held.value }
    ensures left { result ≢ 0 → h.old.live ≡ true → IsLeft h.old.held.value h.new.held.value }
    ensures why { h.old.live ≡ true → IsAnswer (leave_cause h.old.held.value client) memory result }
    ensures empty { h.old.live ≡ false → result ≡ 769 }
{
    let Some(mut b) = h.take(alloc) else {
        return HandleRefusal::OtherKind.number();
    };
    let done = b.leave(alloc, client);
    *h = Handle::of(b);
    answer(done)
}
