//! A server is opened over the rows of a store.
ghost use Rattle.std.specs.Prelude.{◌≡◌, ◌≢◌, IfOk, false, length, true};
ghost use Rattle.cb_handle.specs.Causes.{Decides, IsAnswer, memory, opening_cause, row_cause};
ghost use Rattle.cb_handle.specs.Causes.{serve_cause};
ghost use Rattle.cb_handle.specs.Objects.{AddsRow, IsLeft, Opens, Serves};
ghost use Rattle.rughvadi.specs.Limits.{bounds_of};

use crate::answers::answer;
use crate::held::Handle;
use crate::limits::{StoreLimits, boxed, limits_of};
use cb_handle::{HandleRefusal, Object};
use std::alloc::Global;

fn opening(
    alloc: Global,
    limits: &StoreLimits,
    number: u64,
    floor: u64,
) -> Result<Box<Object>, HandleRefusal>
    ensures made { IfOk result (λ made. Opens (bounds_of limits.now) number floor made.value) }
    ensures why { Decides (opening_cause (bounds_of limits.now) number floor) memory result }
{
    let limits = limits_of(limits)?;
    boxed(alloc, Object::opening(alloc, &limits, number, floor)?)
}

/// Puts a store whose last commit has this number, without rows yet, into an empty handle. Its
/// server will be a new one, which knows no client.
#[unsafe(no_mangle)]
pub extern "C" fn rughvadi_open_begin(
    alloc: Global,
    limits: &StoreLimits,
    number: u64,
    h: &mut Handle,
) -> u32
    ensures made { result ≡ 0 → Opens (bounds_of limits.now) number 0 h.new.held.value }
    ensures live { result ≡ 0 → h.new.live ≡ true }
    ensures was_empty { result ≡ 0 → h.old.live ≡ false }
    ensures unchanged { result ≢ 0 → h.new.live ≡ h.old.live }
    ensures same { h.old.live ≡ true → h.new.held.value ≡ h.old.held.value }
    ensures why { h.old.live ≡ false →
        IsAnswer (opening_cause (bounds_of limits.now) number 0) memory result }
    ensures full { h.old.live ≡ true → result ≡ 774 }
{
    if h.live {
        return HandleRefusal::Held.number();
    }
    match opening(alloc, limits, number, 0) {
        Ok(b) => {
            *h = Handle::of(b);
            0
        }
        Err(refusal) => refusal.number(),
    }
}

/// The same for a server in the life with this floor. A floor of 0 means that the server keeps no
/// lives.
#[unsafe(no_mangle)]
pub extern "C" fn rughvadi_open_life(
    alloc: Global,
    limits: &StoreLimits,
    number: u64,
    floor: u64,
    h: &mut Handle,
) -> u32
    ensures made { result ≡ 0 → Opens (bounds_of limits.now) number floor h.new.held.value }
    ensures live { result ≡ 0 → h.new.live ≡ true }
    ensures was_empty { result ≡ 0 → h.old.live ≡ false }
    ensures unchanged { result ≢ 0 → h.new.live ≡ h.old.live }
    ensures same { h.old.live ≡ true → h.new.held.value ≡ h.old.held.value }
    ensures why { h.old.live ≡ false →
        IsAnswer (opening_cause (bounds_of limits.now) number floor) memory result }
    ensures full { h.old.live ≡ true → result ≡ 774 }
{
    if h.live {
        return HandleRefusal::Held.number();
    }
    match opening(alloc, limits, number, floor) {
        Ok(b) => {
            *h = Handle::of(b);
            0
        }
        Err(refusal) => refusal.number(),
    }
}

/// The row of the next page: the number of the commit that wrote it last, and its bytes.
#[unsafe(no_mangle)]
pub extern "C" fn rughvadi_open_row(
    alloc: Global,
    h: &mut Handle,
    version: u64,
    bytes: &[u8],
) -> u32
    ensures live { h.new.live ≡ h.old.live }
    ensures held { result ≡ 0 → h.old.live ≡ true }
    ensures done { result ≡ 0 →
        AddsRow h.old.held.value version bytes.now h.new.held.value }
    ensures left { result ≢ 0 → h.old.live ≡ true → IsLeft h.old.held.value h.new.held.value }
    ensures why { h.old.live ≡ true → IsAnswer
        (row_cause h.old.held.value version (length bytes.now)) memory result }
    ensures empty { h.old.live ≡ false → result ≡ 769 }
{
    let Some(mut b) = h.take(alloc) else {
        return HandleRefusal::OtherKind.number();
    };
    let done = b.row(alloc, version, bytes);
    *h = Handle::of(b);
    answer(done)
}

/// Makes the server over the rows, in the life that was asked for, if one was. If memory is
/// refused, the rows are gone, and the handle is empty.
#[unsafe(no_mangle)]
pub extern "C" fn rughvadi_open_serve(alloc: Global, h: &mut Handle) -> u32
    ensures done { result ≡ 0 → Serves h.old.held.value h.new.held.value }
    ensures held { result ≡ 0 → h.old.live ≡ true }
    ensures live { result ≡ 0 → h.new.live ≡ true }
    ensures left { result ≢ 0 → h.new.live ≡ true → h.new.held.value ≡ h.old.held.value }
    ensures gone { h.old.live ≡ true → h.new.live ≡ false → result ≡ 13 }
    ensures why { h.old.live ≡ true → IsAnswer (serve_cause h.old.held.value) memory result }
    ensures empty { h.old.live ≡ false → result ≡ 769 }
    ensures stays_empty { h.old.live ≡ false → h.new.live ≡ false }
{
    let Some(mut b) = h.take(alloc) else {
        return HandleRefusal::OtherKind.number();
    };
    let done = b.serve(alloc);
    match done {
        Ok(()) => {
            *h = Handle::of(b);
            0
        }
        Err(HandleRefusal::Memory) => HandleRefusal::Memory.number(),
        Err(refusal) => {
            *h = Handle::of(b);
            refusal.number()
        }
    }
}
