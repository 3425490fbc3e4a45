//! Calls of a server or a client.
ghost use Rattle.std.specs.Prelude.{◌≡◌, ◌≢◌, false, length, true};
ghost use Rattle.cb_handle.specs.Causes.{IsAnswer, again_cause, again_may, fetch_cause, fetch_may};
ghost use Rattle.cb_handle.specs.Causes.{take_cause, take_may};
ghost use Rattle.cb_handle.specs.Objects.{FetchesOne, IsLeft, SaysAgain, Takes};

use crate::answers::answer;
use crate::held::Handle;
use cb_handle::HandleRefusal;
use std::alloc::Global;

/// A server or a client takes the frame at the front of the bytes. Returns how many bytes it has.
#[unsafe(no_mangle)]
pub extern "C" fn rughvadi_take(
    alloc: Global,
    h: &mut Handle,
    bytes: &[u8],
    used: &mut usize,
) -> u32
    ensures live { h.new.live ≡ h.old.live }
    ensures held { result ≡ 0 → h.old.live ≡ true }
    ensures done { result ≡ 0 → Takes h.old.held.value bytes.now used.new h.new.held.value }
    ensures left { result ≢ 0 → h.old.live ≡ true → IsLeft h.old.held.value h.new.held.value }
    ensures why { h.old.live ≡ true → IsAnswer (take_cause h.old.held.value bytes.now)
        (take_may h.old.held.value bytes.now) result }
    ensures used { result ≢ 0 → used.new ≡ used.old }
    ensures empty { h.old.live ≡ false → result ≡ 769 }
{
    let Some(mut b) = h.take(alloc) else {
        return HandleRefusal::OtherKind.number();
    };
    let done = b.take(alloc, bytes, used);
    *h = Handle::of(b);
    answer(done)
}

/// Fetches the oldest frame that was sent, to the front of the room. Returns how many bytes it has,
/// and the client that it comes from or goes to.
#[unsafe(no_mangle)]
pub extern "C" fn rughvadi_next(
    alloc: Global,
    h: &mut Handle,
    room: &mut [u8],
    size: &mut usize,
    client: &mut u32,
) -> u32
    ensures live { h.new.live ≡ h.old.live }
    ensures held { result ≡ 0 → h.old.live ≡ true }
    ensures done { result ≡ 0 →
        FetchesOne h.old.held.value room.old room.new size.new client.new h.new.held.value }
    ensures left { result ≢ 0 → h.old.live ≡ true → IsLeft h.old.held.value h.new.held.value }
    ensures why { h.old.live ≡ true → IsAnswer (fetch_cause h.old.held.value)
        (fetch_may h.old.held.value (length room.old) size.new) result }
    ensures client { result ≢ 0 → client.new ≡ client.old }
    ensures empty { h.old.live ≡ false → result ≡ 769 }
    ensures size { result ≢ 0 → result ≢ 772 → size.new ≡ size.old }
    ensures kept { result ≢ 0 → room.new ≡ room.old }
{
    let Some(mut b) = h.take(alloc) else {
        return HandleRefusal::OtherKind.number();
    };
    let done = b.fetch(alloc, room, size, client);
    *h = Handle::of(b);
    answer(done)
}

/// Resends what may be lost.
#[unsafe(no_mangle)]
pub extern "C" fn rughvadi_again(alloc: Global, h: &mut Handle) -> u32
    ensures live { h.new.live ≡ h.old.live }
    ensures held { result ≡ 0 → h.old.live ≡ true }
    ensures done { result ≡ 0 → SaysAgain h.old.held.value h.new.held.value }
    ensures left { result ≢ 0 → h.old.live ≡ true → IsLeft h.old.held.value h.new.held.value }
    ensures why { h.old.live ≡ true → IsAnswer (again_cause h.old.held.value)
        (again_may h.old.held.value) result }
    ensures empty { h.old.live ≡ false → result ≡ 769 }
{
    let Some(mut b) = h.take(alloc) else {
        return HandleRefusal::OtherKind.number();
    };
    let done = b.again(alloc);
    *h = Handle::of(b);
    answer(done)
}

/// Frees the object. The handle holds nothing then.
#[unsafe(no_mangle)]
pub extern "C" fn rughvadi_free(alloc: Global, h: &mut Handle)
    ensures { h.new.live ≡ false }
{
    let _b = h.take(alloc);
}
