//! The counters that the jobs count up.
ghost use Rattle.std.specs.Prelude.{◌≡◌, ◌+◌, ◌%◌, ◌^◌, ◌<◌, ◌≤◌, length, drop};
ghost use Rattle.cb_commit.specs.Stores.{bytes_at};
ghost use Rattle.cb_office.specs.Counters.{counter_of, sum_of_counters};

use byteorder::{BigEndian, ByteOrder};
use cb_commit::Store;
use cb_page::PageNo;

/// The counter at the front of the bytes: the first eight, the highest first. 0 if there are fewer.
pub fn counter(bytes: &[u8]) -> u64
    ensures { result ≡ counter_of bytes.now }
{
    if bytes.len() < 8 {
        return 0;
    }
    BigEndian::read_u64(bytes)
}

/// Adds one to the counter at the front of the bytes, modulo 2^64. Fewer than eight bytes stay as
/// they are.
pub fn count_up(bytes: &mut [u8])
    ensures counts { 8 ≤ length bytes.old
        → counter_of bytes.new ≡ (counter_of bytes.old + 1) % 2 ^ 64 }
    ensures rest { drop 8 bytes.new ≡ drop 8 bytes.old }
    ensures size { length bytes.new ≡ length bytes.old }
    ensures short { length bytes.old < 8 → bytes.new ≡ bytes.old }
{
    if bytes.len() < 8 {
        return;
    }
    let next = counter(bytes).wrapping_add(1);
    BigEndian::write_u64(bytes, next);
}

/// The counter of a page; 0 if there is no such page.
fn counter_at(store: &Store, page: PageNo) -> u64
    ensures { result ≡ counter_of (bytes_at store.now page) }
{
    if page.index() >= store.page_count() {
        return 0;
    }
    counter(store.bytes(page))
}

/// The sum of the counters of pages 0 and 1, modulo 2^64. A page that doesn't exist counts as 0.
pub fn counter_sum(store: &Store) -> u64
    ensures { result ≡ sum_of_counters store.now }
{
    let first = counter_at(store, PageNo::new(0));
    let second = counter_at(store, PageNo::new(1));
    first.wrapping_add(second)
}
