//! The hash by which the cache of pages finds one.

ghost use Rattle.std.specs.List.{fold};
ghost use Rattle.cb_twoq.specs.PageHash.{with_byte, spread};

use cb_page::PageNo;
use lru::LruCache;
use std::hash::{BuildHasher, Hasher};

/// Pages, the newest first.
///
/// Its keys are numbers below 4,096, picked by the application that has the pool, and not by
/// strangers. So a hash of one multiplication does, and finds a page in less time than the kit's,
/// which is for keys of any length.
pub type PageCache = LruCache<PageNo, (), PageHash>;

/// 2^64 divided by the golden ratio: it spreads numbers at equal distances evenly.
const MULTIPLIER: u64 = 0x9E37_79B9_7F4A_7C15;

/// A hash of the bytes that were written: they are the digits of a number, of which 64 bits are
/// kept.
#[derive(Clone, Copy)]
pub struct PageHasher {
    number: u64,
}

impl Hasher for PageHasher {
    ghost write = { λ hasher bytes. record { number = fold with_byte hasher.number bytes } };

    ghost finish = { λ hasher. spread hasher.number };

    fn finish(&self) -> u64 {
        self.number.wrapping_mul(MULTIPLIER)
    }

    fn write(&mut self, bytes: &[u8]) {
        for byte in bytes {
            self.number = self.number.wrapping_mul(256).wrapping_add(u64::from(*byte));
        }
    }
}

/// Makes hashers to which nothing was written.
#[derive(Clone, Copy)]
pub struct PageHash;

impl BuildHasher for PageHash {
    type Hasher = PageHasher;

    ghost build_hasher = { λ _. record { number = 0 } };

    fn build_hasher(&self) -> PageHasher {
        PageHasher { number: 0 }
    }
}
