//! Sets of pages.
ghost use Rattle.std.specs.Prelude.{◌≡◌, ℕ, ◌+◌, ◌<◌, ◌≤◌, ◌≢◌, ◌↔◌, Bool, true, false, List};
ghost use Rattle.std.specs.Prelude.{length, replicate, slice_set, IfOk, IsTrue, MatchOption};
ghost use Rattle.std.specs.Int.{bit_at};
ghost use Rattle.cb_page.specs.Flags.{has};
ghost use Rattle.cb_page.specs.Words.{Summarizes, flag_at};

use crate::PageNo;
use std::alloc::{AllocError, Global};
use std::marker::Model;

/// A set of the pages below a number that is fixed when the set is made. In contracts it is a list
/// with one flag for each of these pages.
///
/// Only `new` takes memory. The cost of a walk by `next` grows with the number of members alone,
/// wherever they lie: each call looks at two words at most. `clear` visits only the words that have
/// members.
#[derive(Debug)]
pub struct PageSet {
    /// Bit `page % 64` of word `page / 64` is 1 if the page is in the set.
    words: Vec<u64>,
    /// Bit `at` is 1 if word `at` isn't 0.
    filled: u64,
    pages: usize,
}

// By hand: see docs/PROVING.md, "Drops".
impl Drop for PageSet {
    fn drop(self) {
        let PageSet {
            words: _,
            filled: _,
            pages: _,
        } = self;
    }
}

impl Model for PageSet {
    ghost use Rattle.std.specs.Prelude.{◌≡◌, ◌≤◌, ◌+◌, ◌/◌, ◌*◌, List, Bool, length};
    ghost use Rattle.cb_page.specs.Words.{Summarizes, flags_of};

    ghost Value = { List Bool };

    ghost view = { λ a. flags_of a.words.items a.pages };

    ghost invariant = { λ a. (a.pages ≤ 64 * length a.words.items)
        × Summarizes a.filled a.words.items };
}

impl PageSet {
    /// The empty set over the pages below a number. It is refused only if memory is.
    pub fn new(alloc: Global, pages: usize) -> Result<PageSet, AllocError>
        requires { pages ≤ 4096 }
        ensures { IfOk result (λ s. s ≡ replicate pages false) }
    {
        Ok(PageSet {
            words: zero_words(alloc, pages.div_ceil(64))?,
            filled: 0,
            pages,
        })
    }

    /// The set may hold the pages below this number.
    pub fn pages(&self) -> usize
        ensures value { result ≡ length self.now }
        ensures greatest { result ≤ 4096 }
    {
        self.pages
    }

    /// Whether the page is in the set; `false` for a page past the end.
    pub fn contains(&self, page: PageNo) -> bool
        ensures { result ≡ has self.now page }
    {
        let page = page.index();
        page < self.pages && self.words[page / 64] >> (page % 64) & 1 == 1
    }

    /// Puts the page in.
    pub fn insert(&mut self, page: PageNo)
        requires { page < length self.old }
        ensures { self.new ≡ slice_set self.old page true }
    {
        let page = page.index();
        let word = self.words[page / 64];
        self.words[page / 64] = word | 1 << (page % 64);
        self.filled |= 1 << (page / 64);
    }

    /// Takes the page out.
    pub fn remove(&mut self, page: PageNo)
        requires { page < length self.old }
        ensures { self.new ≡ slice_set self.old page false }
    {
        let page = page.index();
        let word = self.words[page / 64] & !(1 << (page % 64));
        self.words[page / 64] = word;
        if word == 0 {
            self.filled &= !(1 << (page / 64));
        }
    }

    /// Puts the page in if it belongs there, and takes it out otherwise.
    pub fn put(&mut self, page: PageNo, belongs: bool)
        requires { page < length self.old }
        ensures { self.new ≡ slice_set self.old page belongs }
    {
        if belongs {
            self.insert(page);
        } else {
            self.remove(page);
        }
    }

    /// Takes all pages out.
    pub fn clear(&mut self)
        ensures { self.new ≡ replicate (length self.old) false }
    {
        while let Some(at) = lowest_bit(self.filled, 0) {
            self.words[at] = 0;
            self.filled &= !(1 << at);
        }
    }

    /// The least member at or above `from`. Calls with one more than the last answer walk through
    /// the set in rising order.
    pub fn next(&self, from: usize) -> Option<PageNo>
        ensures { MatchOption result
            ((k : ℕ) → from ≤ k → has self.now k ≡ false)
            (λ page. (from ≤ page) × (has self.now page ≡ true)
            × ((k : ℕ) → from ≤ k → k < page → has self.now k ≡ false)) }
    {
        let page = next_bit(&self.words, self.filled, from)?;
        if page < self.pages {
            Some(PageNo::new(page as u32))
        } else {
            None
        }
    }
}

fn zero_words(alloc: Global, count: usize) -> Result<Vec<u64>, AllocError>
    ensures { IfOk result (λ words. words.items ≡ replicate count 0) }
{
    vec![in alloc; 0u64; count]
}

/// The least place at or after another whose bit in the words is 1, by their summary: the place of
/// bit `k` of word `at` is `64 * at + k`.
fn next_bit(words: &[u64], filled: u64, from: usize) -> Option<usize>
    requires { Summarizes filled words.now }
    ensures { MatchOption result
        ((k : ℕ) → from ≤ k → flag_at words.now k ≡ false)
        (λ place. (from ≤ place) × (flag_at words.now place ≡ true)
        × ((k : ℕ) → from ≤ k → k < place → flag_at words.now k ≡ false)) }
{
    let at = from / 64;
    if at >= words.len() {
        return None;
    }
    if let Some(bit) = lowest_bit(words[at], from % 64) {
        return Some(64 * at + bit);
    }
    let later = lowest_bit(filled, at + 1)?;
    Some(64 * later + words[later].trailing_zeros() as usize)
}

/// The lowest bit that is 1 in the word, at or after a place.
fn lowest_bit(word: u64, start: usize) -> Option<usize>
    ensures { MatchOption result
        ((k : ℕ) → start ≤ k → bit_at word k ≡ 0)
        (λ bit. (start ≤ bit) × (bit < 64) × (bit_at word bit ≡ 1)
        × ((k : ℕ) → start ≤ k → k < bit → bit_at word k ≡ 0)) }
{
    if start >= 64 {
        return None;
    }
    let rest = word >> start;
    if rest == 0 {
        None
    } else {
        Some(start + rest.trailing_zeros() as usize)
    }
}
