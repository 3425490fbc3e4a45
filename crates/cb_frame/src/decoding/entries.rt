//! The pages of a commit, in bytes whose length and sizes are right.
ghost use Rattle.std.specs.Prelude.{◌≡◌, ◌≤◌, ◌+◌, ◌*◌, ◌&&◌, nat_lt, length, map, true};
ghost use Rattle.std.specs.Prelude.{IfOk, IsOk};
ghost use Rattle.std.specs.Int.{w32, w64};
ghost use Rattle.std.specs.List.{list_all};
ghost use Rattle.cb_page.specs.Numbers.{is_number};
ghost use Rattle.cb_page.specs.Rising.{is_rising};
ghost use Rattle.cb_frame.specs.Checks.{is_write, number, write_in, write_length, writes_at};
ghost use Rattle.cb_frame.specs.Grammar.{page_of};

use crate::decoding::lengths::write_length;
use crate::decoding::numbers::{is_number, page_grant_at, u32_at, u64_at};
use crate::{FrameVersion, Write, Writes};
use cb_page::{Limits, Page};
use std::alloc::{AllocError, Global};

/// Whether each number is in its range.
pub fn numbers_fit(limits: &Limits, version: FrameVersion, count: usize, entries: &[u8]) -> bool
    requires { length entries.now ≡ count * write_length version limits.now.page_size }
    ensures { result ≡
        list_all (is_write limits.now) (writes_at version limits.now.page_size count entries.now) }
{
    let size = write_length(version, limits.page_size());
    let mut rest = entries;
    for _ in 0..count {
        if !is_write(limits, rest) {
            return false;
        }
        let (_, after) = rest.split_at(size);
        rest = after;
    }
    true
}

/// Whether the page and the grant of one entry are in their ranges.
fn is_write(limits: &Limits, entry: &[u8]) -> bool
    requires { 12 ≤ length entry.now }
    ensures { result ≡
        (nat_lt (number w32 0 entry.now) limits.now.pages && is_number (number w64 4 entry.now)) }
{
    limits.has_page(u32_at(entry, 0)) && is_number(u64_at(entry, 4))
}

/// Whether the pages rise, each of which is one of the store's.
pub fn pages_rise(limits: &Limits, version: FrameVersion, count: usize, entries: &[u8]) -> bool
    requires len { length entries.now ≡ count * write_length version limits.now.page_size }
    requires fit { list_all (is_write limits.now)
        (writes_at version limits.now.page_size count entries.now) ≡ true }
    ensures { result ≡
        is_rising (map page_of (writes_at version limits.now.page_size count entries.now)) }
{
    let size = write_length(version, limits.page_size());
    let mut least = 0;
    let mut rest = entries;
    for _ in 0..count {
        let page = u32_at(rest, 0);
        if page < least {
            return false;
        }
        least = page + 1;
        let (_, after) = rest.split_at(size);
        rest = after;
    }
    true
}

/// The pages, of which each number is in its range. No memory is taken for none.
pub fn writes_of(
    alloc: Global,
    limits: &Limits,
    version: FrameVersion,
    count: usize,
    entries: &[u8],
) -> Result<Writes, AllocError>
    requires len { length entries.now ≡ count * write_length version limits.now.page_size }
    requires fit { list_all (is_write limits.now)
        (writes_at version limits.now.page_size count entries.now) ≡ true }
    ensures writes { IfOk result (λ writes.
        writes ≡ writes_at version limits.now.page_size count entries.now) }
    ensures empty { count ≡ 0 → IsOk result }
{
    let size = write_length(version, limits.page_size());
    let mut writes = Vec::with_capacity(alloc, count)?;
    let mut rest = entries;
    for _ in 0..count {
        let write = write_of(alloc, limits, version, rest)?;
        writes.push_reserved(write);
        let (_, after) = rest.split_at(size);
        rest = after;
    }
    Ok(Writes::from_vec(writes))
}

fn write_of(
    alloc: Global,
    limits: &Limits,
    version: FrameVersion,
    entry: &[u8],
) -> Result<Write, AllocError>
    requires len { write_length version limits.now.page_size ≤ length entry.now }
    requires fits { is_write limits.now (write_in version limits.now.page_size entry.now) ≡ true }
    ensures { IfOk result (λ write. write ≡ write_in version limits.now.page_size entry.now) }
{
    let Ok((page, grant)) = page_grant_at(limits, entry, 0) else {
        unreachable!();
    };
    let start = 12 + version.size_length();
    let bytes = Page::copy_of(alloc, &entry[start..start + limits.page_size()])?;
    Ok(Write { page, grant, bytes })
}
