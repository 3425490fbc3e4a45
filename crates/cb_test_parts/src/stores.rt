//! The limits of small stores, and pages of one byte.

ghost use Rattle.std.specs.Prelude.{◌≡◌, length, IfOk};

use cb_page::{Limits, Page};
use std::alloc::{AllocError, Global};

/// So many clients, and eight pages of 16 bytes.
pub fn small_limits(clients: u64) -> Option<Limits> {
    Limits::new(clients, 8, 16, 4, 1, 2).ok()
}

/// A page of so many bytes, all the same.
pub fn page_of(alloc: Global, byte: u8, size: usize) -> Result<Page, AllocError>
    ensures { IfOk result (λ page. length page ≡ size) }
{
    Ok(Page::from_vec(vec![in alloc; byte; size]?))
}
