//! The slot that a reclaim takes.

use cb_page::PageNo;

/// A slot for a page that comes in: a free one, or that of a page of A1in or of Am, which is let
/// go.
#[derive(Drop)]
pub(crate) enum Slot {
    Free,
    OfA1in(PageNo),
    OfAm(PageNo),
}
