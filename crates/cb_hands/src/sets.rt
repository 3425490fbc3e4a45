//! Sets of pages are compared.
ghost use Rattle.std.specs.Prelude.{◌≡◌, ◌↔◌, IsTrue};

use cb_page::PageSet;

/// Whether the two sets have the same pages, of stores of as many.
pub(crate) fn same_pages(pages: &PageSet, others: &PageSet) -> bool
    ensures { IsTrue result ↔ (pages.now ≡ others.now) }
{
    if pages.pages() != others.pages() {
        return false;
    }
    let mut from = 0;
    while let Some(page) = pages.next(from) {
        if others.next(from) != Some(page) {
            return false;
        }
        from = page.index() + 1;
    }
    others.next(from).is_none()
}
