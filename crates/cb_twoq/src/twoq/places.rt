//! Which list of pages in slots has a page, for each page.

ghost use Rattle.std.specs.Prelude.{◌≡◌, length, replicate, slice_index_or, IfOk};
ghost use Rattle.cb_twoq.specs.Places.{Out, IsPut, ComesIn};

use cb_page::PageNo;
use std::alloc::{AllocError, Global};

/// How many pages there can be.
const PAGES: usize = 4096;

/// The list that has a page, or none that stands for slots.
#[derive(Clone, Copy)]
pub(crate) enum Place {
    Out,
    A1in,
    Am,
}

/// No page is in a slot.
pub(crate) fn no_places(alloc: Global) -> Result<Vec<Place>, AllocError>
    ensures { IfOk result (λ places. places.items ≡ replicate 4096 Out) }
{
    vec![in alloc; Place::Out; PAGES]
}

/// The place of a page.
pub(crate) fn place_of(places: &Vec<Place>, page: PageNo) -> Place
    requires { length places.now.items ≡ 4096 }
    ensures { result ≡ slice_index_or places.now.items page Out }
{
    places[page.index()]
}

/// Gives a page its place.
pub(crate) fn put_place(places: &mut Vec<Place>, page: PageNo, place: Place)
    requires { length places.old.items ≡ 4096 }
    ensures { IsPut places.old.items page place places.new.items }
{
    places[page.index()] = place;
}

/// A page comes in, on Am if it was remembered, and another goes, if any.
pub(crate) fn come_in(
    places: &mut Vec<Place>,
    page: PageNo,
    was_remembered: bool,
    gone: &Option<PageNo>,
)
    requires { length places.old.items ≡ 4096 }
    ensures { ComesIn places.old.items page was_remembered gone.now places.new.items }
{
    if let Some(other) = gone {
        put_place(places, *other, Place::Out);
    }
    let place = if was_remembered {
        Place::Am
    } else {
        Place::A1in
    };
    put_place(places, page, place);
}
