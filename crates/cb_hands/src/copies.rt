//! What is held of pages, packed.
ghost use Rattle.std.specs.Prelude.{◌≡◌, ℕ, ◌+◌, ◌<◌, ◌≤◌, ◌↔◌, IfOk, IsTrue, MatchOption, None};
ghost use Rattle.std.specs.Prelude.{Some, length, replicate, slice_index_or, slice_set, true};
ghost use Rattle.std.specs.Option.{is_some};
ghost use Rattle.std.specs.Vec.{vec_capacity};
ghost use Rattle.cb_hands.specs.Hands.{held_at};
ghost use Rattle.cb_hands.specs.Packed.{IsPacked, copy_at, unpacked};

use crate::grant::Held;
use cb_page::PageNo;
use std::alloc::{AllocError, Global};
use std::marker::Model;

/// A page, and what is held of it.
#[derive(Clone, Copy, PartialEq, Eq)]
pub(crate) struct HeldPage {
    page: PageNo,
    held: Held,
}

/// What is held of each page. Only `new` takes memory.
///
/// The pages of which something is held lie one behind another, in an order that the calls alone
/// determine: so two tables that changed alike are compared by one pass over them. A change costs
/// the same whatever is held.
#[derive(Drop)]
pub(crate) struct Copies {
    packed: Vec<HeldPage>,
    /// By page: where it lies among them, counted from 1; 0 where nothing is held of it.
    places: Vec<usize>,
}

impl Model for Copies {
    ghost use Rattle.std.specs.Prelude.{◌≤◌, List, Option, length, vec_capacity};
    ghost use Rattle.cb_hands.specs.declared.grant.Held.{Held};
    ghost use Rattle.cb_hands.specs.Packed.{IsPacked, unpacked};

    ghost Value = { List (Option Held) };

    ghost view = { λ c. unpacked c.packed.items c.places.items };

    ghost invariant = { λ c. IsPacked c.packed.items c.places.items
        × (length c.places.items ≤ vec_capacity c.packed) };
}

impl Copies {
    /// Nothing is held.
    #[tactic(auto, using(crate::proofs::Packing::no_copies, crate::proofs::Packing::no_places))]
    pub(crate) fn new(alloc: Global, pages: usize) -> Result<Copies, AllocError>
        ensures { IfOk result (λ copies. copies ≡ replicate pages None) }
    {
        let packed = Vec::with_capacity(alloc, pages)?;
        let places = vec![in alloc; 0usize; pages]?;
        Ok(Copies { packed, places })
    }

    /// What is held of a page; nothing for a page past the end.
    pub(crate) fn at(&self, page: PageNo) -> Option<Held>
        ensures { result ≡ held_at self.now page }
    {
        self.at_place(page.index())
    }

    fn at_place(&self, page: usize) -> Option<Held>
        ensures { result ≡ held_at self.now page }
    {
        copy_of(&self.packed, &self.places, page)
    }

    /// How many pages the store has.
    fn pages(&self) -> usize
        ensures { result ≡ length self.now }
    {
        self.places.len()
    }

    /// Some page of which something is held, if there is one.
    pub(crate) fn any(&self) -> Option<PageNo>
        ensures { MatchOption result
            ((k : ℕ) → held_at self.now k ≡ None)
            (λ page. (page < length self.now) × (is_some (held_at self.now page) ≡ true)) }
    {
        match self.packed.as_slice().last() {
            Some(last) => Some(last.page),
            None => None,
        }
    }

    /// Puts what is held of a page.
    pub(crate) fn put(&mut self, page: PageNo, held: Option<Held>)
        requires { page < length self.old }
        ensures { self.new ≡ slice_set self.old page held }
    {
        match held {
            Some(held) => put_in(&mut self.packed, &mut self.places, HeldPage { page, held }),
            None => take_out(&mut self.packed, &mut self.places, page),
        }
    }

    /// Nothing is held any more.
    pub(crate) fn clear(&mut self)
        ensures { self.new ≡ replicate (length self.old) None }
    {
        while let Some(page) = self.any() {
            self.put(page, None);
        }
    }

    /// Whether both say the same of each page. If they changed alike, it is one pass over what they
    /// hold.
    pub(crate) fn say_as(&self, others: &Copies) -> bool
        ensures { IsTrue result ↔ (self.now ≡ others.now) }
    {
        self.lie_as(others) || self.say_of_each_as(others)
    }

    /// Whether they hold the same of the same pages, in the same order.
    fn lie_as(&self, others: &Copies) -> bool
        ensures { IsTrue result → self.now ≡ others.now }
    {
        self.pages() == others.pages() && self.packed.as_slice() == others.packed.as_slice()
    }

    /// Whether both say the same, page by page.
    fn say_of_each_as(&self, others: &Copies) -> bool
        ensures { IsTrue result ↔ (self.now ≡ others.now) }
    {
        if self.pages() != others.pages() {
            return false;
        }
        for page in 0..self.pages() {
            if self.at_place(page) != others.at_place(page) {
                return false;
            }
        }
        true
    }
}

/// Where a page lies, if something is held of it.
fn place_of(places: &[usize], page: usize) -> Option<usize>
    ensures { MatchOption result
        (slice_index_or places.now page 0 ≡ 0)
        (λ place. slice_index_or places.now page 0 ≡ place + 1) }
{
    if page < places.len() {
        places[page].checked_sub(1)
    } else {
        None
    }
}

/// What is held of a page.
fn copy_of(packed: &[HeldPage], places: &[usize], page: usize) -> Option<Held>
    ensures { result ≡ copy_at packed.now (slice_index_or places.now page 0) }
{
    match packed.get(place_of(places, page)?) {
        Some(entry) => Some(entry.held),
        None => None,
    }
}

/// Something is held of a page: what is held of it already goes.
fn put_in(packed: &mut Vec<HeldPage>, places: &mut Vec<usize>, entry: HeldPage)
    requires packed { IsPacked packed.old.items places.old.items }
    requires page { entry.page < length places.old.items }
    requires room { length places.old.items ≤ vec_capacity packed.old }
    ensures packed { IsPacked packed.new.items places.new.items }
    ensures room { length places.new.items ≤ vec_capacity packed.new }
    ensures held { unpacked packed.new.items places.new.items
        ≡ slice_set (unpacked packed.old.items places.old.items) entry.page (Some entry.held) }
{
    match place_of(places, entry.page.index()) {
        Some(place) => packed[place] = entry,
        None => {
            places[entry.page.index()] = packed.len() + 1;
            packed.push_reserved(entry);
        }
    }
}

/// Nothing is held of a page: the last of the others comes where it lay.
fn take_out(packed: &mut Vec<HeldPage>, places: &mut Vec<usize>, page: PageNo)
    requires packed { IsPacked packed.old.items places.old.items }
    requires page { page < length places.old.items }
    requires room { length places.old.items ≤ vec_capacity packed.old }
    ensures packed { IsPacked packed.new.items places.new.items }
    ensures room { length places.new.items ≤ vec_capacity packed.new }
    ensures held { unpacked packed.new.items places.new.items
        ≡ slice_set (unpacked packed.old.items places.old.items) page None }
{
    let Some(place) = place_of(places, page.index()) else {
        return;
    };
    places[page.index()] = 0;
    packed.swap_remove(place);
    if place < packed.len() {
        places[packed[place].page.index()] = place + 1;
    }
}
