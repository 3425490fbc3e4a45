//! A list whose first items may be forgotten, and what it asks of its items.
ghost use Rattle.std.specs.Prelude.{◌≡◌, ◌+◌, ◌++◌, ◌<◌, ◌≤◌, [], ◌∷◌, length, OnErr, OnOk};
ghost use Rattle.cb_commit.specs.Past.{remembered};

use http_server::Log;
use std::alloc::{AllocError, Global};
use std::marker::Model;

/// A value that can let its memory go.
pub trait Hollow {
    /// Lets its memory go, and takes none. Its content is never read after that.
    fn hollow(&mut self, alloc: Global);
}

/// Items in order, of which the first ones may be forgotten.
pub struct Past<T> {
    /// The items that were forgotten, for proofs alone.
    forgotten: Log<T, ()>,
    /// The items that weren't, behind the vacant places.
    places: Vec<T>,
    /// How many places at the front are those of items that were forgotten. They are no more than
    /// the others, but for one.
    vacant: usize,
}

impl<T: Drop> Drop for Past<T> {
    fn drop(self) {
        let Past {
            forgotten: _,
            places: _,
            vacant: _,
        } = self;
    }
}

impl<T> Model for Past<T> {
    ghost use Rattle.std.specs.Prelude.{◌≤◌, length, vec_capacity};
    ghost use Rattle.cb_commit.specs.Past.{PastState, past_in};

    ghost Value = { PastState T };

    ghost view = { λ past.
        past_in past.forgotten.items past.places.items past.vacant (vec_capacity past.places) };

    ghost invariant = { λ past. past.vacant ≤ length past.places.items };
}

impl<T: Hollow + Drop> Past<T> {
    /// No items yet. It takes no memory.
    pub fn new(alloc: Global) -> Past<T>
        ensures items { result.items ≡ [] }
        ensures forgotten { result.forgotten ≡ 0 }
    {
        Past {
            forgotten: Log::new(),
            places: Vec::new(alloc),
            vacant: 0,
        }
    }

    /// Makes room for one more item. `AllocError` only if memory was refused.
    pub fn reserve_one(&mut self) -> Result<(), AllocError>
        ensures items { self.new.items ≡ self.old.items }
        ensures forgotten { self.new.forgotten ≡ self.old.forgotten }
        ensures room { OnOk result (0 < self.new.room) }
    {
        self.places.reserve(1)
    }

    /// Appends an item, for which there is room.
    pub fn push_reserved(&mut self, item: T)
        requires { 0 < self.old.room }
        ensures items { self.new.items ≡ self.old.items ++ item ∷ [] }
        ensures forgotten { self.new.forgotten ≡ self.old.forgotten }
    {
        self.places.push_reserved(item);
    }

    /// The items that weren't forgotten, in order.
    pub fn remembered(&self) -> &[T]
        ensures value { result.now ≡ remembered self.now }
        ensures within { self.now.forgotten ≤ length self.now.items }
    {
        &self.places[self.vacant..]
    }

    /// Forgets the first so many of the items that weren't forgotten yet: they leave memory. Its
    /// cost grows with their number alone, however many are left.
    pub fn forget(&mut self, count: usize)
        requires { self.old.forgotten + count ≤ length self.old.items }
        ensures items { self.new.items ≡ self.old.items }
        ensures forgotten { self.new.forgotten ≡ self.old.forgotten + count }
    {
        for _ in 0..count {
            self.forget_first();
        }
        self.close_up();
    }

    /// The first item in memory is forgotten. Its place stays, vacant.
    fn forget_first(&mut self)
        requires { self.old.forgotten < length self.old.items }
        ensures items { self.new.items ≡ self.old.items }
        ensures forgotten { self.new.forgotten ≡ self.old.forgotten + 1 }
    {
        let alloc = *self.places.allocator();
        let first = &mut self.places[self.vacant];
        self.forgotten = self.forgotten.and(first, &());
        first.hollow(alloc);
        self.vacant += 1;
    }

    /// The vacant places go, if they are more than the others. So no more items are moved than were
    /// forgotten.
    fn close_up(&mut self)
        ensures items { self.new.items ≡ self.old.items }
        ensures forgotten { self.new.forgotten ≡ self.old.forgotten }
    {
        if self.vacant > self.places.len() / 2 {
            self.places.drain(..self.vacant);
            self.vacant = 0;
        }
    }
}
