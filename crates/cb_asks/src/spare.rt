//! Maps that no queue has.
ghost use Rattle.std.specs.Prelude.{◌≡◌, ◌<◌, ◌+◌, length, IfOk};
ghost use Rattle.cb_asks.specs.Maps.{IsReady};

use crate::key::Key;
use crate::queue::Entry;
use indexmap::IndexMap;
use std::alloc::{AllocError, Global};
use std::marker::Model;

/// Maps for the queues of pages that somebody will wait for: empty, with room for an ask each.
///
/// There are 32 of them and of those in queues, since a client waits for one page at most. The last
/// one that came is the first to go: so short waits use the same memory, whatever their pages.
#[derive(Drop)]
pub(crate) struct Spare {
    maps: Vec<Box<IndexMap<Key, Entry>>>,
}

impl Model for Spare {
    ghost use Rattle.std.specs.Prelude.{ℕ, ◌≤◌, All, length};
    ghost use Rattle.std.specs.Vec.{vec_capacity};
    ghost use Rattle.cb_asks.specs.Maps.{IsReady};

    ghost Value = { ℕ };

    ghost view = { λ s. length s.maps.items };

    ghost invariant = { λ s. All IsReady s.maps.items × (32 ≤ vec_capacity s.maps) };
}

impl Spare {
    /// One for each client.
    ///
    /// `AllocError` only if memory was refused.
    pub(crate) fn new(alloc: Global) -> Result<Spare, AllocError>
        ensures { IfOk result (λ spare. spare ≡ 32) }
    {
        let mut maps = Vec::with_capacity(alloc, 32)?;
        for _ in 0..32_usize {
            let map = IndexMap::with_capacity(alloc, 1)?;
            maps.push_reserved(Box::new(alloc, map)?);
        }
        Ok(Spare { maps })
    }

    /// A queue takes one.
    pub(crate) fn take(&mut self) -> Box<IndexMap<Key, Entry>>
        requires { 0 < self.old }
        ensures ready { IsReady result }
        ensures one { self.new + 1 ≡ self.old }
    {
        match self.maps.pop() {
            Some(map) => map,
            None => unreachable!(),
        }
    }

    /// A queue gives its own back.
    pub(crate) fn put(&mut self, mut map: Box<IndexMap<Key, Entry>>)
        requires some { 0 < length map.value.entries }
        requires few { self.old < 32 }
        ensures { self.new ≡ self.old + 1 }
    {
        map.clear();
        self.maps.push_reserved(map);
    }
}
