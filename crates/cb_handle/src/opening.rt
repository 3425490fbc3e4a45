//! The rows of a store that a server is to open over.
ghost use Rattle.std.specs.Prelude.{◌≡◌, ◌↔◌, IfErr, IfOk, IsOk, OnErr, length, nat_lt};
ghost use Rattle.cb_commit.specs.Stores.{IsOf};
ghost use Rattle.cb_handle.specs.Causes.{Decides, memory, never, no_opening, no_row, refused_if};
ghost use Rattle.cb_handle.specs.Opened.{no_rows, store_of, told_floor, with_row};
ghost use Rattle.cb_handle.specs.declared.refusal.HandleRefusal.TheVariants as refusal;
ghost use Rattle.cb_page.specs.Numbers.{max_number};

use crate::refusal::HandleRefusal;
use cb_commit::{Store, StoredPage};
use cb_page::{Incarnation, Limits, MAX_NUMBER, Page, Version};
use std::alloc::Global;
use std::marker::Model;

/// The first rows of a store with these limits, whose last commit has this number.
pub struct Opening {
    limits: Limits,
    number: u64,
    /// Of the life that the server is to begin; without one it is new.
    floor: Option<Incarnation>,
    rows: Vec<StoredPage>,
}

// By hand: see docs/PROVING.md, "Drops".
impl Drop for Opening {
    fn drop(self) {
        let Opening {
            limits: _,
            number: _,
            floor: _,
            rows: _,
        } = self;
    }
}

impl Model for Opening {
    ghost use Rattle.cb_handle.specs.Opened.{IsOpening, OpeningState};

    ghost Value = { OpeningState };

    ghost view = { λ opening. record {
      limits = opening.limits;
      number = opening.number;
      floor = opening.floor;
      rows = opening.rows.items;
    } };

    ghost invariant = { λ opening. IsOpening (record {
      limits = opening.limits;
      number = opening.number;
      floor = opening.floor;
      rows = opening.rows.items;
    }) };
}

/// The floor that a host tells by a number; 0 means none. `Range` if no incarnation can have it.
fn told(floor: u64) -> Result<Option<Incarnation>, HandleRefusal>
    ensures floor { IfOk result (λ told. told ≡ told_floor floor) }
    ensures why { Decides (refused_if (nat_lt max_number floor) refusal.Range) never result }
{
    if floor == 0 {
        return Ok(None);
    }
    match Incarnation::checked(floor) {
        Some(incarnation) => Ok(Some(incarnation)),
        None => Err(HandleRefusal::Range),
    }
}

impl Opening {
    /// No rows yet, for a server in the life with this floor. A floor of 0 means that the server
    /// keeps no lives. `Range` if no commit can have this number (0 stands for the time before the
    /// first), or no incarnation can be the floor.
    pub fn new(
        alloc: Global,
        limits: &Limits,
        number: u64,
        floor: u64,
    ) -> Result<Opening, HandleRefusal>
        ensures rows { IfOk result (λ opening. opening ≡ no_rows limits.now number floor) }
        ensures why { Decides (no_opening number floor) never result }
    {
        if number > MAX_NUMBER {
            return Err(HandleRefusal::Range);
        }
        Ok(Opening {
            limits: *limits,
            number,
            floor: told(floor)?,
            rows: Vec::new(alloc),
        })
    }

    /// The row of the next page: the number of the commit that wrote it last, 0 if none did, and
    /// its bytes.
    ///
    /// `Room` if each page has its row already, or the bytes aren't as long as a page; `Range` if
    /// the version is above the last commit's number; `Memory` if a growth was refused.
    pub fn row(&mut self, alloc: Global, version: u64, bytes: &[u8]) -> Result<(), HandleRefusal>
        ensures ok { IfOk result (λ _. self.new ≡ with_row self.old version bytes.now) }
        ensures why { Decides (no_row self.old version (length bytes.now)) memory result }
        ensures unchanged { OnErr result (self.new ≡ self.old) }
    {
        if bytes.len() != self.limits.page_size()
            || self.rows.len() >= self.limits.pages() as usize
        {
            return Err(HandleRefusal::Room);
        }
        if version > self.number {
            return Err(HandleRefusal::Range);
        }
        let version = Version::new(version);
        let bytes = Page::copy_of(alloc, bytes)?;
        match self.rows.push(StoredPage { version, bytes }) {
            Ok(()) => Ok(()),
            Err(_) => Err(HandleRefusal::Memory),
        }
    }

    /// The limits, the store of the rows, which are moved, and the floor. The rows come back if
    /// there isn't one for each page.
    pub fn into_store(self) -> Result<(Limits, Store, Option<Incarnation>), Opening>
        ensures limits { IfOk result (λ opened. opened.0 ≡ self.limits) }
        ensures store { IfOk result (λ opened. opened.1 ≡ store_of self) }
        ensures floor { IfOk result (λ opened. opened.2 ≡ self.floor) }
        ensures of { IfOk result (λ opened. IsOf opened.0 opened.1) }
        ensures back { IfErr result (λ opening. opening ≡ self) }
        ensures whole { IsOk result ↔ (length self.rows ≡ self.limits.pages) }
    {
        if self.rows.len() != self.limits.pages() as usize {
            return Err(self);
        }
        let Opening {
            limits,
            number,
            floor,
            rows,
        } = self;
        Ok((limits, Store::from_rows(&limits, rows, number), floor))
    }
}
