//! A chooser that isn't 2Q, and promises the law alone: the unfixed page that came in first is let
//! go.

ghost use Rattle.std.specs.Prelude.{⊤};

use cb_page::{Limits, PageNo, PageSet};
use cb_twoq::{ChooseFault, Chooser, is_on, oldest_unfixed, take_off};
use std::alloc::{AllocError, Global};
use std::collections::VecDeque;
use std::marker::Model;

/// The pages in slots, newest first. It takes memory as it grows.
#[derive(Drop)]
pub struct Fifo {
    slots: usize,
    pages: VecDeque<PageNo>,
}

impl Model for Fifo {
    ghost use Rattle.std.specs.Prelude.{ℕ, List};
    ghost use Rattle.cb_twoq.specs.Pages.{AreOnce};

    ghost Value = { ℕ × List ℕ };

    ghost view = { λ fifo. (fifo.slots, fifo.pages.items) };

    ghost invariant = { λ fifo. AreOnce fifo.slots fifo.pages.items };
}

impl Chooser for Fifo {
    ghost members = { λ fifo. fifo.1 };

    ghost slots = { λ fifo. fifo.0 };

    ghost refers = { λ _ _ _ _ _. ⊤ };

    ghost takes_out = { λ _ _ _. ⊤ };

    fn make(alloc: Global, limits: &Limits) -> Result<Fifo, AllocError> {
        Ok(Fifo {
            slots: limits.slots(),
            pages: VecDeque::new(alloc),
        })
    }

    fn reference(&mut self, page: PageNo, fixed: &PageSet) -> Result<Option<PageNo>, ChooseFault> {
        if is_on(&self.pages, page) {
            return Ok(None);
        }
        if self.pages.len() < self.slots {
            if self.pages.push_front(page).is_err() {
                return Err(ChooseFault::Memory);
            }
            return Ok(None);
        }
        match oldest_unfixed(&self.pages, fixed) {
            Some(gone) => {
                take_off(&mut self.pages, gone);
                self.pages.push_front_reserved(page);
                Ok(Some(gone))
            }
            None => Err(ChooseFault::Full),
        }
    }

    fn forget(&mut self, page: PageNo) {
        take_off(&mut self.pages, page);
    }
}
