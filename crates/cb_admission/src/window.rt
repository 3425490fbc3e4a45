//! The window.
ghost use Rattle.std.specs.Prelude.{◌≡◌, false, MatchBool, MatchOption};
ghost use Rattle.cb_admission.specs.Windows.{Enters, GivesUp, IsNew, IsNextIn, IsTurn};
ghost use Rattle.cb_admission.specs.Windows.{NoneIsNext, StaysOut, aborted_after, after_try};
ghost use Rattle.cb_admission.specs.Windows.{clean_after, is_passed_over, may_enter};
ghost use Rattle.cb_admission.specs.Windows.{width_after};

use cb_page::{ClientNo, ClientSet};
use std::marker::Model;

/// How many tries are let in at once where none is aborted: one for each client that there may be.
const WIDEST: u16 = 32;

/// After so many clean commits the window is wider by one.
const CLEAN: u16 = 64;

/// So often in a row a client is let in while others wait.
const TURNS: u16 = 16;

/// How a try ended.
#[derive(Clone, Copy, Debug, PartialEq, Eq)]
pub enum TryEnd {
    /// By a commit that is on disk.
    Committed,
    /// Its transaction was aborted.
    Aborted,
    /// It was given up: a call of it was refused.
    GivenUp,
}

/// How many tries are in, how many may be, and who waits to be let in.
///
/// A try is let in while fewer are in than the window is wide. While others wait, a client is let
/// in at most sixteen times in a row, and is then passed over once. No call takes memory, and none
/// costs more than a few machine steps.
#[derive(Clone, Copy)]
pub struct AdmissionWindow {
    inside: u16,
    width: u16,
    /// How many commits came since the width changed or a try was aborted.
    clean: u16,
    /// How many tries were aborted.
    aborted: u64,
    waiting: ClientSet,
    /// Who was let in last.
    last: ClientNo,
    /// How often in a row it was let in while others waited.
    turns: u16,
}

impl Model for AdmissionWindow {
    ghost use Rattle.cb_admission.specs.Windows.{IsWindow, WindowState};

    ghost Value = { WindowState };

    ghost view = { λ w. record {
      inside = w.inside;
      width = w.width;
      clean = w.clean;
      aborted = w.aborted;
      waiting = w.waiting;
      last = w.last;
      turns = w.turns;
    } };

    ghost invariant = { λ w. IsWindow (record {
      inside = w.inside;
      width = w.width;
      clean = w.clean;
      aborted = w.aborted;
      waiting = w.waiting;
      last = w.last;
      turns = w.turns;
    }) };

    ghost inverse = { λ s. record {
      inside = s.inside;
      width = s.width;
      clean = s.clean;
      aborted = s.aborted;
      waiting = s.waiting;
      last = s.last;
      turns = s.turns;
    } };
}

impl AdmissionWindow {
    /// As wide as it gets, with nobody in and nobody waiting.
    pub fn new() -> AdmissionWindow
        ensures { IsNew result }
    {
        AdmissionWindow {
            inside: 0,
            width: WIDEST,
            clean: 0,
            aborted: 0,
            waiting: ClientSet::empty(),
            last: ClientNo::new(0),
            turns: 0,
        }
    }

    /// Lets a try of the client in, if there is room; the client then waits no more. `false` if it
    /// may not enter: it waits then, and a client that was passed over isn't passed over the next
    /// time.
    pub fn enter(&mut self, client: ClientNo) -> bool
        ensures exact { result ≡ may_enter self.old client }
        ensures after { MatchBool result (Enters self.old client self.new)
            (StaysOut self.old client self.new) }
    {
        if !self.may_enter(client) {
            self.stay_out(client);
            return false;
        }
        self.inside += 1;
        self.waiting.remove(client);
        self.turns = self.turns_of(client);
        self.last = client;
        true
    }

    /// Whether a try of the client is let in.
    fn may_enter(&self, client: ClientNo) -> bool
        ensures { result ≡ may_enter self.now client }
    {
        self.inside < self.width && !self.is_passed_over(client)
    }

    /// Whether the client was let in so often in a row while others waited that it is passed over.
    fn is_passed_over(&self, client: ClientNo) -> bool
        ensures { result ≡ is_passed_over self.now client }
    {
        self.last == client && self.turns >= TURNS
    }

    /// How often in a row the client was let in while others waited, once it is again.
    fn turns_of(&self, client: ClientNo) -> u16
        requires { is_passed_over self.now client ≡ false }
        ensures { IsTurn self.now client result }
    {
        if self.waiting.first().is_none() {
            return 0;
        }
        if self.last == client {
            self.turns + 1
        } else {
            1
        }
    }

    /// The client waits.
    fn stay_out(&mut self, client: ClientNo)
        ensures { StaysOut self.old client self.new }
    {
        if self.is_passed_over(client) {
            self.turns = 0;
        }
        self.waiting.insert(client);
    }

    /// A try ends. An aborted try halves the width. So many commits with no aborted try between
    /// them widen it by one.
    pub fn leave(&mut self, end: TryEnd)
        ensures { self.new ≡ after_try self.old end }
    {
        self.inside = self.inside.saturating_sub(1);
        match end {
            TryEnd::Committed => self.widen(),
            TryEnd::Aborted => self.narrow(),
            TryEnd::GivenUp => {}
        }
    }

    /// A client no longer waits, though it wasn't let in.
    pub fn give_up(&mut self, client: ClientNo)
        ensures { GivesUp self.old client self.new }
    {
        self.waiting.remove(client);
        self.turns = 0;
    }

    /// Who is to be let in next, if there is room and somebody waits: the first after the one that
    /// was let in last, by their numbers.
    pub fn next(&self) -> Option<ClientNo>
        ensures { MatchOption result (NoneIsNext self.now) (IsNextIn self.now) }
    {
        if self.inside >= self.width {
            return None;
        }
        match self.waiting.next(self.last.index() + 1) {
            Some(client) => Some(client),
            None => self.waiting.first(),
        }
    }

    /// How many tries are in.
    pub fn inside(&self) -> u16
        ensures { result ≡ self.now.inside }
    {
        self.inside
    }

    /// How many may be.
    pub fn width(&self) -> u16
        ensures { result ≡ self.now.width }
    {
        self.width
    }

    /// How many tries were aborted so far.
    pub fn aborted(&self) -> u64
        ensures { result ≡ self.now.aborted }
    {
        self.aborted
    }

    /// Counts a clean commit.
    fn widen(&mut self)
        ensures { self.new ≡ record self.old {
          width = width_after self.old TryEnd.Committed;
          clean = clean_after self.old TryEnd.Committed;
        } }
    {
        if self.clean + 1 < CLEAN {
            self.clean += 1;
            return;
        }
        self.clean = 0;
        if self.width < WIDEST {
            self.width += 1;
        }
    }

    /// Halves the width for a try that was aborted.
    fn narrow(&mut self)
        ensures { self.new ≡ record self.old {
          width = width_after self.old TryEnd.Aborted;
          clean = 0;
          aborted = aborted_after self.old TryEnd.Aborted;
        } }
    {
        self.clean = 0;
        if self.width > 1 {
            self.width /= 2;
        }
        self.aborted = self.aborted.saturating_add(1);
    }
}
