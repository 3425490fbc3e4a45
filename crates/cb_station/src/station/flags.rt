//! What the threads that share a station tell each other.
ghost use Rattle.std.specs.Prelude.{◌≡◌, ◌==◌, ◌+◌, ◌<◌, ◌||◌, ℕ, true, false, MatchBool};
ghost use Rattle.cb_admission.specs.Windows.{IsNew};
ghost use Rattle.cb_page.specs.Clients.{has};
ghost use Rattle.cb_station.specs.Flags.{AreFlags, is_cut_off, is_over, may_begin};
ghost use Rattle.cb_station.specs.Telling.{after_work, closed, halted, untold_in, without_work};

use crate::station::Station;
use cb_admission::AdmissionWindow;
use std::marker::Model;

/// Whether the station is closed, whether it is halted, how many calls of `work` are still to end,
/// how many are going on, how many tries are let in, and whether there is news of any of these, or
/// of commits, which whoever waits for that wasn't told.
#[derive(Clone, Copy)]
pub(crate) struct Flags {
    closed: bool,
    halted: bool,
    left: usize,
    working: usize,
    pub(super) window: AdmissionWindow,
    pub(super) news: bool,
}

impl Flags {
    /// Those of a station that nobody shares: it is open, and one call of `work` will use it.
    pub(super) fn new() -> Flags
        ensures value { result ≡ record {
          closed = false;
          halted = false;
          left = 1;
          working = 0;
          window = result.window;
          news = false;
        } }
        ensures window { IsNew result.window }
        ensures are { AreFlags result }
    {
        Flags {
            closed: false,
            halted: false,
            left: 1,
            working: 0,
            window: AdmissionWindow::new(),
            news: false,
        }
    }
}

/// Says how many calls of `work` a station expects: nobody but [`Station::expect_workers`] makes
/// one. In contracts it is that number.
#[derive(Drop)]
pub(crate) struct Expected {
    workers: usize,
}

impl Model for Expected {
    ghost use Rattle.std.specs.Prelude.{ℕ};

    ghost Value = { ℕ };

    ghost view = { λ expected. expected.workers };
}

impl Station {
    /// So many calls of `work` will use the station. With none it is closed.
    pub(crate) fn expect_workers(&mut self, workers: usize) -> Expected
        ensures expected { result ≡ workers }
        ensures station { self.new ≡ record self.old {
          flags = record self.old.flags {
            closed = self.old.flags.closed || workers == 0;
            left = workers;
            news = self.old.flags.news || workers == 0;
          };
        } }
    {
        if workers == 0 {
            self.close();
        }
        self.flags.left = workers;
        Expected { workers }
    }

    /// No call of `work` begins any more.
    pub fn close(&mut self)
        ensures { self.new ≡ closed self.old }
    {
        self.flags.closed = true;
        self.flags.news = true;
    }

    /// No call of `work` begins any more, and nobody waits. Each client is to be told.
    pub fn halt(&mut self)
        ensures halted { self.new ≡ halted self.old (untold_in self.new) }
        ensures everybody { (client : ℕ) → client < 32
            → has (untold_in self.new) client ≡ true }
    {
        self.close();
        self.flags.halted = true;
        self.dispatcher.notice_all();
    }

    /// A call of `work` begins, and is counted as going on. `false` if the station is closed, or if
    /// so many are going on that one more can't be counted; nothing changes then.
    pub fn begin_work(&mut self) -> bool
        ensures begins { result ≡ may_begin self.old.flags }
        ensures after { MatchBool result
            (self.new ≡ record self.old {
              flags = record self.old.flags {
                working = self.old.flags.working + 1;
              };
            })
            (self.new ≡ self.old) }
    {
        if self.flags.closed || self.flags.working == usize::MAX {
            return false;
        }
        self.flags.working += 1;
        true
    }

    /// One call of `work` that began has ended. The last one closes the station.
    pub fn end_work(&mut self)
        ensures { self.new ≡ after_work self.old }
    {
        self.skip_work();
        self.flags.working = self.flags.working.saturating_sub(1);
    }

    /// One call of `work` that is expected won't begin; the last one closes the station. As many
    /// are going on as before.
    pub fn skip_work(&mut self)
        ensures { self.new ≡ without_work self.old }
    {
        self.flags.news = true;
        if self.flags.left <= 1 {
            self.close();
        }
        self.flags.left = self.flags.left.saturating_sub(1);
    }

    /// Whether no call of `work` commits any more: the station is halted, or it is closed and none
    /// is going on. That stays so.
    pub fn is_over(&self) -> bool
        ensures { result ≡ is_over self.now.flags }
    {
        self.flags.halted || (self.flags.closed && self.flags.working == 0)
    }

    /// Whether whoever waits for commits, the end of a call of `work`, closing or halting is to be
    /// told.
    pub(crate) fn has_news(&self) -> bool
        ensures { result ≡ self.now.flags.news }
    {
        self.flags.news
    }

    /// Those were told.
    pub(crate) fn told_news(&mut self)
        ensures { self.new ≡ record self.old { flags = record self.old.flags { news = false } } }
    {
        self.flags.news = false;
    }

    /// Whether calls of `work` may have left jobs undone: the station is halted, or it still
    /// expects such calls to end.
    pub fn is_cut_off(&self) -> bool
        ensures { result ≡ is_cut_off self.now.flags }
    {
        self.flags.halted || self.flags.left > 0
    }

    /// Whether no call of `work` begins any more.
    pub fn is_closed(&self) -> bool
        ensures { result ≡ self.now.flags.closed }
    {
        self.flags.closed
    }

    /// Whether it was halted.
    pub fn is_halted(&self) -> bool
        ensures { result ≡ self.now.flags.halted }
    {
        self.flags.halted
    }
}
