//! How the clients' parts of a run ended.
ghost use Rattle.std.specs.Prelude.{◌≡◌, ◌≤◌, ◌+◌, IfErr, IfOk, OnOk, Ok, Err, None};
ghost use Rattle.cb_office.specs.Outcomes.{lower};
ghost use Rattle.cb_office.specs.Parts.{quiet_parts};
ghost use Rattle.cb_office.specs.Runs.{ending_of_run, of_client};

use crate::faults::of_run;
use crate::halted::WasHalted;
use crate::over::Over;
use crate::{EarlyEnding, FirstEnding, Noted};
use cb_shelf::ShelfFault;
use cb_worker::Left;
use std::marker::Model;

/// How a client's part of the run of this name ended. It can't be copied or let go:
/// [`Parts::take`] alone takes one.
pub(crate) enum PartEnd<'a, N> {
    /// The client left the office.
    Left(Left<'a>),
    /// It faulted, and that was noted.
    Noted(Noted<N>),
    /// The office was halted, and it says nothing of why.
    Halted(WasHalted<'a>),
}

/// How the clients' parts of a run ended so far: the ending of the lowest client that told of one,
/// and how many parts had nothing to tell.
#[derive(Drop)]
pub(crate) struct Parts<N> {
    faults: FirstEnding<N>,
    quiet: u16,
}

impl<N> Parts<N> {
    /// None has ended yet.
    pub(crate) fn none(run: N) -> Parts<N>
        ensures told { result.faults.told ≡ None }
        ensures quiet { result.quiet ≡ 0 }
    {
        Parts {
            faults: FirstEnding::none(run),
            quiet: 0,
        }
    }

    /// Notes by which fault a client's part ended.
    pub(crate) fn note(&mut self, client: u16, ending: EarlyEnding) -> Noted<N>
        ensures noted { result ≡ of_client client ending }
        ensures lowest { self.new.faults.told
            ≡ lower self.old.faults.told (of_client client ending) }
        ensures quiet { self.new.quiet ≡ self.old.quiet }
    {
        self.faults.note(client, ending)
    }

    /// Takes how a part ended. One that had nothing to tell is counted, and no other.
    pub(crate) fn take(&mut self, end: PartEnd<'_, N>)
    where
        N: Drop,
        ensures quiet { self.new.quiet ≤ self.old.quiet + quiet_parts end.entry }
        ensures faults { self.new.faults ≡ self.old.faults }
    {
        match end {
            PartEnd::Noted(_) => {}
            PartEnd::Left(_) => self.quiet = self.quiet.saturating_add(1),
            PartEnd::Halted(_) => self.quiet = self.quiet.saturating_add(1),
        }
    }

    /// How the run ended of so many clients whose flusher ended so: by the first fault, as
    /// [`of_run`] says; well, only where as many parts as there are clients had nothing to tell.
    /// Where fewer had, and none told of a fault, a worker is at fault.
    pub(crate) fn end<'a>(
        &self,
        flushed: Result<Over<'a>, ShelfFault>,
        clients: u16,
    ) -> Result<RunOver<'a>, EarlyEnding>
        ensures over { IfOk result (λ over. flushed.entry ≡ Ok over) }
        ensures faults { IfErr (ending_of_run flushed.entry self.now.faults.told)
            (λ ending. result ≡ Err ending) }
        ensures quiet { OnOk result (clients ≤ self.now.quiet) }
    {
        let over = of_run(flushed, self.faults.told)?;
        if self.quiet < clients {
            return Err(EarlyEnding::Worker);
        }
        Ok(RunOver { over })
    }
}

/// Says that a run was over at an office, and that as many parts as it has clients had nothing to
/// tell. Only `Parts::end` makes one, of the [`Over`] that the flusher returned, and nobody can
/// copy it. In contracts it is that [`Over`].
#[derive(Drop)]
pub struct RunOver<'a> {
    over: Over<'a>,
}

impl<'a> Model for RunOver<'a> {
    ghost use Rattle.cb_office.specs.Ends.{OverState};

    ghost Value = { OverState };

    ghost view = { λ over. over.over };
}

impl RunOver<'_> {
    /// Whether the run was cut off as it ended.
    pub fn is_cut_off(&self) -> bool
        ensures { result ≡ self.now.cut_off }
    {
        self.over.is_cut_off()
    }

    /// What can still be said of the run once its office may be gone.
    pub fn into_past(self) -> PastRun
        ensures { result ≡ self.entry.cut_off }
    {
        PastRun {
            cut_off: self.over.is_cut_off(),
        }
    }
}

/// Says that a run was over, at an office that may be gone. Only [`RunOver::into_past`] makes one,
/// and nobody can copy it. In contracts it is whether the run was cut off then.
#[derive(Drop)]
pub struct PastRun {
    cut_off: bool,
}

impl Model for PastRun {
    ghost use Rattle.std.specs.Prelude.{Bool};

    ghost Value = { Bool };

    ghost view = { λ past. past.cut_off };
}
