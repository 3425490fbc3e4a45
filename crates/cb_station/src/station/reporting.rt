//! A batch that was written is reported, and its commits are forgotten.
ghost use Rattle.std.specs.Prelude.{◌≡◌, ◌<◌, IfErr, IfOk, OnErr, OnOk};
ghost use Rattle.cb_station.specs.Reporting.{IsNextOf, ReportsUpTo};
ghost use Rattle.cb_station.specs.Stations.{IsUnchanged, server_of};

use crate::station::Station;
use cb_page::CommitNo;
use cb_shelf::Written;
use std::alloc::Global;

/// Says that a batch which was written was reported to a station, and forgotten there:
/// [`Station::report`] alone makes one, and nobody copies it.
#[derive(Drop)]
pub struct Reported {
    number: CommitNo,
    next: Option<CommitNo>,
}

impl Reported {
    /// The number of the batch.
    pub fn number(&self) -> CommitNo
        ensures { result ≡ self.now.number }
    {
        self.number
    }

    /// The number of the station's next commit, as of the report; `None` where none is left.
    pub fn next(&self) -> Option<CommitNo>
        ensures { result ≡ self.now.next }
    {
        self.next
    }
}

impl Station {
    /// Reports the commits of a batch that was written, and forgets them. It hands back what it
    /// took if memory was refused, or if the station has made no commit of that number yet. Nothing
    /// has changed then, and the batch is still to be reported.
    pub fn report(&mut self, alloc: Global, written: Written) -> Result<Reported, Written>
        ensures reports { OnOk result (ReportsUpTo written self.old self.new) }
        ensures number { IfOk result (λ reported. reported.number ≡ written) }
        ensures next { IfOk result (λ reported. IsNextOf self.new reported.next) }
        ensures back { IfErr result (λ back. back ≡ written) }
        ensures unreported { OnErr result ((server_of self.old).flushed < written) }
        ensures unchanged { OnErr result (IsUnchanged self.old self.new) }
    {
        let number = written.number();
        // Whether that was refused, the station shows.
        let _ = self.flushed(alloc, &written);
        let on_disk = self.is_on_disk(number);
        if !on_disk {
            return Err(written);
        }
        self.forget(written);
        let next = self.next_commit();
        Ok(Reported { number, next })
    }
}
