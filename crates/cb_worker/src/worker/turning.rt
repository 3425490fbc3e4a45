//! Turns: what is kept is handed in or taken, and more is collected.
ghost use Rattle.std.specs.Prelude.{◌≡◌, ◌≢◌, ◌<◌, [], length, None, IfSome, IsSome, OnOk};
ghost use Rattle.cb_station.specs.Moves.{IsKnown};
ghost use Rattle.cb_worker.specs.Turns.{Collects, TakesCollected, Turns};

use crate::said::Said;
use crate::worker::Worker;
use crate::worker_fault::WorkerFault;
use cb_frame::Frame;
use cb_station::{OfficeFault, Station};
use cb_twoq::Chooser;
use std::alloc::Global;

impl<Q: Chooser> Worker<Q> {
    /// Does the first of these that there is to do. It hands in the oldest kept frame, lets the
    /// client take the kept collected frame, or collects a frame and lets the client take it.
    /// `false` if there is nothing to do.
    ///
    /// After a fault the frame stays kept. A collected frame that doesn't fit the worker's own
    /// limits is `Foreign`.
    pub fn turn_at(&mut self, alloc: Global, station: &mut Station) -> Result<bool, WorkerFault>
        ensures { Turns self.old station.old result self.new station.new }
    {
        let known = station.knows(&self.hand);
        self.turn_knowing(alloc, station, known)
    }

    /// The same, told whether the station knows the hand. Each call here that is told so under one
    /// lock leaves that as it is.
    pub(super) fn turn_knowing(
        &mut self,
        alloc: Global,
        station: &mut Station,
        known: bool,
    ) -> Result<bool, WorkerFault>
        requires { IsKnown known station.old self.old.hand }
        ensures { Turns self.old station.old result self.new station.new }
    {
        if !self.said.is_empty() {
            return self.hand_in(alloc, station, known);
        }
        if self.collected.is_some() {
            return self.take_collected(alloc);
        }
        self.collect(alloc, station, known)
    }

    /// Hands the oldest kept frame in.
    pub(super) fn hand_in(
        &mut self,
        alloc: Global,
        station: &mut Station,
        known: bool,
    ) -> Result<bool, WorkerFault>
        requires said { self.old.said ≢ [] }
        requires known { IsKnown known station.old self.old.hand }
        ensures turns { Turns self.old station.old result self.new station.new }
        ensures client { self.new.client ≡ self.old.client }
        ensures fewer { OnOk result (length self.new.said < length self.old.said) }
    {
        let Some(frame) = self.said.oldest() else {
            unreachable!()
        };
        match station.take_if_known(alloc, frame, &mut self.hand, known) {
            Err(fault) => Err(WorkerFault::Office(fault)),
            Ok(()) => {
                self.said.remove_oldest();
                Ok(true)
            }
        }
    }

    /// The client takes the kept collected frame.
    fn take_collected(&mut self, alloc: Global) -> Result<bool, WorkerFault>
        requires said { self.old.said ≡ [] }
        requires collected { IsSome self.old.collected }
        ensures { IfSome self.old.collected (λ frame.
            TakesCollected self.old frame result self.new) }
    {
        let Some(frame) = self.collected.take() else {
            unreachable!()
        };
        if !frame.fits(self.client.limits()) {
            self.collected = Some(frame);
            return Err(WorkerFault::Office(OfficeFault::Foreign));
        }
        match self.client.take_owned(alloc, frame) {
            Ok(said) => {
                self.said = Said::of(said);
                Ok(true)
            }
            Err((fault, frame)) => {
                self.collected = Some(frame);
                Err(WorkerFault::Client(fault))
            }
        }
    }

    /// Collects a frame, and lets the client take it.
    fn collect(
        &mut self,
        alloc: Global,
        station: &mut Station,
        known: bool,
    ) -> Result<bool, WorkerFault>
        requires said { self.old.said ≡ [] }
        requires collected { self.old.collected ≡ None }
        requires known { IsKnown known station.old self.old.hand }
        ensures { Collects self.old station.old result self.new station.new }
    {
        match station.collect_if_known(&mut self.hand, known) {
            Err(fault) => Err(WorkerFault::Office(fault)),
            Ok(None) => Ok(false),
            Ok(Some(frame)) => {
                self.collected = Some(frame);
                self.take_collected(alloc)
            }
        }
    }
}
