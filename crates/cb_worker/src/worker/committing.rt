//! A transaction commits.
ghost use Rattle.std.specs.Prelude.{◌≡◌, ◌≢◌, IfErr, IfOk, OnOk};
ghost use Rattle.cb_client.specs.CallAnswers.{SaysCommit};
ghost use Rattle.cb_client_core.specs.ClientState.{IsClient};
ghost use Rattle.cb_client_core.specs.declared.stage.Stage.TheVariants.{Idle};
ghost use Rattle.cb_station.specs.Moves.{IsKnown};
ghost use Rattle.cb_worker.specs.Committing.{CommitsAt, FinishesOrAgain, HandsFrameIn};
ghost use Rattle.cb_worker.specs.Committing.{RefusesFrame};
ghost use Rattle.cb_worker.specs.Refusals.{LacksFrame};
ghost use Rattle.cb_worker.specs.Workers.{HasTransaction, with_client};

use crate::worker::Worker;
use crate::worker_fault::WorkerFault;
use cb_client::ClientFault;
use cb_frame::Frame;
use cb_page::CommitNo;
use cb_station::{OfficeFault, Station};
use cb_twoq::Chooser;
use std::alloc::Global;

impl<Q: Chooser> Worker<Q> {
    /// Commits the open transaction, which read the pages that it locked. What is committed is
    /// exactly what it wrote. If the station refused it, the client is committing, and the next
    /// call hands in the same commit.
    ///
    /// It copies these pages at the locked station; `finish` does so before it takes the lock. The
    /// flusher is told of the commit as the guard of `Office::lock` goes, which has to go before a
    /// call that is handed the office.
    pub fn commit_at(
        &mut self,
        alloc: Global,
        station: &mut Station,
    ) -> Result<CommitNo, WorkerFault>
        ensures { CommitsAt self.old station.old result self.new station.new }
    {
        let frame = self.commit_frame(alloc)?;
        let known = station.knows(&self.hand);
        Ok(self.hand_frame_in(alloc, frame, station, known)?)
    }

    /// As `commit_at`, but by a frame that has the commit already, if one is to be sent. No page is
    /// copied. It is told whether the station knows the hand.
    pub(super) fn commit_by(
        &mut self,
        alloc: Global,
        frame: Frame,
        station: &mut Station,
        known: bool,
    ) -> Result<CommitNo, WorkerFault>
        requires says { self.old.client.stage ≢ Idle → SaysCommit self.old.client frame }
        requires known { IsKnown known station.old self.old.hand }
        ensures { CommitsAt self.old station.old result self.new station.new }
    {
        self.finish_by(&frame)?;
        Ok(self.hand_frame_in(alloc, frame, station, known)?)
    }

    /// The Commit frame of the open or committing transaction. It takes no lock, and nothing
    /// changes.
    pub(super) fn frame_to_commit(&self, alloc: Global) -> Result<Frame, WorkerFault>
        requires { HasTransaction self.now }
        ensures says { IfOk result (SaysCommit self.now.client) }
        ensures arose { IsClient self.now.client }
        ensures lacks { IfErr result (LacksFrame self.now) }
    {
        // What holds of every client, its limits say.
        let _known = self.client.limits();
        Ok(self.client.commit_frame(alloc)?)
    }

    /// The commit of the open transaction, which is committing then, or of the one that is.
    fn commit_frame(&mut self, alloc: Global) -> Result<Frame, ClientFault>
        ensures ok { IfOk result (λ frame. FinishesOrAgain self.old.client frame self.new.client) }
        ensures says { IfOk result (SaysCommit self.new.client) }
        ensures err { IfErr result (λ fault. RefusesFrame self.old.client fault self.new.client) }
        ensures rest { self.new ≡ with_client self.old self.new.client }
    {
        if !self.is_committing() {
            return self.client.finish(alloc);
        }
        let Some(frame) = self.client.commit_again(alloc)? else {
            unreachable!()
        };
        Ok(frame)
    }

    /// Makes the open transaction commit by that frame, unless it is committing already.
    fn finish_by(&mut self, frame: &Frame) -> Result<(), ClientFault>
        requires says { self.old.client.stage ≢ Idle → SaysCommit self.old.client frame.now }
        ensures ok { OnOk result (FinishesOrAgain self.old.client frame.now self.new.client) }
        ensures says { OnOk result (SaysCommit self.new.client frame.now) }
        ensures err { IfErr result (λ fault. RefusesFrame self.old.client fault self.new.client) }
        ensures rest { self.new ≡ with_client self.old self.new.client }
    {
        if self.is_committing() {
            return Ok(());
        }
        self.client.finish_with(frame)
    }

    /// Hands the frame in, with the pages as reads that the transaction locked.
    fn hand_frame_in(
        &mut self,
        alloc: Global,
        frame: Frame,
        station: &mut Station,
        known: bool,
    ) -> Result<CommitNo, OfficeFault>
        requires { IsKnown known station.old self.old.hand }
        ensures hands { HandsFrameIn self.old station.old frame result self.new station.new }
        ensures arose { IsClient self.old.client }
    {
        // What holds of every client, its limits say.
        let _known = self.client.limits();
        let reads = self.client.locked();
        let refused = match station.commit_if_known(alloc, frame, reads, &mut self.hand, known) {
            Ok(number) => return Ok(number),
            Err(refused) => refused,
        };
        Err(fault_of(refused))
    }
}

/// The fault of a refused commit. The frame is dropped, since the client can make it again.
fn fault_of(refused: (OfficeFault, Frame)) -> OfficeFault
    ensures { result ≡ refused.0 }
{
    refused.0
}
