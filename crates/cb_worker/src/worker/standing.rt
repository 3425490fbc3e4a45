//! What the client says of its transaction.
ghost use Rattle.std.specs.Prelude.{◌≡◌, ◌≢◌, ◌↔◌, true, IfErr, IfSome, IsSome};
ghost use Rattle.std.specs.Prelude.{IsTrue, None, OkIff, Some};
ghost use Rattle.cb_client_core.specs.ClientState.{outcome_of};
ghost use Rattle.cb_protocol.specs.Client as protocol;
ghost use Rattle.cb_worker.specs.Committing.{IsCommitting};
ghost use Rattle.cb_worker.specs.Waiting.{IsFinished, LacksTransaction, ending_of};
ghost use Rattle.cb_worker.specs.Workers.{Ended, HasTransaction, WasAborted};

use crate::answers::Finished;
use crate::awaited::Came;
use crate::worker::Worker;
use crate::worker_fault::WorkerFault;
use cb_client::{ClientFault, ClientStatus, Outcome};
use cb_twoq::Chooser;

impl<Q: Chooser> Worker<Q> {
    /// Whether the client is welcomed.
    pub(super) fn is_welcomed(&self) -> bool
        ensures { IsTrue result → self.now.client.welcomed ≡ true }
    {
        match self.client.status() {
            ClientStatus::NotWelcome => false,
            _ => true,
        }
    }

    /// Refuses, as the client does, where no transaction is open and none is committing.
    pub(super) fn needs_transaction(&self) -> Result<(), WorkerFault>
        ensures has { OkIff result (HasTransaction self.now) tt }
        ensures lacks { IfErr result (LacksTransaction self.now) }
    {
        match self.client.status() {
            ClientStatus::NotWelcome => Err(WorkerFault::Client(ClientFault::NotWelcome)),
            ClientStatus::Idle => Err(WorkerFault::Client(ClientFault::NoTransaction)),
            _ => Ok(()),
        }
    }

    /// Whether a commit is out.
    pub(super) fn is_committing(&self) -> bool
        ensures { IsTrue result ↔ IsCommitting self.now.client }
    {
        match self.client.status() {
            ClientStatus::Committing => true,
            _ => false,
        }
    }

    /// How the last transaction ended, where the client is welcomed, and that one is over and
    /// wasn't dropped.
    pub(super) fn ended(&self) -> Option<Finished>
        ensures so { IfSome result (IsFinished self.now) }
        ensures welcomed { IsSome result → self.now.client.welcomed ≡ true }
        ensures none { result ≡ None → ¬ WasAborted self.now }
    {
        let ClientStatus::Idle = self.client.status() else {
            return None;
        };
        finished_by(self.client.last()?)
    }

    /// Whether the client is welcomed, and its last transaction is over and was aborted.
    pub(super) fn is_aborted(&self) -> bool
        ensures { IsTrue result ↔ WasAborted self.now }
    {
        match self.ended() {
            Some(Finished::Aborted) => true,
            Some(Finished::Committed(_)) => false,
            None => false,
        }
    }

    /// That the last transaction is over and was aborted, where it was.
    pub(super) fn aborted(&self) -> Option<Came>
        ensures { IfSome result (λ came.
            (came ≡ Came.Ended Finished.Aborted) × Ended self.now protocol.Aborted) }
    {
        if !self.is_aborted() {
            return None;
        }
        Some(Came::Ended(Finished::Aborted))
    }
}

/// How a transaction ended that was not dropped.
fn finished_by(last: Outcome) -> Option<Finished>
    ensures so { IfSome result (λ finished. outcome_of (Some last) ≡ ending_of finished) }
    ensures none { result ≡ None → outcome_of (Some last) ≢ protocol.Aborted }
{
    match last {
        Outcome::Committed(number) => Some(Finished::Committed(number)),
        Outcome::Aborted => Some(Finished::Aborted),
        Outcome::Dropped => None,
    }
}
