//! Why a worker's call is refused.
ghost use Rattle.std.specs.Prelude.{◌≡◌};
ghost use Rattle.cb_client.specs.declared.client_fault.ClientFault.TheVariants.{Memory};
ghost use Rattle.cb_worker.specs.declared.worker_fault.WorkerFault.TheVariants as worker;

use cb_client::ClientFault;
use cb_station::OfficeFault;
use std::alloc::AllocError;
use std::fmt;
use thiserror::Error;

/// Why a call is refused. The text is the fault's number and name.
#[derive(Clone, Copy, Debug, PartialEq, Eq, Error)]
pub enum WorkerFault {
    /// Its client refused the call.
    Client(ClientFault),
    /// The station did.
    Office(OfficeFault),
    /// The office was halted.
    Halted,
}

impl fmt::Display for WorkerFault {
    ghost use Rattle.std.specs.Prelude.{Some};
    ghost use Rattle.cb_worker.specs.FaultTexts.{fault_text};

    ghost output = { λ fault. Some (fault_text fault) };

    fn fmt<W: fmt::Write>(&self, f: &mut fmt::Formatter<W>) -> fmt::Result {
        let text = match self {
            WorkerFault::Client(_) => "1 Client",
            WorkerFault::Office(_) => "2 Office",
            WorkerFault::Halted => "3 Halted",
        };
        write!(f, "{text}")
    }
}

impl From<ClientFault> for WorkerFault {
    ghost from_gives = { λ fault e. e ≡ worker.Client fault };

    fn from(fault: ClientFault) -> WorkerFault {
        WorkerFault::Client(fault)
    }
}

impl From<OfficeFault> for WorkerFault {
    ghost from_gives = { λ fault e. e ≡ worker.Office fault };

    fn from(fault: OfficeFault) -> WorkerFault {
        WorkerFault::Office(fault)
    }
}

impl From<AllocError> for WorkerFault {
    ghost from_gives = { λ _ e. e ≡ worker.Client Memory };

    fn from(_e: AllocError) -> WorkerFault {
        WorkerFault::Client(ClientFault::Memory)
    }
}
