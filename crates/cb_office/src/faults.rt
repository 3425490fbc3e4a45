//! How a fault ends a run.
ghost use Rattle.std.specs.Prelude.{◌≡◌};
ghost use Rattle.cb_office.specs.Runs.{ending_of_run, ending_of_shelf, ending_of_worker};

use crate::{ClientEnding, EarlyEnding};
use cb_client::ClientFault;
use cb_shelf::ShelfFault;
use cb_station::OfficeFault;
use cb_worker::WorkerFault;

/// The ending of a run by a fault of the flusher or of the tables.
pub fn of_shelf(fault: ShelfFault) -> EarlyEnding
    ensures { result ≡ ending_of_shelf fault }
{
    match fault {
        ShelfFault::Shape => EarlyEnding::Shape,
        ShelfFault::Store => EarlyEnding::Store,
        ShelfFault::Memory => EarlyEnding::Memory,
    }
}

/// By a worker's fault; a halted worker says nothing of why.
pub(crate) fn of_worker(fault: WorkerFault) -> Option<EarlyEnding>
    ensures { result ≡ ending_of_worker fault }
{
    match fault {
        WorkerFault::Halted => None,
        WorkerFault::Client(ClientFault::Memory) => Some(EarlyEnding::Memory),
        WorkerFault::Office(OfficeFault::Memory) => Some(EarlyEnding::Memory),
        WorkerFault::Client(ClientFault::Exhausted) => Some(EarlyEnding::Exhausted),
        WorkerFault::Office(OfficeFault::Exhausted) => Some(EarlyEnding::Exhausted),
        WorkerFault::Client(_) => Some(EarlyEnding::Worker),
        WorkerFault::Office(_) => Some(EarlyEnding::Worker),
    }
}

/// The ending of a run whose threads have all ended: by the flusher's fault, or else by that of the
/// lowest client that told of one. What the flusher ended with is handed on.
pub fn of_run<T: Drop>(
    flushed: Result<T, ShelfFault>,
    told: Option<ClientEnding>,
) -> Result<T, EarlyEnding>
    ensures { result ≡ ending_of_run flushed told }
{
    match (flushed, told) {
        (Err(fault), _) => Err(of_shelf(fault)),
        (Ok(_), Some(told)) => Err(told.ending),
        (Ok(ended), None) => Ok(ended),
    }
}
