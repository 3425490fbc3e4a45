//! Why a shelf refuses.
ghost use Rattle.std.specs.Prelude.{◌≡◌};
ghost use Rattle.cb_shelf.specs.Faults.{fault_of};

use sqlite::{Error as SqlError, ErrorCode};
use std::alloc::{AllocError, AllocFailed};
use std::fmt;
use thiserror::Error;

/// Why a shelf refuses a call. The text is the fault's number and name.
#[derive(Clone, Copy, Debug, PartialEq, Eq, Error)]
pub enum ShelfFault {
    /// The tables, or the pages of a batch, aren't of a store of these limits.
    Shape,
    /// The database refused for another cause.
    Store,
    /// Memory was refused.
    Memory,
}

impl fmt::Display for ShelfFault {
    ghost use Rattle.std.specs.Prelude.{Some};
    ghost use Rattle.cb_shelf.specs.FaultTexts.{fault_text};

    ghost output = { λ fault. Some (fault_text fault) };

    fn fmt<W: fmt::Write>(&self, f: &mut fmt::Formatter<W>) -> fmt::Result {
        let text = match self {
            ShelfFault::Shape => "1 Shape",
            ShelfFault::Store => "2 Store",
            ShelfFault::Memory => "3 Memory",
        };
        write!(f, "{text}")
    }
}

/// What a refusal of the database is to the shelf.
fn fault_of(error: SqlError) -> ShelfFault
    ensures { result ≡ fault_of error }
{
    match error {
        SqlError::SqliteFailure(ErrorCode::OutOfMemory) => ShelfFault::Memory,
        _ => ShelfFault::Store,
    }
}

impl From<SqlError> for ShelfFault {
    ghost use Rattle.std.specs.Prelude.{◌≡◌};
    ghost use Rattle.cb_shelf.specs.Faults.{fault_of};

    ghost from_gives = { λ error fault. fault ≡ fault_of error };

    fn from(error: SqlError) -> ShelfFault {
        fault_of(error)
    }
}

impl From<AllocError> for ShelfFault {
    ghost use Rattle.std.specs.Prelude.{◌≡◌};
    ghost use Rattle.cb_shelf.specs.declared.fault.ShelfFault.TheVariants.{Memory};

    ghost from_gives = { λ _ fault. fault ≡ Memory };

    fn from(_: AllocError) -> ShelfFault {
        ShelfFault::Memory
    }
}

impl<T: Drop> From<AllocFailed<T>> for ShelfFault {
    ghost use Rattle.std.specs.Prelude.{◌≡◌};
    ghost use Rattle.cb_shelf.specs.declared.fault.ShelfFault.TheVariants.{Memory};

    ghost from_gives = { λ _ fault. fault ≡ Memory };

    fn from(_: AllocFailed<T>) -> ShelfFault {
        ShelfFault::Memory
    }
}
