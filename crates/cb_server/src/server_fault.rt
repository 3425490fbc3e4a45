//! Why a frame isn't taken.
ghost use Rattle.std.specs.Prelude.{◌≡◌};
ghost use Rattle.cb_server.specs.declared.server_fault.ServerFault.TheVariants.{Memory};

use std::alloc::AllocError;
use std::fmt;
use thiserror::Error;

/// Why a frame is refused; nothing changes then. The text is the fault's number and name.
#[derive(Clone, Copy, Debug, PartialEq, Eq, Error)]
pub enum ServerFault {
    /// No grant number is left for an ask to read beyond one for each that waits, or no commit
    /// number for a commit.
    Exhausted,
    /// A growth was refused.
    Memory,
}

impl fmt::Display for ServerFault {
    ghost use Rattle.std.specs.Prelude.{Some};
    ghost use Rattle.cb_server.specs.FaultTexts.{fault_text};

    ghost output = { λ fault. Some (fault_text fault) };

    fn fmt<W: fmt::Write>(&self, f: &mut fmt::Formatter<W>) -> fmt::Result {
        let text = match self {
            ServerFault::Exhausted => "1 Exhausted",
            ServerFault::Memory => "2 Memory",
        };
        write!(f, "{text}")
    }
}

impl From<AllocError> for ServerFault {
    ghost from_gives = { λ _ e. e ≡ Memory };

    fn from(_e: AllocError) -> ServerFault {
        ServerFault::Memory
    }
}
