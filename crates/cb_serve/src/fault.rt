//! Why serving ends before the end of the input.
ghost use Rattle.std.specs.Prelude.{◌≡◌, Some};
ghost use Rattle.cb_serve.specs.Endings.{becomes_of_server, becomes_of_shelf, line_of, round_line};
ghost use Rattle.cb_serve.specs.Endings.{round_status, status_of};
ghost use Rattle.cb_serve.specs.declared.fault.RoundFault.TheVariants.{Memory};

use crate::calls::RefusedCall;
use cb_server::ServerFault;
use cb_shelf::ShelfFault;
use std::alloc::AllocError;
use std::fmt;
use thiserror::Error;

/// Why a round wasn't finished, or none could begin. The text is the program's line of it.
#[derive(Debug, Drop, Error)]
pub enum RoundFault {
    /// The tables are of another shape.
    Shape,
    /// The database refused.
    Store,
    /// No number is left for a frame.
    Exhausted,
    /// The input couldn't be read: a read was refused.
    Input(RefusedCall),
    /// The output couldn't be written: a write or a flush was refused.
    Output(RefusedCall),
    /// Memory was refused.
    Memory,
}

/// Why serving ended before the end of the input. The text is the program's line of it.
#[derive(Debug, Drop, Error)]
pub enum ServeFault {
    /// The input went on with a header that no frame has.
    NoFrame,
    /// The input ended within a frame.
    Cut,
    /// As many rounds were done as 64 bits can count.
    Endless,
    /// A round wasn't finished.
    Round(RoundFault),
}

impl RoundFault {
    /// The program's status of it.
    pub fn status(&self) -> u8
        ensures { result ≡ round_status self.now }
    {
        match self {
            RoundFault::Shape | RoundFault::Store | RoundFault::Exhausted => 3,
            RoundFault::Input(refusal) => refusal.input_status(),
            RoundFault::Output(_) => 5,
            RoundFault::Memory => 4,
        }
    }
}

impl ServeFault {
    /// The program's status of it.
    pub fn status(&self) -> u8
        ensures { result ≡ status_of self.now }
    {
        match self {
            ServeFault::NoFrame | ServeFault::Cut | ServeFault::Endless => 3,
            ServeFault::Round(fault) => fault.status(),
        }
    }
}

impl fmt::Display for RoundFault {
    ghost output = { λ fault. Some (round_line fault) };

    fn fmt<W: fmt::Write>(&self, f: &mut fmt::Formatter<W>) -> fmt::Result {
        let text = match self {
            RoundFault::Shape => "store: Shape",
            RoundFault::Store => "store: Store",
            RoundFault::Exhausted => "store: Exhausted",
            RoundFault::Input(refusal) => refusal.input_line(),
            RoundFault::Output(_) => "cannot write",
            RoundFault::Memory => "memory",
        };
        write!(f, "{text}")
    }
}

impl fmt::Display for ServeFault {
    ghost output = { λ fault. Some (line_of fault) };

    fn fmt<W: fmt::Write>(&self, f: &mut fmt::Formatter<W>) -> fmt::Result {
        match self {
            ServeFault::NoFrame => write!(f, "input: no frame"),
            ServeFault::Cut => write!(f, "input: frame cut"),
            ServeFault::Endless => write!(f, "input: cannot read"),
            ServeFault::Round(fault) => write!(f, "{fault}"),
        }
    }
}

impl From<AllocError> for RoundFault {
    ghost from_gives = { λ _ e. e ≡ Memory };

    fn from(_e: AllocError) -> RoundFault {
        RoundFault::Memory
    }
}

impl From<ServerFault> for RoundFault {
    ghost from_gives = { λ fault e. e ≡ becomes_of_server fault };

    fn from(fault: ServerFault) -> RoundFault {
        match fault {
            ServerFault::Exhausted => RoundFault::Exhausted,
            ServerFault::Memory => RoundFault::Memory,
        }
    }
}

impl From<ShelfFault> for RoundFault {
    ghost from_gives = { λ fault e. e ≡ becomes_of_shelf fault };

    fn from(fault: ShelfFault) -> RoundFault {
        match fault {
            ShelfFault::Shape => RoundFault::Shape,
            ShelfFault::Store => RoundFault::Store,
            ShelfFault::Memory => RoundFault::Memory,
        }
    }
}
