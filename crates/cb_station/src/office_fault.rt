//! Why a station refuses a call.
ghost use Rattle.std.specs.Prelude.{◌≡◌};
ghost use Rattle.cb_station.specs.declared.office_fault.OfficeFault.TheVariants as office;
ghost use Rattle.cb_server.specs.declared.server_fault.ServerFault.TheVariants as server;

use cb_server::ServerFault;
use std::alloc::AllocError;
use std::fmt;
use thiserror::Error;

/// Why a call is refused. Nothing changes then. If several faults apply, the lowest number is
/// returned. The text is the fault's number and name.
#[derive(Clone, Copy, Debug, PartialEq, Eq, Error)]
pub enum OfficeFault {
    /// A frame or client outside the limits, or not the hand's; a frame of a kind that another call
    /// takes; a hand that isn't the one stored.
    Foreign,
    /// A page read without a grant, or written without the permission of that very transaction.
    NotHeld,
    /// The transaction has ended, or is the victim of a deadlock.
    NotLive,
    /// The client has a hand.
    Joined,
    /// The incarnation isn't greater than the hand's.
    Old,
    /// No number is left.
    Exhausted,
    /// A growth was refused.
    Memory,
}

impl fmt::Display for OfficeFault {
    ghost use Rattle.std.specs.Prelude.{Some};
    ghost use Rattle.cb_station.specs.FaultTexts.{fault_text};

    ghost output = { λ fault. Some (fault_text fault) };

    fn fmt<W: fmt::Write>(&self, f: &mut fmt::Formatter<W>) -> fmt::Result {
        let text = match self {
            OfficeFault::Foreign => "1 Foreign",
            OfficeFault::NotHeld => "2 NotHeld",
            OfficeFault::NotLive => "3 NotLive",
            OfficeFault::Joined => "4 Joined",
            OfficeFault::Old => "5 Old",
            OfficeFault::Exhausted => "6 Exhausted",
            OfficeFault::Memory => "7 Memory",
        };
        write!(f, "{text}")
    }
}

impl From<AllocError> for OfficeFault {
    ghost from_gives = { λ _ e. e ≡ office.Memory };

    fn from(_e: AllocError) -> OfficeFault {
        OfficeFault::Memory
    }
}
