//! What can be wrong with the bytes of a frame.
ghost use Rattle.std.specs.Prelude.{◌≡◌};
ghost use Rattle.cb_frame.specs.declared.fault.FrameFault.TheVariants.{Memory};

use std::alloc::{AllocError, AllocFailed};
use std::fmt;
use thiserror::Error;

/// What is wrong with the bytes of a frame. The text is the fault's number and name.
#[derive(Clone, Copy, Debug, PartialEq, Eq, Error)]
pub enum FrameFault {
    /// There are fewer bytes than a header has, or than the header says.
    Short,
    /// The version of the format isn't 1 or 2, or it is 1 and pages have more than 4,096 bytes.
    Version,
    /// No kind has this code, or only a later version of the format has it.
    Kind,
    /// A body of the kind can't have this length; or a count or a size within it isn't the one that
    /// the length gives.
    Length,
    /// A number is out of its range.
    Range,
    /// A commit's pages don't rise.
    Order,
    /// A growth was refused.
    Memory,
}

impl fmt::Display for FrameFault {
    ghost use Rattle.std.specs.Prelude.{Some};
    ghost use Rattle.cb_frame.specs.FaultTexts.{frame_text};

    ghost output = { λ fault. Some (frame_text fault) };

    fn fmt<W: fmt::Write>(&self, f: &mut fmt::Formatter<W>) -> fmt::Result {
        let text = match self {
            FrameFault::Short => "1 Short",
            FrameFault::Version => "2 Version",
            FrameFault::Kind => "3 Kind",
            FrameFault::Length => "4 Length",
            FrameFault::Range => "5 Range",
            FrameFault::Order => "6 Order",
            FrameFault::Memory => "7 Memory",
        };
        write!(f, "{text}")
    }
}

impl From<AllocError> for FrameFault {
    ghost from_gives = { λ _ e. e ≡ Memory };

    fn from(_e: AllocError) -> FrameFault {
        FrameFault::Memory
    }
}

/// Why received bytes weren't taken. The text is the fault's number and name.
#[derive(Clone, Copy, Debug, PartialEq, Eq, Error)]
#[error_bound(F: fmt::Display)]
pub enum BytesFault<F> {
    /// They begin with no frame.
    Frame(FrameFault),
    /// The one who takes their frame refused it.
    Taker(F),
}

impl<F: fmt::Display> fmt::Display for BytesFault<F> {
    ghost use Rattle.cb_frame.specs.FaultTexts.{bytes_text};

    ghost output = { bytes_text F.output };

    fn fmt<W: fmt::Write>(&self, f: &mut fmt::Formatter<W>) -> fmt::Result {
        match self {
            BytesFault::Frame(fault) => write!(f, "1 Frame: {fault}"),
            BytesFault::Taker(fault) => write!(f, "2 Taker: {fault}"),
        }
    }
}
