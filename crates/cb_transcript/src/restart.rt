//! The answer to a restart of the server.
ghost use Rattle.std.specs.Prelude.{Some};
ghost use Rattle.cb_transcript.specs.RefusalTexts.{restart_refusal_text};

use cb_page::Incarnation;
use std::fmt;
use thiserror::Error;

/// Why a server isn't restarted; nothing changed then. The text is the refusal's number and name.
/// If both apply, the lower number is told.
#[derive(Clone, Copy, Debug, PartialEq, Eq, Error)]
pub enum RestartRefusal {
    /// The floor isn't above the present one and above each incarnation that the server admitted.
    Floor,
    /// The disk can't have the commits up to this number: fewer than the server was told of, or
    /// more than it made.
    Number,
}

impl fmt::Display for RestartRefusal {
    ghost output = { λ refusal. Some (restart_refusal_text refusal) };

    fn fmt<W: fmt::Write>(&self, f: &mut fmt::Formatter<W>) -> fmt::Result {
        let text = match self {
            RestartRefusal::Floor => "1 Floor",
            RestartRefusal::Number => "2 Number",
        };
        write!(f, "{text}")
    }
}

/// The answer to a restart of the server.
#[derive(Clone, Copy, Debug, PartialEq, Eq)]
pub enum RestartAnswer {
    Restarted,
    Refused(RestartRefusal),
}

/// A restart of the server, with the floor and the commit number that were asked for.
#[derive(Clone, Copy, Debug, PartialEq, Eq)]
pub struct RestartEntry {
    pub floor: Incarnation,
    pub number: u64,
    pub answer: RestartAnswer,
}
