//! Why a call of a client is refused.
ghost use Rattle.std.specs.Prelude.{Some};
ghost use Rattle.cb_transcript.specs.RefusalTexts.{refusal_text};

use std::fmt;
use thiserror::Error;

/// Why a client refused a call; nothing changed then. The text is the refusal's number and name.
/// Want of memory isn't among them, since it isn't an answer.
#[derive(Clone, Copy, Debug, PartialEq, Eq, Error)]
pub enum Refusal {
    /// The server's Welcome has not come.
    NotWelcome,
    /// No transaction is open.
    NoTransaction,
    /// A transaction is open, or its commit is out.
    TransactionOpen,
    /// The transaction's commit is out.
    Committing,
    /// An ask is out.
    Waiting,
    /// There is no such page.
    PageRange,
    /// The transaction has not read the page.
    NotRead,
    /// The page's grant is bare: its bytes are not in the pool.
    NotHere,
    /// There is no permission to write the page.
    NotWritable,
    /// The bytes are not as many as a page has.
    WrongLength,
    /// Every page in the pool is fixed.
    PoolFull,
    /// No transaction number is left.
    Exhausted,
}

impl fmt::Display for Refusal {
    ghost output = { λ fault. Some (refusal_text fault) };

    fn fmt<W: fmt::Write>(&self, f: &mut fmt::Formatter<W>) -> fmt::Result {
        let text = match self {
            Refusal::NotWelcome => "1 NotWelcome",
            Refusal::NoTransaction => "2 NoTransaction",
            Refusal::TransactionOpen => "3 TransactionOpen",
            Refusal::Committing => "4 Committing",
            Refusal::Waiting => "5 Waiting",
            Refusal::PageRange => "6 PageRange",
            Refusal::NotRead => "7 NotRead",
            Refusal::NotHere => "8 NotHere",
            Refusal::NotWritable => "9 NotWritable",
            Refusal::WrongLength => "10 WrongLength",
            Refusal::PoolFull => "11 PoolFull",
            Refusal::Exhausted => "12 Exhausted",
        };
        write!(f, "{text}")
    }
}
