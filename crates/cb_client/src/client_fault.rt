//! Why a call of a client is refused.
ghost use Rattle.std.specs.Prelude.{◌≡◌};
ghost use Rattle.cb_client.specs.declared.client_fault.ClientFault.TheVariants.{Memory};

use std::alloc::AllocError;
use std::fmt;
use thiserror::Error;

/// Why a call is refused; nothing changes then. The text is the fault's number and name. If several
/// causes apply, the lowest number is returned.
#[derive(Clone, Copy, Debug, PartialEq, Eq, Error)]
pub enum ClientFault {
    /// The server's Welcome has not come.
    NotWelcome,
    /// There is no transaction.
    NoTransaction,
    /// A transaction is open, or its commit is out.
    TransactionOpen,
    /// The transaction's commit is out.
    Committing,
    /// An ask is out.
    Waiting,
    /// There is no such page.
    PageRange,
    /// The transaction has not read the page.
    NotRead,
    /// The page's bytes are not in the pool: its grant is bare.
    NotHere,
    /// There is no permission to write the page.
    NotWritable,
    /// The bytes are not as many as a page has.
    WrongLength,
    /// Every page in the pool is fixed.
    PoolFull,
    /// No transaction number is left.
    Exhausted,
    /// A growth was refused.
    Memory,
}

impl fmt::Display for ClientFault {
    ghost use Rattle.std.specs.Prelude.{Some};
    ghost use Rattle.cb_client.specs.FaultTexts.{fault_text};

    ghost output = { λ fault. Some (fault_text fault) };

    fn fmt<W: fmt::Write>(&self, f: &mut fmt::Formatter<W>) -> fmt::Result {
        let text = match self {
            ClientFault::NotWelcome => "1 NotWelcome",
            ClientFault::NoTransaction => "2 NoTransaction",
            ClientFault::TransactionOpen => "3 TransactionOpen",
            ClientFault::Committing => "4 Committing",
            ClientFault::Waiting => "5 Waiting",
            ClientFault::PageRange => "6 PageRange",
            ClientFault::NotRead => "7 NotRead",
            ClientFault::NotHere => "8 NotHere",
            ClientFault::NotWritable => "9 NotWritable",
            ClientFault::WrongLength => "10 WrongLength",
            ClientFault::PoolFull => "11 PoolFull",
            ClientFault::Exhausted => "12 Exhausted",
            ClientFault::Memory => "13 Memory",
        };
        write!(f, "{text}")
    }
}

impl From<AllocError> for ClientFault {
    ghost from_gives = { λ _ e. e ≡ Memory };

    fn from(_e: AllocError) -> ClientFault {
        ClientFault::Memory
    }
}
