//! Where a client stands: with its transaction, its ask, and its last outcome.
ghost use Rattle.std.specs.Prelude.{◌≡◌};
ghost use Rattle.cb_client_core.specs.ClientState.{ask_of, stage_of};
ghost use Rattle.cb_protocol.specs.Cache.{is_open};
ghost use Rattle.cb_protocol.specs.Client.{is_asking};

use cb_page::{CommitNo, PageNo};

/// Where the transaction is.
#[derive(Clone, Copy, Debug, PartialEq, Eq)]
pub enum Stage {
    /// There is none.
    Idle,
    /// It is open.
    Open,
    /// Its commit is out.
    Committing,
}

impl Stage {
    /// Whether the transaction is open.
    pub fn is_open(self) -> bool
        ensures { result ≡ is_open (stage_of self) }
    {
        match self {
            Stage::Open => true,
            Stage::Idle | Stage::Committing => false,
        }
    }
}

/// The ask that has no answer yet.
#[derive(Clone, Copy, Debug, PartialEq, Eq)]
pub enum PendingAsk {
    /// None is.
    Nothing,
    /// To read this page.
    Read(PageNo),
    /// To write this page.
    Write(PageNo),
}

impl PendingAsk {
    /// Whether there is one.
    pub fn is_out(self) -> bool
        ensures { result ≡ is_asking (ask_of self) }
    {
        match self {
            PendingAsk::Nothing => false,
            PendingAsk::Read(_) | PendingAsk::Write(_) => true,
        }
    }
}

/// How a transaction ended.
#[derive(Clone, Copy, Debug, PartialEq, Eq)]
pub enum Outcome {
    /// By a commit of this number.
    Committed(CommitNo),
    /// By its client's `drop_txn`.
    Dropped,
    /// By the server, as the victim of a deadlock.
    Aborted,
}

/// What a client reports about itself.
#[derive(Clone, Copy, Debug, PartialEq, Eq)]
pub enum ClientStatus {
    /// The server's Welcome has not come.
    NotWelcome,
    /// There is no transaction.
    Idle,
    /// A transaction is open, and waits for nothing.
    Open,
    /// A transaction is open, and an ask is out.
    Waiting,
    /// A commit is out.
    Committing,
}
