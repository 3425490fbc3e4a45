ghost use Rattle.std.specs.Prelude.{◌≡◌, ℕ, ◌<◌, Some, None, false, length, replicate, IfOk};
ghost use Rattle.cb_links.specs.Admissions.{admission_of, standing_of, IsLater, IsNewer};
ghost use Rattle.cb_links.specs.Changes.{Becomes, begun, commit_of, doomed, doomed_transaction};
ghost use Rattle.cb_links.specs.Changes.{ended, ended_transaction, greeted, is_live};
ghost use Rattle.cb_links.specs.Changes.{is_live_transaction, session_of, txn_of, unknown};
ghost use Rattle.cb_links.specs.Changes.{with_transaction};

use cb_page::{ClientNo, CommitNo, Incarnation, Limits, TxnNo};
use std::alloc::{AllocError, Global};
use std::marker::Model;

/// How a frame's incarnation compares with the current one.
#[derive(Clone, Copy, Debug, PartialEq, Eq)]
pub enum Admission {
    /// The client has restarted since: the frame is ignored.
    Stale,
    /// The incarnation that the server knows.
    Current,
    /// The server hasn't heard of it, or of none of the client's.
    Unknown,
}

/// How a transaction of a client's current incarnation stands at the server.
#[derive(Clone, Copy, Debug, PartialEq, Eq)]
pub enum Standing {
    /// It has ended, or a later one has begun.
    Ended,
    /// It is the current one, and the victim of a deadlock.
    Doomed,
    /// It is the current one.
    Live,
    /// The server hasn't heard of it.
    Later,
}

/// The last transaction of an incarnation that the server heard of.
#[derive(Clone, Copy)]
pub enum Transaction {
    NotBegun,
    /// It has begun and not ended. A doomed one is the victim of a deadlock: its client is told to
    /// abort it, and it ends as it drops it.
    Live {
        txn: TxnNo,
        is_doomed: bool,
    },
    /// It has ended: by this commit, or without one as dropped.
    Ended {
        txn: TxnNo,
        commit: Option<CommitNo>,
    },
}

impl Transaction {
    /// Its number; `None` if none has begun.
    pub fn txn(self) -> Option<TxnNo>
        ensures { result ≡ txn_of self }
    {
        match self {
            Transaction::NotBegun => None,
            Transaction::Live { txn, .. } | Transaction::Ended { txn, .. } => Some(txn),
        }
    }

    /// The commit by which it ended; `None` if it lives or was dropped.
    pub fn commit(self) -> Option<CommitNo>
        ensures { result ≡ commit_of self }
    {
        match self {
            Transaction::Ended { commit, .. } => commit,
            Transaction::NotBegun | Transaction::Live { .. } => None,
        }
    }

    /// Whether it has begun and not ended.
    pub fn is_live(self) -> bool
        ensures { result ≡ is_live_transaction self }
    {
        match self {
            Transaction::Live { .. } => true,
            Transaction::NotBegun | Transaction::Ended { .. } => false,
        }
    }

    /// What another transaction of the incarnation is beside this one.
    fn standing(self, txn: TxnNo) -> Standing
        ensures { result ≡ standing_of self txn }
    {
        match self {
            Transaction::NotBegun => Standing::Later,
            Transaction::Live {
                txn: current,
                is_doomed,
            } => {
                if txn < current {
                    Standing::Ended
                } else if current < txn {
                    Standing::Later
                } else if is_doomed {
                    Standing::Doomed
                } else {
                    Standing::Live
                }
            }
            Transaction::Ended { txn: last, .. } => {
                if last < txn {
                    Standing::Later
                } else {
                    Standing::Ended
                }
            }
        }
    }

    /// The live transaction as the victim of a deadlock.
    fn doomed(self) -> Transaction
        ensures { result ≡ doomed_transaction self }
    {
        match self {
            Transaction::Live { txn, .. } => Transaction::Live {
                txn,
                is_doomed: true,
            },
            other => other,
        }
    }

    /// The live transaction after its end.
    fn ended(self, commit: Option<CommitNo>) -> Transaction
        ensures { result ≡ ended_transaction self commit }
    {
        match self {
            Transaction::Live { txn, .. } => Transaction::Ended { txn, commit },
            other => other,
        }
    }
}

/// What the server knows of one client.
#[derive(Clone, Copy)]
pub struct Session {
    /// None before the client's first Hello.
    pub incarnation: Option<Incarnation>,
    pub transaction: Transaction,
}

/// The session of each client. Only `new` takes memory.
pub struct Sessions {
    sessions: Vec<Session>,
}

// By hand: see docs/PROVING.md, "Drops".
impl Drop for Sessions {
    fn drop(self) {
        let Sessions { sessions: _ } = self;
    }
}

impl Model for Sessions {
    ghost use Rattle.std.specs.Prelude.{List};
    ghost use Rattle.cb_links.specs.declared.sessions.Session.{Session};

    ghost Value = { List Session };

    ghost view = { λ s. s.sessions.items };
}

impl Sessions {
    /// No client of these limits has greeted the server.
    ///
    /// `AllocError` only if memory was refused.
    pub fn new(alloc: Global, limits: &Limits) -> Result<Sessions, AllocError>
        ensures { IfOk result (λ s. s ≡ replicate limits.now.clients unknown) }
    {
        let unknown = Session {
            incarnation: None,
            transaction: Transaction::NotBegun,
        };
        let sessions = vec![in alloc; unknown; usize::from(limits.clients())]?;
        Ok(Sessions { sessions })
    }

    /// What the server knows of a client.
    pub fn session(&self, client: ClientNo) -> Session
        requires { client < length self.now }
        ensures { result ≡ session_of self.now client }
    {
        self.sessions[client.index()]
    }

    /// How an incarnation compares with the client's current one: `Stale` if it is less, `Unknown`
    /// if it is greater or there is no current one.
    pub fn admit(&self, client: ClientNo, incarnation: Incarnation) -> Admission
        requires { client < length self.now }
        ensures { result ≡ admission_of (session_of self.now client).incarnation incarnation }
    {
        match self.session(client).incarnation {
            None => Admission::Unknown,
            Some(current) => {
                if incarnation < current {
                    Admission::Stale
                } else if incarnation == current {
                    Admission::Current
                } else {
                    Admission::Unknown
                }
            }
        }
    }

    /// How a transaction of the client's current incarnation stands at the server.
    pub fn standing(&self, client: ClientNo, txn: TxnNo) -> Standing
        requires { client < length self.now }
        ensures { result ≡ standing_of (session_of self.now client).transaction txn }
    {
        self.session(client).transaction.standing(txn)
    }

    /// A Hello came of an incarnation that the server didn't know: it becomes the current one, with
    /// no transaction.
    pub fn hello(&mut self, client: ClientNo, incarnation: Incarnation)
        requires client { client < length self.old }
        requires newer { IsNewer (session_of self.old client).incarnation incarnation }
        ensures { Becomes self.old client (greeted incarnation) self.new }
    {
        self.sessions[client.index()] = Session {
            incarnation: Some(incarnation),
            transaction: Transaction::NotBegun,
        };
    }

    /// A later transaction begins; the one before it, if it lives, has ended.
    pub fn begin(&mut self, client: ClientNo, txn: TxnNo)
        requires client { client < length self.old }
        requires later { IsLater (session_of self.old client).transaction txn }
        ensures { Becomes self.old client (begun (session_of self.old client) txn) self.new }
    {
        self.put(
            client,
            Transaction::Live {
                txn,
                is_doomed: false,
            },
        );
    }

    /// The live transaction becomes the victim of a deadlock.
    pub fn doom(&mut self, client: ClientNo)
        requires client { client < length self.old }
        requires live { is_live (session_of self.old client) }
        ensures { Becomes self.old client (doomed (session_of self.old client)) self.new }
    {
        self.put(client, self.session(client).transaction.doomed());
    }

    /// The live transaction ends, doomed or not: by a commit, or without one as dropped.
    pub fn end(&mut self, client: ClientNo, commit: Option<CommitNo>)
        requires client { client < length self.old }
        requires live { is_live (session_of self.old client) }
        ensures { Becomes self.old client (ended (session_of self.old client) commit) self.new }
    {
        self.put(client, self.session(client).transaction.ended(commit));
    }

    /// The client's incarnation stays.
    fn put(&mut self, client: ClientNo, transaction: Transaction)
        requires { client < length self.old }
        ensures { Becomes self.old client
            (with_transaction (session_of self.old client) transaction) self.new }
    {
        let session = self.sessions[client.index()];
        self.sessions[client.index()] = Session {
            incarnation: session.incarnation,
            transaction,
        };
    }
}
