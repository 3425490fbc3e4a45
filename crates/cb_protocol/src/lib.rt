//! A page server with callback locking as definitions alone: clients, server, messages and the
//! world of a run, and the laws that hold of them.
//!
//! The crate has no code. The crates of the real client, server and player are proved against its
//! definitions (`specs/`). Each function, here and in the modules below, carries one law in its
//! contract; `docs/PROTOCOL.md` tells the protocol, `docs/PROOF.md` the proof.
#![tactic(auto)]

pub mod alone;
pub mod client;
pub mod deadlock;
pub mod lives;
pub mod marks;
pub mod numbers;
pub mod passes;
pub mod server;

ghost use Rattle.cb_protocol.specs.Laws.{CommittedAlwaysSerial, CopiesAlwaysAgree};
ghost use Rattle.cb_protocol.specs.Laws.{CopiesAlwaysBacked, DirectoryAlwaysKept};
ghost use Rattle.cb_protocol.specs.Laws.{DonesAlwaysNameCommits, DonesAlwaysOnDisk};
ghost use Rattle.cb_protocol.specs.Laws.{EachCommitsOnce, RulesHoldUnderAnyMessages, WholePromise};
ghost use Rattle.cb_protocol.specs.Laws.{WriterAlwaysAlone};

/// At every moment all the laws below hold. They hold whatever is called, sent, lost, repeated or
/// reordered, whichever clients restart, and whichever pages are let go; with kept write permission
/// and without it; and whoever is picked as the victim of a deadlock.
pub fn callback_read()
    ensures promise { WholePromise }
{}

/// At every moment two readable copies of one page have the same bytes, even while their clients
/// commit.
pub fn readable_copies_agree()
    ensures law { CopiesAlwaysAgree }
{}

/// At every moment, while a client may write a page, no other client has a readable copy of it.
pub fn writer_is_alone()
    ensures law { WriterAlwaysAlone }
{}

/// At every moment the answered reads and writes of the committed transactions are a serial
/// history: one transaction after another, in commit order, they are what a serial page store would
/// answer, and they leave the server's store. This includes a commit that was applied after its
/// client restarted.
pub fn committed_transactions_are_serial()
    ensures law { CommittedAlwaysSerial }
{}

/// No transaction is applied twice, however often its Commit is sent or taken.
pub fn each_transaction_commits_once()
    ensures law { EachCommitsOnce }
{}

/// Each Done that was ever sent names a transaction that was applied, and the number of its commit,
/// which is on disk.
pub fn each_done_names_its_commit()
    ensures law { DonesAlwaysNameCommits }
    ensures on_disk { DonesAlwaysOnDisk }
{}

/// At every moment each grant that a client holds has its row at the server and was never given
/// back, each client that may write is the write holder, and each copy that its client did not
/// write has the store's version and bytes. A page with a write holder has rows of no other client.
pub fn copies_are_backed_by_rows()
    ensures law { CopiesAlwaysBacked }
    ensures directory { DirectoryAlwaysKept }
{}

/// The server alone keeps these rules, whatever messages come, from honest clients or not. If a
/// page has a write holder, no other client has a row of it. No two rows have the same grant.
/// Commits are numbered one by one, and the store is the opening store with them written over it.
pub fn rules_hold_under_any_messages()
    ensures law { RulesHoldUnderAnyMessages }
{}
