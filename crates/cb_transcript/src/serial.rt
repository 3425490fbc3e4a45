//! The serial check.
ghost use Rattle.std.specs.Prelude.{◌≡◌, IfOk, ◌↔◌};
ghost use Rattle.cb_transcript.specs.Operations.{AreDone, listed};
ghost use Rattle.cb_transcript.specs.Replays.{HasEveryPage, IsPlayedTo};
ghost use Rattle.cb_transcript.specs.declared.transactions.TransactionKey.{TransactionKey as KeyData};
ghost use Rattle.cb_transcript.specs.Verdicts.{NamesFirst};
ghost use Rattle.cb_transcript.specs.Transcripts.{IsSerialOnOpening};
ghost use Rattle.cb_transcript.specs.declared.serial.Verdict.TheVariants as verdict;

use crate::answer::TranscriptEntry;
use crate::replay::Replay;
use crate::transactions::{TransactionKey, Transactions, transactions_of};
use crate::transcript::{TransactionName, Transcript};
use std::alloc::{AllocError, Global};

/// Whether the committed transactions are serial.
#[derive(Clone, Copy, Debug, PartialEq, Eq)]
pub enum Verdict {
    Serial,
    /// The first operation that a serial page store would not answer so: its place in its
    /// transaction, and the transaction's in commit order, each from 1.
    Not { commit: u64, op: u64 },
}

/// Whether the committed transactions of a transcript, in commit order, are a serial history on its
/// opening store. Their operations are those that the events and their answers tell. `Serial`
/// exactly if they are, otherwise the first operation that isn't legal. `AllocError` only if memory
/// was refused. It costs a walk over the events, and one over the operations of the transactions.
pub fn check_serial(alloc: Global, transcript: &Transcript) -> Result<Verdict, AllocError>
    ensures serial { IfOk result (λ v. (v ≡ verdict.Serial) ↔ IsSerialOnOpening transcript.now) }
    ensures first { IfOk result (NamesFirst transcript.now) }
{
    let entries = transcript.entries();
    let commits = transcript.commits();
    let transactions = transactions_of(alloc, entries)?;
    let mut store = Replay::new(alloc, transcript.opening())?;
    for place in 0..commits.len() {
        if let Some(op) = play_named(&mut store, entries, &transactions, commits[place]) {
            return Ok(Verdict::Not {
                commit: place as u64 + 1,
                op: op as u64 + 1,
            });
        }
    }
    Ok(Verdict::Serial)
}

/// Does the operations of that transaction.
fn play_named<'a>(
    store: &mut Replay<'a>,
    entries: &'a [TranscriptEntry],
    transactions: &Transactions,
    name: TransactionName,
) -> Option<usize>
    requires pages { HasEveryPage store.old }
    requires places { (key : KeyData) → AreDone entries.now (listed transactions.now key) }
    ensures played { IsPlayedTo entries.now store.old (listed transactions.now (record {
      client = name.client;
      incarnation = name.incarnation;
      txn = name.txn;
    })) store.new result }
    ensures pages { HasEveryPage store.new }
{
    let key = TransactionKey {
        client: name.client.get(),
        incarnation: name.incarnation.get(),
        txn: name.txn.get(),
    };
    match transactions.get(&key) {
        Some(places) => store.play(entries, places.as_slice()),
        None => None,
    }
}
