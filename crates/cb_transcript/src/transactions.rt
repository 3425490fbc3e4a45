//! The operations of each transaction of a transcript.
ghost use Rattle.std.specs.Prelude.{◌≡◌, ◌++◌, ◌∷◌, [], ℕ, List, Some, if◌then◌else◌, IfOk, OnOk};
ghost use Rattle.std.specs.Prelude.{slice_get};
ghost use Rattle.cb_protocol.specs.World.{TranscriptEntry as ToldEntry};
ghost use Rattle.cb_transcript.specs.Operations.{AreStandings, HasOperations, listed, same_key};
ghost use Rattle.cb_transcript.specs.ProtocolEvents.{entry_of, transcript_of};
ghost use Rattle.cb_transcript.specs.declared.answer.TranscriptEntry.{TranscriptEntry as EntryData};
ghost use Rattle.cb_transcript.specs.declared.transactions.TransactionKey.{TransactionKey as KeyData};

use crate::answer::TranscriptEntry;
use crate::current_transaction::{CLIENT_NUMBERS, CurrentTransaction, follow};
use crate::operation::performer;
use std::alloc::{AllocError, Global};
use std::collections::HashMap;

/// A transaction's name as the key of a map.
#[derive(Clone, Copy, PartialEq, Eq, Hash)]
pub(crate) struct TransactionKey {
    pub(crate) client: u16,
    pub(crate) incarnation: u64,
    pub(crate) txn: u64,
}

/// The operations of each transaction, by the places of their events, in order.
pub(crate) type Transactions = HashMap<TransactionKey, Vec<usize>>;

/// The operations of each transaction that these events tell of.
pub(crate) fn transactions_of(
    alloc: Global,
    entries: &[TranscriptEntry],
) -> Result<Transactions, AllocError>
    ensures { IfOk result (λ lists. HasOperations lists entries.now (transcript_of entries.now)) }
{
    let mut lists = HashMap::new(alloc);
    let mut standings = [CurrentTransaction::first(); CLIENT_NUMBERS];
    for place in 0..entries.len() {
        list_operation(alloc, &mut lists, &standings, &entries[place], place)?;
        follow(&mut standings, &entries[place]);
    }
    Ok(lists)
}

/// Lists the event at that place, if it is an operation, for the transaction that its client is in.
fn list_operation(
    alloc: Global,
    lists: &mut Transactions,
    standings: &[CurrentTransaction; CLIENT_NUMBERS],
    entry: &TranscriptEntry,
    place: usize,
) -> Result<(), AllocError>
    ensures { OnOk result ((entries : List EntryData) (told : List ToldEntry)
        → slice_get entries place ≡ Some entry.now → AreStandings standings.now told
        → HasOperations lists.old entries told
        → HasOperations lists.new entries (entry_of entry.now ∷ told)) }
{
    let Some(client) = performer(entry) else {
        return Ok(());
    };
    let standing = standings[client.index()];
    let key = TransactionKey {
        client: client.get(),
        incarnation: standing.incarnation,
        txn: standing.begun,
    };
    add(alloc, lists, key, place)
}

/// Adds an operation to those of a transaction.
fn add(
    alloc: Global,
    lists: &mut Transactions,
    key: TransactionKey,
    place: usize,
) -> Result<(), AllocError>
    ensures { OnOk result ((q : KeyData) → listed lists.new q
        ≡ (if same_key key q then listed lists.old q ++ place ∷ [] else listed lists.old q)) }
{
    let mut list = lists.remove(&key).unwrap_or(Vec::new(alloc));
    list.push(place)?;
    lists.insert(key, list)?;
    Ok(())
}
