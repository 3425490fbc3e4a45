//! In which transaction each client is.
ghost use Rattle.std.specs.Prelude.{◌≡◌, ◌∷◌, ◌<◌, ◌^◌, ℕ, List, slice_index_or};
ghost use Rattle.cb_transcript.specs.Operations.{AreStandings, first_standing};
ghost use Rattle.cb_transcript.specs.ProtocolEvents.{entry_of};
ghost use Rattle.cb_protocol.specs.World.{TranscriptEntry as ToldEntry};

use crate::answer::{AnswerWord, TranscriptEntry};
use crate::{Call, Event};

/// A client's number is below this.
pub(crate) const CLIENT_NUMBERS: usize = 32;

/// A client's incarnation, and how many transactions it began in it.
#[derive(Clone, Copy)]
pub(crate) struct CurrentTransaction {
    pub(crate) incarnation: u64,
    pub(crate) begun: u64,
}

impl CurrentTransaction {
    /// Before any event.
    pub(crate) fn first() -> CurrentTransaction
        ensures { result ≡ first_standing }
    {
        CurrentTransaction {
            incarnation: 1,
            begun: 0,
        }
    }
}

/// Follows an event: a restart is a client's next incarnation, and a begin its next transaction.
pub(crate) fn follow(standings: &mut [CurrentTransaction; CLIENT_NUMBERS], entry: &TranscriptEntry)
    requires incarnations { (client : ℕ) → client < 32
        → (slice_index_or standings.old client first_standing).incarnation < 2 ^ 63 }
    requires transactions { (client : ℕ) → client < 32
        → (slice_index_or standings.old client first_standing).begun < 2 ^ 63 }
    ensures { (told : List ToldEntry) → AreStandings standings.old told
        → AreStandings standings.new (entry_of entry.now ∷ told) }
{
    let accepted = matches!(entry.answer.word, AnswerWord::Ok);
    if !accepted {
        return;
    }
    match &entry.event {
        Event::Restart { client } => {
            let incarnation = standings[client.index()].incarnation + 1;
            standings[client.index()] = CurrentTransaction {
                incarnation,
                begun: 0,
            };
        }
        Event::Call { client, call } => {
            if matches!(call, Call::Begin) {
                standings[client.index()].begun += 1;
            }
        }
        _ => {}
    }
}
