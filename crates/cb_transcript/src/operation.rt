//! The operations that a transcript tells of.
ghost use Rattle.std.specs.Prelude.{◌≡◌, is_some, option_map};
ghost use Rattle.cb_transcript.specs.Operations.{call_operation, operation_in};

use crate::answer::{AnswerWord, TranscriptEntry};
use crate::{Call, Event};
use cb_page::ClientNo;

/// The client whose operation the event is, if it is one: a read that was answered with bytes, or a
/// write that was accepted.
pub(crate) fn performer(entry: &TranscriptEntry) -> Option<ClientNo>
    ensures { result
        ≡ option_map (λ done. done.0) (operation_in entry.now.event entry.now.answer.word) }
{
    match &entry.event {
        Event::Call { client, call } => {
            if is_operation(call, &entry.answer.word) {
                Some(*client)
            } else {
                None
            }
        }
        _ => None,
    }
}

/// Whether a call that was answered so is an operation.
fn is_operation(call: &Call, word: &AnswerWord) -> bool
    ensures { result ≡ is_some (call_operation call.now word.now) }
{
    match call {
        Call::Read { .. } => matches!(word, AnswerWord::Bytes(_)),
        Call::Write { .. } => matches!(word, AnswerWord::Ok),
        _ => false,
    }
}
