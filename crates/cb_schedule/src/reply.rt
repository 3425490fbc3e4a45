//! What a client answers to a call, and the frames that it says.
ghost use Rattle.std.specs.Prelude.{◌≡◌, [], ◌∷◌, IfOk, None, OnErr, Some};
ghost use Rattle.cb_protocol.specs.Answers.{Refused};
ghost use Rattle.cb_transcript.specs.ProtocolEvents.{fault_of, word_of};
ghost use Rattle.std.specs.Option.{option_map};
ghost use Rattle.cb_client.specs.ByTable.{refusal};

use cb_client::ClientFault;
use cb_frame::Frame;
use cb_transcript::{AnswerWord, Refusal};
use std::alloc::{AllocError, Global};

/// What a client answers to a call, and the frames that it sends, in order.
#[derive(Drop)]
pub struct Reply {
    pub word: AnswerWord,
    pub said: Vec<Frame>,
}

impl Reply {
    /// A word, and no frame.
    pub fn silent(alloc: Global, word: AnswerWord) -> Reply
        ensures word { result.word ≡ word }
        ensures said { result.said.items ≡ [] }
    {
        Reply {
            word,
            said: Vec::new(alloc),
        }
    }

    /// A word, and one frame. `AllocError` only if memory was refused.
    pub(crate) fn one(alloc: Global, word: AnswerWord, frame: Frame) -> Result<Reply, AllocError>
        ensures { IfOk result (λ reply. (reply.word ≡ word) × (reply.said.items ≡ frame ∷ [])) }
    {
        let mut said = Vec::with_capacity(alloc, 1)?;
        said.push_reserved(frame);
        Ok(Reply { word, said })
    }

    /// The call was refused for that reason; `AllocError` if it is want of memory.
    pub(crate) fn refused(alloc: Global, fault: ClientFault) -> Result<Reply, AllocError>
        ensures ok { IfOk result (λ reply. (reply.said.items ≡ [])
            × (Some (word_of reply.word) ≡ option_map Refused (refusal fault))) }
        ensures fails { OnErr result (refusal fault ≡ None) }
    {
        match refusal_of(fault) {
            Some(refusal) => Ok(Reply::silent(alloc, AnswerWord::Refused(refusal))),
            None => Err(AllocError),
        }
    }
}

/// The refusal that a fault is; want of memory is none.
fn refusal_of(fault: ClientFault) -> Option<Refusal>
    ensures { option_map fault_of result ≡ refusal fault }
{
    match fault {
        ClientFault::NotWelcome => Some(Refusal::NotWelcome),
        ClientFault::NoTransaction => Some(Refusal::NoTransaction),
        ClientFault::TransactionOpen => Some(Refusal::TransactionOpen),
        ClientFault::Committing => Some(Refusal::Committing),
        ClientFault::Waiting => Some(Refusal::Waiting),
        ClientFault::PageRange => Some(Refusal::PageRange),
        ClientFault::NotRead => Some(Refusal::NotRead),
        ClientFault::NotHere => Some(Refusal::NotHere),
        ClientFault::NotWritable => Some(Refusal::NotWritable),
        ClientFault::WrongLength => Some(Refusal::WrongLength),
        ClientFault::PoolFull => Some(Refusal::PoolFull),
        ClientFault::Exhausted => Some(Refusal::Exhausted),
        ClientFault::Memory => None,
    }
}
