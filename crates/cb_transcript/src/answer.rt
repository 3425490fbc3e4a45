ghost use Rattle.std.specs.Prelude.{◌≡◌, ◌<◌, List, [], ◌∷◌, length, Some, IfOk, IfSome, OnErr};
ghost use Rattle.cb_transcript.specs.Answers.{IsBytes, TakesMemory};

use crate::Event;
use crate::refusal::Refusal;
use cb_frame::Kind;
use cb_page::{ClientNo, CommitNo, Page};
use std::alloc::{AllocError, Global};
use std::marker::Model;

/// The answer to an event, apart from the packets sent.
#[derive(Debug, Drop)]
pub enum AnswerWord {
    /// A call, a restart or a resend was accepted.
    Ok,
    /// A read or a peek found these bytes.
    Bytes(Page),
    /// A read or a want asked the server.
    Asked,
    /// A want was permitted at once.
    Permitted,
    /// A peek found no bytes, or a flush had nothing to flush.
    Nothing,
    /// A flush up to this commit.
    Flushed(CommitNo),
    /// A packet was taken, even if its addressee ignored it.
    Taken,
    /// No packet of that number was sent yet.
    NoPacket,
    /// The client refused, or a restart has no next incarnation.
    Refused(Refusal),
    /// The server has no number left for what the packet asks.
    ServerExhausted,
    /// There is no such client.
    NoClient,
}

impl AnswerWord {
    /// The same word. It fails only if there is no memory for the bytes of a read.
    pub fn copy(&self, alloc: Global) -> Result<AnswerWord, AllocError>
        ensures same { IfOk result (λ word. word ≡ self.now) }
        ensures fails { OnErr result (IsBytes self.now) }
    {
        Ok(match self {
            AnswerWord::Ok => AnswerWord::Ok,
            AnswerWord::Bytes(bytes) => AnswerWord::Bytes(Page::copy_of(alloc, bytes.as_slice())?),
            AnswerWord::Asked => AnswerWord::Asked,
            AnswerWord::Permitted => AnswerWord::Permitted,
            AnswerWord::Nothing => AnswerWord::Nothing,
            AnswerWord::Flushed(number) => AnswerWord::Flushed(*number),
            AnswerWord::Taken => AnswerWord::Taken,
            AnswerWord::NoPacket => AnswerWord::NoPacket,
            AnswerWord::Refused(fault) => AnswerWord::Refused(*fault),
            AnswerWord::ServerExhausted => AnswerWord::ServerExhausted,
            AnswerWord::NoClient => AnswerWord::NoClient,
        })
    }
}

/// A packet that an event sent.
#[derive(Clone, Copy, Debug, PartialEq, Eq)]
pub struct SentPacket {
    /// Its place among all packets ever sent, from 0.
    pub number: u64,
    pub kind: Kind,
    /// The client that it comes from or goes to.
    pub client: ClientNo,
}

/// The packets that an event sent, in order.
#[derive(Debug)]
pub struct SentPackets {
    list: Vec<SentPacket>,
}

// By hand: see docs/PROVING.md, "Drops".
impl Drop for SentPackets {
    fn drop(self) {
        let SentPackets { list: _ } = self;
    }
}

impl Model for SentPackets {
    ghost use Rattle.std.specs.Prelude.{List};
    ghost use Rattle.cb_transcript.specs.declared.answer.SentPacket.{SentPacket};

    ghost Value = { List SentPacket };

    ghost view = { λ s. s.list.items };
}

impl SentPackets {
    /// No packet.
    pub fn none(alloc: Global) -> SentPackets
        ensures { result ≡ [] }
    {
        SentPackets {
            list: Vec::new(alloc),
        }
    }

    /// One packet. `AllocError` only if memory was refused.
    pub fn one(alloc: Global, sent: SentPacket) -> Result<SentPackets, AllocError>
        ensures { IfOk result (λ s. s ≡ sent ∷ []) }
    {
        let mut list = Vec::new(alloc);
        list.push(sent)?;
        Ok(SentPackets { list })
    }

    /// These packets, in order.
    pub fn from_vec(list: Vec<SentPacket>) -> SentPackets
        ensures { result ≡ list.items }
    {
        SentPackets { list }
    }

    pub fn as_slice(&self) -> &[SentPacket]
        ensures { result.now ≡ self.now }
    {
        self.list.as_slice()
    }

    /// The same packets. No packet takes no memory.
    pub fn copy(&self, alloc: Global) -> Result<SentPackets, AllocError>
        ensures same { IfOk result (λ sent. sent ≡ self.now) }
        ensures fails { OnErr result (0 < length self.now) }
    {
        if self.list.is_empty() {
            return Ok(SentPackets::none(alloc));
        }
        Ok(SentPackets {
            list: Vec::from_slice(alloc, self.list.as_slice())?,
        })
    }
}

/// What became of an event: its answer, and the packets that it sent.
#[derive(Debug, Drop)]
pub struct Answer {
    pub word: AnswerWord,
    pub sent: SentPackets,
}

impl Answer {
    /// An answer that sends nothing.
    pub fn silent(alloc: Global, word: AnswerWord) -> Answer
        ensures { result ≡ record { word = word; sent = [] } }
    {
        Answer {
            word,
            sent: SentPackets::none(alloc),
        }
    }

    /// The same answer. It fails only if there is no memory for its bytes or its packets.
    pub fn copy(&self, alloc: Global) -> Result<Answer, AllocError>
        ensures same { IfOk result (λ answer. answer ≡ self.now) }
        ensures fails { OnErr result (TakesMemory self.now) }
    {
        Ok(Answer {
            word: self.word.copy(alloc)?,
            sent: self.sent.copy(alloc)?,
        })
    }
}

/// An event and what became of it.
#[derive(Debug, Drop)]
pub struct TranscriptEntry {
    pub event: Event,
    pub answer: Answer,
}

/// The law of packets sent: none are none, and a copy of one shows it.
fn sent_law(alloc: Global, sent: SentPacket) -> Result<(usize, Option<SentPacket>), AllocError>
    ensures { IfOk result (λ shown. shown ≡ (0, Some sent)) }
{
    let none = SentPackets::none(alloc);
    let one = SentPackets::one(alloc, sent)?.copy(alloc)?;
    let first = match one.as_slice() {
        [first, ..] => Some(*first),
        [] => None,
    };
    Ok((none.as_slice().len(), first))
}

/// The law of copies: a word without page bytes needs no memory, and an answer's copy is the same.
fn copy_law(
    alloc: Global,
    number: CommitNo,
    answer: &Answer,
) -> (Option<AnswerWord>, Option<Answer>)
    ensures word { result.0 ≡ Some (AnswerWord.Flushed number) }
    ensures answer { IfSome result.1 (λ copy. copy ≡ answer.now) }
{
    (
        AnswerWord::Flushed(number).copy(alloc).ok(),
        answer.copy(alloc).ok(),
    )
}
