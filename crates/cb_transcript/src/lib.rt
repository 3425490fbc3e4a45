//! The events of a world, as schedules spell them or as they are drawn; what became of them; and
//! whether that is serial.
//!
//! An event is a call of a client, a packet that its addressee takes, a client's restart, or an
//! event at the server: it resends, or hears that commits are on disk. [`read_schedule`] reads a
//! list of events from its text, one a line. [`read_lives`] reads one in which the server restarts
//! too. [`split_line`], [`split_word`] and [`number_of`] take any such text apart.
//!
//! A [`Drawing`] takes the words of a PCG generator, and gives one event after another, each for a
//! world in which so many packets were sent so far.
//!
//! A [`Transcript`] lists each event with its [`Answer`], and the transactions that were committed.
//! A [`LivesTranscript`] does so for a server that restarts. [`check_serial`] tells whether the
//! commits of a transcript, whoever made it, are a serial history on its opening store.
#![tactic(auto)]

mod answer;
mod arguments;
mod command;
mod current_transaction;
mod drawing;
mod event;
mod kind;
mod lines;
mod lives_event;
mod lives_text;
mod lives_transcript;
mod operation;
mod pieces;
mod refusal;
mod replay;
mod restart;
mod serial;
mod text;
mod transactions;
mod transcript;

pub use answer::{Answer, AnswerWord, SentPacket, SentPackets, TranscriptEntry};
pub use drawing::Drawing;
pub use event::{Call, Event};
pub use lives_event::LivesEvent;
pub use lives_text::read_lives;
pub use lives_transcript::{LivesEntry, LivesTranscript};
pub use pieces::{is_text, number_of, split_line, split_word};
pub use refusal::Refusal;
pub use restart::{RestartAnswer, RestartEntry, RestartRefusal};
pub use serial::{Verdict, check_serial};
pub use text::{ScheduleFault, read_schedule};
pub use transcript::{TransactionName, Transcript};
