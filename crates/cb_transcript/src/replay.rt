//! A store under replay: what a serial page store would show.
ghost use Rattle.std.specs.Prelude.{◌≡◌, ◌↔◌, IsTrue, IfOk, Some};
ghost use Rattle.cb_commit.specs.Stores.{bytes_at};
ghost use Rattle.cb_protocol.specs.Basics.{update};
ghost use Rattle.cb_transcript.specs.Operations.{AreDone, call_operation, done_in};
ghost use Rattle.cb_transcript.specs.Replays.{AnswersAs, HasEveryPage, IsPlayedTo, shown};

use crate::answer::{AnswerWord, TranscriptEntry};
use crate::{Call, Event};
use cb_commit::Store;
use cb_page::PageNo;
use std::alloc::{AllocError, Global};

/// Every page number is below this.
const PAGE_NUMBERS: u32 = 4096;

/// A page store to which operations were done, over an opening store that stays as it was.
#[derive(Drop)]
pub(crate) struct Replay<'a> {
    /// The bytes of each page number; none if the store has no such page and none were put.
    pub(crate) pages: Vec<&'a [u8]>,
}

impl<'a> Replay<'a> {
    /// The opening store. `AllocError` only if memory was refused.
    pub(crate) fn new(alloc: Global, opening: &'a Store) -> Result<Replay<'a>, AllocError>
        ensures shown { IfOk result (λ replay. shown replay ≡ bytes_at opening.now) }
        ensures pages { IfOk result HasEveryPage }
    {
        let count = opening.page_count();
        let mut pages = Vec::with_capacity(alloc, PAGE_NUMBERS as usize)?;
        for page in 0..PAGE_NUMBERS {
            if (page as usize) < count {
                pages.push_reserved(opening.bytes(PageNo::new(page)));
            } else {
                pages.push_reserved(&[]);
            }
        }
        Ok(Replay { pages })
    }

    /// Does the operations of the events at these places up to the first that the store would
    /// answer otherwise: its place in them, from 0, or `None` if all are legal.
    pub(crate) fn play(&mut self, entries: &'a [TranscriptEntry], places: &[usize]) -> Option<usize>
        requires pages { HasEveryPage self.old }
        requires places { AreDone entries.now places.now }
        ensures played { IsPlayedTo entries.now self.old places.now self.new result }
        ensures pages { HasEveryPage self.new }
    {
        for at in 0..places.len() {
            if !self.answers(&entries[places[at]]) {
                return Some(at);
            }
        }
        None
    }

    /// Whether the store answers the event's operation so; then the operation is done.
    fn answers(&mut self, entry: &'a TranscriptEntry) -> bool
        requires { HasEveryPage self.old }
        ensures answers { AnswersAs (shown self.old) (done_in (Some entry.now)) (shown self.new)
            result }
        ensures pages { HasEveryPage self.new }
    {
        match &entry.event {
            Event::Call { call, .. } => self.answers_call(call, &entry.answer.word),
            _ => true,
        }
    }

    /// Whether the store answers the call so; then its operation, if it is one, is done.
    fn answers_call(&mut self, call: &'a Call, word: &'a AnswerWord) -> bool
        requires { HasEveryPage self.old }
        ensures answers { AnswersAs (shown self.old) (call_operation call.now word.now)
            (shown self.new) result }
        ensures pages { HasEveryPage self.new }
    {
        match call {
            Call::Read { page } => match word {
                AnswerWord::Bytes(bytes) => self.shows(*page, bytes.as_slice()),
                _ => true,
            },
            Call::Write { page, bytes } => match word {
                AnswerWord::Ok => {
                    self.put(*page, bytes.as_slice());
                    true
                }
                _ => true,
            },
            _ => true,
        }
    }

    /// Whether the page has these bytes.
    fn shows(&self, page: PageNo, bytes: &[u8]) -> bool
        requires { HasEveryPage self.now }
        ensures { IsTrue result ↔ (bytes.now ≡ shown self.now page) }
    {
        self.pages[page.index()] == bytes
    }

    /// Writes the page.
    fn put(&mut self, page: PageNo, bytes: &'a [u8])
        requires { HasEveryPage self.old }
        ensures pages { HasEveryPage self.new }
        ensures shown { shown self.new ≡ update (shown self.old) page bytes.now }
    {
        self.pages[page.index()] = bytes;
    }
}
