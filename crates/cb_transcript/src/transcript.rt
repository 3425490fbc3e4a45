//! The transcript of a world.
ghost use Rattle.std.specs.Prelude.{◌≡◌, ◌≤◌, ◌+◌, ◌++◌, [], ◌∷◌, length, map, take};
ghost use Rattle.std.specs.Prelude.{IfOk, OnOk, OnErr};
ghost use Rattle.std.specs.Vec.{vec_capacity};
ghost use Rattle.cb_transcript.specs.Transcripts.{committed_name};

use crate::Event;
use crate::answer::{Answer, TranscriptEntry};
use cb_commit::{Commit, Store};
use cb_page::{ClientNo, Incarnation, TxnNo};
use std::alloc::{AllocError, Global};
use std::marker::Model;

/// The name of a transaction. Each incarnation of a client numbers its own.
#[derive(Clone, Copy, Debug, PartialEq, Eq)]
pub struct TransactionName {
    pub client: ClientNo,
    pub incarnation: Incarnation,
    pub txn: TxnNo,
}

/// What became of every event of a world, and the transactions that were committed.
pub struct Transcript {
    opening: Store,
    entries: Vec<TranscriptEntry>,
    commits: Vec<TransactionName>,
}

// By hand: see docs/PROVING.md, "Drops".
impl Drop for Transcript {
    fn drop(self) {
        let Transcript {
            opening: _,
            entries: _,
            commits: _,
        } = self;
    }
}

impl Model for Transcript {
    ghost use Rattle.cb_transcript.specs.Transcripts.{TranscriptState};

    ghost Value = { TranscriptState };

    ghost view = { λ t. record {
      opening = t.opening;
      entries = t.entries.items;
      commits = t.commits.items;
    } };
}

impl Transcript {
    /// The transcript of a world over that store before any event. It takes no memory.
    pub fn new(alloc: Global, opening: Store) -> Transcript
        ensures { result ≡ record { opening = opening; entries = []; commits = [] } }
    {
        Transcript::from_parts(opening, Vec::new(alloc), Vec::new(alloc))
    }

    /// A transcript that somebody else made: the store before any event, every event with its
    /// answer, and the committed transactions in commit order. Nothing is checked.
    pub fn from_parts(
        opening: Store,
        entries: Vec<TranscriptEntry>,
        commits: Vec<TransactionName>,
    ) -> Transcript
        ensures { result
            ≡ record { opening = opening; entries = entries.items; commits = commits.items } }
    {
        Transcript {
            opening,
            entries,
            commits,
        }
    }

    /// The store before any event.
    pub fn opening(&self) -> &Store
        ensures { result.now ≡ self.now.opening }
    {
        &self.opening
    }

    /// Every event with its answer, in order.
    pub fn entries(&self) -> &[TranscriptEntry]
        ensures { result.now ≡ self.now.entries }
    {
        self.entries.as_slice()
    }

    /// The transactions that were committed, in commit order.
    pub fn commits(&self) -> &[TransactionName]
        ensures { result.now ≡ self.now.commits }
    {
        self.commits.as_slice()
    }

    /// Adds an event, what became of it, and the commits that it applied. `AllocError` only if
    /// memory was refused; then nothing is added.
    pub fn tell(
        &mut self,
        event: Event,
        answer: Answer,
        applied: &[Commit],
    ) -> Result<(), AllocError>
        ensures ok { OnOk result (self.new ≡ record self.old {
          entries = self.old.entries ++ record { event = event; answer = answer } ∷ [];
          commits = self.old.commits ++ map committed_name applied.now;
        }) }
        ensures kept { OnErr result (self.new ≡ self.old) }
    {
        self.commits.reserve(applied.len())?;
        self.entries.push(TranscriptEntry { event, answer })?;
        name_commits(&mut self.commits, applied);
        Ok(())
    }

    /// Keeps the first so many events and the first so many commits. What was told last is taken
    /// back.
    pub fn keep(&mut self, entries: usize, commits: usize)
        ensures { self.new ≡ record self.old {
          entries = take entries self.old.entries;
          commits = take commits self.old.commits;
        } }
    {
        self.entries.truncate(entries);
        self.commits.truncate(commits);
    }
}

/// Names commits behind the others.
pub(crate) fn name_commits(names: &mut Vec<TransactionName>, commits: &[Commit])
    requires room { length names.old.items + length commits.now ≤ vec_capacity names.old }
    ensures { names.new.items ≡ names.old.items ++ map committed_name commits.now }
{
    for commit in commits {
        names.push_reserved(TransactionName {
            client: commit.client,
            incarnation: commit.incarnation,
            txn: commit.txn,
        });
    }
}

/// The law of what a transcript shows: its opening store, each event told, and each commit.
fn law(
    alloc: Global,
    opening: Store,
    event: Event,
    answer: Answer,
    applied: &[Commit],
) -> Result<(u64, usize, usize), AllocError>
    ensures { IfOk result (λ shown. shown ≡ (opening.number, 1, length applied.now)) }
{
    let mut transcript = Transcript::new(alloc, opening);
    transcript.tell(event, answer, applied)?;
    let number = transcript.opening().number();
    Ok((
        number,
        transcript.entries().len(),
        transcript.commits().len(),
    ))
}
