//! The transcript of a world over all lives of its server.
ghost use Rattle.std.specs.Prelude.{◌≡◌, ◌++◌, [], ◌∷◌, map, take, IfOk, OnOk, OnErr};
ghost use Rattle.cb_transcript.specs.LivesTranscripts.{counted, within_lives};
ghost use Rattle.cb_transcript.specs.Transcripts.{committed_name};

use crate::answer::TranscriptEntry;
use crate::restart::RestartEntry;
use crate::transcript::{TransactionName, Transcript, name_commits};
use cb_commit::{Commit, Store};
use std::alloc::{AllocError, Global};
use std::marker::Model;

/// What happened, and what became of it.
#[derive(Debug, Drop)]
pub enum LivesEntry {
    /// An event of the life that was the present one.
    Within(TranscriptEntry),
    /// The server restarted, or was refused it.
    ServerRestarts(RestartEntry),
}

/// What became of every event of a world over all lives of its server, and the transactions whose
/// commits count. These are all of the present life, and those of former lives that were on disk
/// when their life ended.
pub struct LivesTranscript {
    opening: Store,
    entries: Vec<LivesEntry>,
    commits: Vec<TransactionName>,
}

// By hand: see docs/PROVING.md, "Drops".
impl Drop for LivesTranscript {
    fn drop(self) {
        let LivesTranscript {
            opening: _,
            entries: _,
            commits: _,
        } = self;
    }
}

impl Model for LivesTranscript {
    ghost use Rattle.cb_transcript.specs.LivesTranscripts.{LivesTranscriptState};

    ghost Value = { LivesTranscriptState };

    ghost view = { λ t. record {
      opening = t.opening;
      entries = t.entries.items;
      commits = t.commits.items;
    } };
}

impl LivesTranscript {
    /// The transcript of a world over that store before any event. It takes no memory.
    pub fn new(alloc: Global, opening: Store) -> LivesTranscript
        ensures { result ≡ record { opening = opening; entries = []; commits = [] } }
    {
        LivesTranscript {
            opening,
            entries: Vec::new(alloc),
            commits: Vec::new(alloc),
        }
    }

    /// The store before any event.
    pub fn opening(&self) -> &Store
        ensures { result.now ≡ self.now.opening }
    {
        &self.opening
    }

    /// Every event with its answer, in order. Restarts of the server are among them.
    pub fn entries(&self) -> &[LivesEntry]
        ensures { result.now ≡ self.now.entries }
    {
        self.entries.as_slice()
    }

    /// The transactions whose commits count, in commit order.
    pub fn commits(&self) -> &[TransactionName]
        ensures { result.now ≡ self.now.commits }
    {
        self.commits.as_slice()
    }

    /// Adds what happened, and the commits that it applied. `AllocError` only if memory was
    /// refused; then nothing is added.
    pub fn tell(&mut self, entry: LivesEntry, applied: &[Commit]) -> Result<(), AllocError>
        ensures ok { OnOk result (self.new ≡ record self.old {
          entries = self.old.entries ++ entry ∷ [];
          commits = self.old.commits ++ map committed_name applied.now;
        }) }
        ensures kept { OnErr result (self.new ≡ self.old) }
    {
        self.commits.reserve(applied.len())?;
        self.entries.push(entry)?;
        name_commits(&mut self.commits, applied);
        Ok(())
    }

    /// Keeps the first so many events and the first so many commits. What was told last is taken
    /// back, or lost with the life that ends.
    pub fn keep(&mut self, entries: usize, commits: usize)
        ensures { self.new ≡ record self.old {
          entries = take entries self.old.entries;
          commits = take commits self.old.commits;
        } }
    {
        self.entries.truncate(entries);
        self.commits.truncate(commits);
    }

    /// The transcript of one world: the events without the server's restarts, and the commits that
    /// count. `AllocError` only if memory was refused.
    pub fn into_transcript(self, alloc: Global) -> Result<Transcript, AllocError>
        ensures { IfOk result (λ transcript. transcript ≡ counted self) }
    {
        let LivesTranscript {
            opening,
            entries,
            commits,
        } = self;
        let within = within_lives(alloc, entries)?;
        Ok(Transcript::from_parts(opening, within, commits))
    }
}

/// The entries of events within lives.
fn within_lives(alloc: Global, entries: Vec<LivesEntry>) -> Result<Vec<TranscriptEntry>, AllocError>
    ensures { IfOk result (λ within. within.items ≡ within_lives entries.items) }
{
    let mut within = Vec::with_capacity(alloc, entries.len())?;
    for entry in entries {
        if let LivesEntry::Within(told) = entry {
            within.push(told)?;
        }
    }
    Ok(within)
}
