//! The law of a page from its read to its commit.
ghost use Rattle.cb_worker.specs.ReadToCommit.{CallsKeepWritten, OtherWritesKeep};
ghost use Rattle.cb_worker.specs.ReadToCommit.{ReadIsCommitted, WantKeepsBytes};
ghost use Rattle.cb_worker.specs.ReadToCommit.{WriteReplacesBytes};

/// What is committed for a page is what the transaction wrote over what it read. A want keeps the
/// bytes that were read, and a write replaces them. Only another write of the page changes the new
/// bytes before the commit has them.
pub fn what_was_written_is_committed()
    ensures wants { WantKeepsBytes }
    ensures writes { WriteReplacesBytes }
    ensures others { OtherWritesKeep }
    ensures keeps { CallsKeepWritten }
    ensures commits { ReadIsCommitted }
{}
