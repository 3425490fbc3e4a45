//! What the calls that may wait are answered.
use cb_page::CommitNo;

/// The answer to a fetch.
#[derive(Clone, Copy, Debug, PartialEq, Eq)]
pub enum Fetched<'a> {
    /// The page's bytes, which the pool lends.
    Bytes(&'a [u8]),
    /// The transaction was aborted.
    Aborted,
}

/// The answer to a transaction that wants to write a page.
#[derive(Clone, Copy, Debug, PartialEq, Eq)]
pub enum Wanted {
    /// It may write the page.
    Permitted,
    /// It was aborted.
    Aborted,
}

/// How a transaction ended.
#[derive(Clone, Copy, Debug, PartialEq, Eq)]
pub enum Finished {
    /// By a commit of this number, which is on disk.
    Committed(CommitNo),
    /// It was aborted.
    Aborted,
}
