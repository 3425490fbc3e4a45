//! The answers to the calls that may need the server.

use cb_frame::ShortFrame;

/// The answer to a read.
#[derive(Clone, Copy, Debug, PartialEq, Eq)]
pub enum ReadAnswer<'a> {
    /// The page's bytes, which the pool lends.
    Bytes(&'a [u8]),
    /// The page is asked for, by the frame that [`Client::ask`](crate::Client::ask) returns.
    Asked,
}

/// The answer to a transaction that wants to write a page.
#[derive(Clone, Copy, Debug, PartialEq, Eq)]
pub enum WantAnswer {
    /// It may write the page at once.
    Permitted,
    /// The permission is asked for by this frame.
    Asked(ShortFrame),
}
