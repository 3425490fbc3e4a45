//! Copies of the lists of 2Q.

use cb_page::PageNo;

/// The three lists of 2Q, newest page first.
#[derive(Debug, Drop)]
pub struct Lists {
    /// Pages in slots, referred to once since they came in.
    pub a1in: Vec<PageNo>,
    /// Pages in slots that came back while they were remembered.
    pub am: Vec<PageNo>,
    /// Pages remembered: let go from A1in, and in no slot.
    pub a1out: Vec<PageNo>,
}
