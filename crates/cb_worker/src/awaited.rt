//! What calls wait for.
use crate::answers::Finished;
use cb_page::PageNo;

/// What a call waits for.
#[derive(Clone, Copy)]
pub(crate) enum Awaited {
    /// The client's Welcome.
    Welcome,
    /// A page, for which the client asks.
    Page(PageNo),
    /// The permission to write a page.
    Permission(PageNo),
    /// The end of the transaction, which commits.
    End,
}

/// What came.
#[derive(Clone, Copy)]
pub(crate) enum Came {
    /// The Welcome, the page or the permission.
    There,
    /// The transaction ended.
    Ended(Finished),
}
