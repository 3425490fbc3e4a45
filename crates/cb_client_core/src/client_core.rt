//! The type, and the frames that it says.
ghost use Rattle.std.specs.Prelude.{◌≡◌};

mod ends;
mod granted;
mod messages;
mod taking;

use crate::stage::{Outcome, PendingAsk, Stage};
use cb_cache::Cache;
use cb_frame::{ShortBody, ShortFrame};
use cb_locks::ReadLocks;
use cb_page::{ClientNo, Incarnation, TxnNo};
use cb_twoq::Chooser;
pub use granted::GrantCase;
pub use taking::Received;

/// One incarnation of a client over any pool. Its fields change step by step. Between two calls
/// they agree; whoever changes them has to show that.
#[derive(Drop)]
pub struct ClientCore<Q: Chooser> {
    pub no: ClientNo,
    pub incarnation: Incarnation,
    /// Whether the server's Welcome came.
    pub welcomed: bool,
    /// The transaction that began last.
    pub txn: Option<TxnNo>,
    pub stage: Stage,
    pub ask: PendingAsk,
    /// The last transaction that was dropped or aborted.
    pub dropped: Option<TxnNo>,
    /// How the last transaction ended.
    pub last: Option<Outcome>,
    pub copies: Cache<Q>,
    pub locks: ReadLocks,
}

impl<Q: Chooser> ClientCore<Q> {
    /// The frame of this client with that body.
    pub fn say(&self, body: ShortBody) -> ShortFrame
        ensures { result ≡ record {
          client = self.now.no;
          incarnation = self.now.incarnation;
          body = body;
        } }
    {
        ShortFrame {
            client: self.no,
            incarnation: self.incarnation,
            body,
        }
    }
}
