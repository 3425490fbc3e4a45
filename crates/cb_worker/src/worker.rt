//! The type, and what it does without the office.
ghost use Rattle.std.specs.Prelude.{◌≡◌, []};
ghost use Rattle.std.specs.Borrow.{sem};
ghost use Rattle.std.specs.Option.{option_copied};
ghost use Rattle.cb_client.specs.ByTable.{Calls, as_before};
ghost use Rattle.cb_client.specs.CallAnswers.{Begins, Writes};
ghost use Rattle.cb_client_core.specs.ClientState.{IsClient};
ghost use Rattle.cb_protocol.specs.ClientCalls.{CallPeek, peek_word};
ghost use Rattle.cb_worker.specs.Lending.{worker_ends};
ghost use Rattle.cb_worker.specs.Workers.{Hits, after_hit, may_hit, shows_copy, with_client};

mod admitting;
mod committing;
mod entering;
mod joining;
mod leaving;
mod standing;
mod turning;
mod waiting;

use crate::said::Said;
use cb_client::{Client, ClientFault};
use cb_frame::Frame;
use cb_hands::Hand;
use cb_page::{ClientNo, PageNo, TxnNo};
use cb_twoq::Chooser;
pub use leaving::Left;
use std::marker::Model;

/// A client with its hand. It can't be copied or dropped; `leave` and `abandon` end it.
///
/// A call that is handed the office takes its lock. Who has a guard of that lock lets it go first:
/// the call would wait for its own thread, for ever, and no clause refuses it. What a worker does
/// under a guard are the calls that are lent the station, `turn_at` and `commit_at`.
pub struct Worker<Q: Chooser> {
    client: Client<Q>,
    hand: Hand,
    /// What was collected and not yet taken.
    collected: Option<Frame>,
    said: Said,
}

impl<Q: Chooser> Model for Worker<Q> {
    ghost use Rattle.cb_worker.specs.Workers.{WorkerState};

    ghost Value = { WorkerState };

    ghost view = { λ worker. record {
      client = worker.client;
      hand = worker.hand;
      collected = worker.collected;
      said = worker.said;
    } };
}

impl<Q: Chooser> Worker<Q> {
    /// Which client it is. The client arose by the protocol's calls and messages, whatever was
    /// called before. All that the protocol says of such clients therefore holds of it.
    pub fn client(&self) -> ClientNo
        ensures value { result ≡ self.now.hand.client }
        ensures arose { IsClient self.now.client }
    {
        // What holds of every client, its limits say.
        let _known = self.client.limits();
        self.hand.client()
    }

    /// Begins a transaction, and returns its number. It takes no lock.
    pub fn begin(&mut self) -> Result<TxnNo, ClientFault>
        ensures begins { Begins self.old.client result self.new.client }
        ensures rest { self.new ≡ with_client self.old self.new.client }
    {
        self.client.begin()
    }

    /// Writes a page in the open transaction: its bytes in the pool become these. It takes no lock.
    pub fn write(&mut self, page: PageNo, bytes: &[u8]) -> Result<(), ClientFault>
        ensures writes { Writes self.old.client page bytes.now result self.new.client }
        ensures rest { self.new ≡ with_client self.old self.new.client }
    {
        self.client.write(page, bytes)
    }

    /// The bytes of the client's copy of a page, with no reference to it. It takes no lock.
    pub fn peek(&self, page: PageNo) -> Option<&[u8]>
        ensures { Calls self.now.client (CallPeek page) (peek_word (option_copied result)) []
            as_before self.now.client }
    {
        self.client.peek(page)
    }

    /// Whether the hand shows the client's copy of the page: the same grant, of the same version.
    fn shows_copy(&self, page: PageNo) -> bool
        ensures { result ≡ shows_copy self.now page }
    {
        match self.client.held(page) {
            None => false,
            Some((grant, version)) => match self.hand.held(page) {
                None => false,
                Some(held) => held.grant == grant && held.version == version,
            },
        }
    }

    /// Reads the page in the open transaction, if it may without the office. Returns whether it
    /// did.
    fn read_here(&mut self, page: PageNo) -> bool
        ensures here { result ≡ may_hit self.old page }
        ensures after { self.new ≡ after_hit self.old page }
    {
        if !self.shows_copy(page) {
            return false;
        }
        self.client.read_here(page)
    }

    /// Reads the page in the open transaction, and lends its bytes: those of the copy whose grant
    /// is in the worker's hand. `None` if the copy or its bytes aren't here, or the read is
    /// refused; nothing changes then. It takes no lock.
    pub fn hit(&mut self, page: PageNo) -> Option<&[u8]>
        ensures* ends { sem 𝓛 (worker_ends Q.row Q.Chooser self.entry
            (λ worker. worker ≡ after_hit self.old page)) }
        ensures hits { Hits self.old page (option_copied result) }
    {
        if self.read_here(page) {
            self.client.peek(page)
        } else {
            None
        }
    }
}
