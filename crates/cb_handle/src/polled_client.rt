//! A client over 2Q, and what it said.
ghost use Rattle.std.specs.Prelude.{◌≡◌, ◌≢◌, ◌<◌, ◌≤◌, ℕ, [], ◌∷◌, IfErr, IfOk, OnErr, IsOk};
ghost use Rattle.std.specs.Prelude.{length};
ghost use Rattle.std.specs.Prelude.{true, false, not, ◌==◌, Some, None};
ghost use Rattle.std.specs.Option.{option_or};
ghost use Rattle.cb_cache.specs.CacheState.{content_at};
ghost use Rattle.cb_client.specs.ByTable.{Calls, as_before, over};
ghost use Rattle.cb_client.specs.CallAnswers.{Answers, after_read, puts, read_ask};
ghost use Rattle.cb_client.specs.FramesTaken.{TakesBytes};
ghost use Rattle.cb_client_core.specs.ClientState.{new_state, outcome_of};
ghost use Rattle.cb_client_core.specs.declared.stage.PendingAsk.TheVariants as asks;
ghost use Rattle.cb_handle.specs.Causes.{Decides, after_fetch, by_table, client_read_cause};
ghost use Rattle.cb_handle.specs.Causes.{client_take_may, committing_may, in_bytes, memory, never};
ghost use Rattle.cb_handle.specs.Causes.{past_pages, said_cause, said_may, saying_may, shown_in};
ghost use Rattle.cb_handle.specs.Causes.{unknown_client};
ghost use Rattle.cb_handle.specs.Clients.{IsOutcome, IsStatus, MayWrite, outcome_numbers};
ghost use Rattle.cb_handle.specs.Fetching.{Fetches};
ghost use Rattle.cb_handle.specs.declared.refusal.HandleRefusal.TheVariants as refusal;
ghost use Rattle.cb_outbox.specs.Messages.{messages_of};
ghost use Rattle.cb_protocol.specs.Answers.{AnsweredBytes, AnsweredOk, Asked, Permitted};
ghost use Rattle.cb_protocol.specs.ClientCalls.{CallAgain, CallBegin, CallDrop, CallFinish};
ghost use Rattle.cb_protocol.specs.ClientCalls.{CallHello, CallPeek, CallRead, CallWant};
ghost use Rattle.cb_protocol.specs.ClientCalls.{CallWrite};

use crate::refusal::HandleRefusal;
use crate::said::Said;
use cb_client::{Client, ClientStatus, Outcome, ReadAnswer, WantAnswer};
use cb_frame::{BytesFault, Frame};
use cb_page::{ClientNo, Incarnation, Limits, PageNo};
use cb_twoq::{Chooser, TwoQ};
use std::alloc::Global;

/// A client, and the frames that it sent and nobody has fetched yet.
#[derive(Drop)]
pub struct PolledClient {
    pub client: Client<TwoQ>,
    pub said: Said,
}

impl PolledClient {
    /// A client at the start of an incarnation. `Range` if there is no such client or incarnation.
    pub fn new(
        alloc: Global,
        no: u32,
        incarnation: u64,
        limits: &Limits,
    ) -> Result<PolledClient, HandleRefusal>
        ensures state { IfOk result (λ polled.
            polled.client ≡ new_state no incarnation limits.now) }
        ensures said { IfOk result (λ polled. polled.said ≡ []) }
        ensures why { Decides (unknown_client limits.now no incarnation) memory result }
    {
        let Some(no) = ClientNo::in_store(limits, u64::from(no)) else {
            return Err(HandleRefusal::Range);
        };
        let Some(incarnation) = Incarnation::checked(incarnation) else {
            return Err(HandleRefusal::Range);
        };
        let chooser = TwoQ::make(alloc, limits)?;
        Ok(PolledClient {
            client: Client::new(alloc, no, incarnation, limits, chooser)?,
            said: Said::nothing(alloc),
        })
    }

    /// Takes the frame at the front of the bytes. Returns how many bytes it has.
    pub fn take(&mut self, alloc: Global, bytes: &[u8]) -> Result<usize, HandleRefusal>
        ensures ok { IfOk result (λ used. (capacity : ℕ) × TakesBytes self.old.client
            bytes.now used (messages_of self.new.said) capacity self.new.client) }
        ensures fetched { IsOk result → self.old.said ≡ [] }
        ensures why { Decides
            (after_fetch self.old.said (in_bytes self.old.client.copies.limits bytes.now))
            (client_take_may self.old.client bytes.now) result }
        ensures unchanged { OnErr result (self.new ≡ self.old) }
    {
        self.said.check_fetched()?;
        let limits = *self.client.limits();
        // In range by their type: `page_size` says so.
        let _known = limits.page_size();
        match self.client.take_bytes(alloc, bytes) {
            Ok((said, used)) => {
                self.said = Said::of(&limits, said);
                Ok(used)
            }
            Err(BytesFault::Frame(fault)) => Err(HandleRefusal::Frame(fault)),
            Err(BytesFault::Taker(fault)) => Err(HandleRefusal::Client(fault)),
        }
    }

    /// Resends what may be lost.
    pub fn again(&mut self, alloc: Global) -> Result<(), HandleRefusal>
        ensures ok { IfOk result (λ _. Calls self.old.client CallAgain AnsweredOk
            (messages_of self.new.said) as_before self.new.client) }
        ensures fetched { IsOk result → self.old.said ≡ [] }
        ensures why { Decides (after_fetch self.old.said None) (saying_may self.old.client) result }
        ensures unchanged { OnErr result (self.new ≡ self.old) }
    {
        self.said.check_fetched()?;
        match self.client.again(alloc) {
            Ok(said) => {
                self.said = Said::of(self.client.limits(), said);
                Ok(())
            }
            Err(fault) => Err(HandleRefusal::Client(fault)),
        }
    }

    /// Greets the server.
    pub fn hello(&mut self) -> Result<(), HandleRefusal>
        ensures ok { IfOk result (λ _. Calls self.old.client CallHello AnsweredOk
            (messages_of self.new.said) as_before self.new.client) }
        ensures fetched { IsOk result → self.old.said ≡ [] }
        ensures why { Decides (after_fetch self.old.said None) never result }
        ensures unchanged { OnErr result (self.new ≡ self.old) }
    {
        self.said.check_fetched()?;
        let frame = self.client.hello();
        self.said.keep(self.client.limits(), frame);
        Ok(())
    }

    /// Begins a transaction, and returns its number.
    #[tactic(auto, using(crate::proofs::Deciding::refused_so, crate::proofs::Deciding::called_free))]
    pub fn begin(&mut self) -> Result<u64, HandleRefusal>
        ensures ok { IfOk result (λ txn. Calls self.old.client CallBegin AnsweredOk []
            as_before self.new.client) }
        ensures txn { IfOk result (λ txn. self.new.client.txn ≡ Some txn) }
        ensures said { self.new.said ≡ self.old.said }
        ensures why { Decides (by_table self.old.client CallBegin) never result }
        ensures unchanged { OnErr result (self.new ≡ self.old) }
    {
        match self.client.begin() {
            Ok(txn) => Ok(txn.get()),
            Err(fault) => Err(HandleRefusal::Client(fault)),
        }
    }

    /// The frame of the ask for a page, which is out, is said.
    fn say_ask(&mut self)
        requires nothing { self.old.said ≡ [] }
        requires out { (page : ℕ) × (self.old.client.ask ≡ asks.Read page) }
        ensures said { (page : ℕ) → self.old.client.ask ≡ asks.Read page
            → messages_of self.new.said ≡ read_ask self.old.client page ∷ [] }
        ensures client { self.new.client ≡ self.old.client }
    {
        if let Some(ask) = self.client.ask() {
            self.said.keep(self.client.limits(), Frame::from(ask));
        }
    }

    /// Reads a page. Returns true if its bytes are in the room then, and false if the page is asked
    /// for.
    ///
    /// `Room` if the room isn't as long as a page.
    #[tactic(auto, using(crate::proofs::Reading::read_sized, crate::proofs::Reading::read_refused, crate::proofs::Deciding::refused_so, crate::proofs::Deciding::answered_free))]
    pub fn read(&mut self, page: PageNo, room: &mut [u8]) -> Result<bool, HandleRefusal>
        ensures bytes { IfOk result (λ here. here ≡ true →
            Answers self.old.client (CallRead page) (AnsweredBytes room.new) []) }
        ensures silent { IfOk result (λ here. here ≡ true → self.new.said ≡ []) }
        ensures after { IfOk result (λ _. self.new.client ≡ after_read self.old.client page) }
        ensures asked { IfOk result (λ here. here ≡ false →
            Answers self.old.client (CallRead page) Asked (read_ask self.old.client page ∷ [])) }
        ensures said { IfOk result (λ here. here ≡ false →
            messages_of self.new.said ≡ read_ask self.old.client page ∷ []) }
        ensures fetched { IsOk result → self.old.said ≡ [] }
        ensures why { Decides (after_fetch self.old.said
            (client_read_cause self.old.client page (length room.old))) never result }
        ensures unchanged { OnErr result (self.new ≡ self.old) }
        ensures kept { OnErr result (room.new ≡ room.old) }
        ensures unread { IfOk result (λ here. here ≡ false → room.new ≡ room.old) }
    {
        self.said.check_fetched()?;
        if room.len() != self.client.limits().page_size() {
            return Err(HandleRefusal::Room);
        }
        match self.client.read(page) {
            Ok(ReadAnswer::Bytes(bytes)) => {
                room.copy_from_slice(bytes);
                return Ok(true);
            }
            Ok(ReadAnswer::Asked) => {}
            Err(fault) => return Err(HandleRefusal::Client(fault)),
        }
        self.say_ask();
        Ok(false)
    }

    /// Asks to write a page. Returns true if it may be written at once, and false if the permission
    /// is asked for.
    #[tactic(auto, using(crate::proofs::Deciding::refused_so, crate::proofs::Deciding::called_free))]
    pub fn want(&mut self, page: PageNo) -> Result<bool, HandleRefusal>
        ensures granted { IfOk result (λ may. may ≡ true → Calls self.old.client (CallWant page)
            Permitted [] as_before self.new.client) }
        ensures silent { IfOk result (λ may. may ≡ true → self.new.said ≡ []) }
        ensures asked { IfOk result (λ may. may ≡ false → Calls self.old.client (CallWant page)
            Asked (messages_of self.new.said) as_before self.new.client) }
        ensures fetched { IsOk result → self.old.said ≡ [] }
        ensures why { Decides (after_fetch self.old.said (by_table self.old.client (CallWant page)))
            never result }
        ensures unchanged { OnErr result (self.new ≡ self.old) }
    {
        self.said.check_fetched()?;
        let limits = *self.client.limits();
        match self.client.want(page) {
            Ok(WantAnswer::Permitted) => Ok(true),
            Ok(WantAnswer::Asked(frame)) => {
                self.said.keep(&limits, Frame::from(frame));
                Ok(false)
            }
            Err(fault) => Err(HandleRefusal::Client(fault)),
        }
    }

    /// Writes a page.
    #[tactic(auto, using(crate::proofs::Deciding::refused_so, crate::proofs::Deciding::called_free))]
    pub fn write(&mut self, page: PageNo, bytes: &[u8]) -> Result<(), HandleRefusal>
        ensures ok { IfOk result (λ _. Calls self.old.client (CallWrite page bytes.now)
            AnsweredOk [] (puts page bytes.now) self.new.client) }
        ensures why { Decides (by_table self.old.client (CallWrite page bytes.now)) never result }
        ensures unchanged { OnErr result (self.new ≡ self.old) }
        ensures said { self.new.said ≡ self.old.said }
    {
        match self.client.write(page, bytes) {
            Ok(()) => Ok(()),
            Err(fault) => Err(HandleRefusal::Client(fault)),
        }
    }

    /// Commits the transaction.
    #[tactic(auto, using(crate::proofs::Deciding::called_free))]
    pub fn finish(&mut self, alloc: Global) -> Result<(), HandleRefusal>
        ensures ok { IfOk result (λ _. Calls self.old.client CallFinish AnsweredOk
            (messages_of self.new.said) as_before self.new.client) }
        ensures fetched { IsOk result → self.old.said ≡ [] }
        ensures why { Decides (after_fetch self.old.said (by_table self.old.client CallFinish))
            (committing_may self.old.client) result }
        ensures unchanged { OnErr result (self.new ≡ self.old) }
    {
        self.said.check_fetched()?;
        let limits = *self.client.limits();
        match self.client.finish(alloc) {
            Ok(frame) => {
                self.said.keep(&limits, frame);
                Ok(())
            }
            Err(fault) => Err(HandleRefusal::Client(fault)),
        }
    }

    /// Ends the transaction without a commit.
    #[tactic(auto, using(crate::proofs::Deciding::called_free))]
    pub fn drop_txn(&mut self, alloc: Global) -> Result<(), HandleRefusal>
        ensures ok { IfOk result (λ _. Calls self.old.client CallDrop AnsweredOk
            (messages_of self.new.said) over self.new.client) }
        ensures fetched { IsOk result → self.old.said ≡ [] }
        ensures why { Decides (after_fetch self.old.said (by_table self.old.client CallDrop)) memory
            result }
        ensures unchanged { OnErr result (self.new ≡ self.old) }
    {
        self.said.check_fetched()?;
        let limits = *self.client.limits();
        match self.client.drop_txn(alloc) {
            Ok(frames) => {
                self.said = Said::of(&limits, frames);
                Ok(())
            }
            Err(fault) => Err(HandleRefusal::Client(fault)),
        }
    }

    /// What the client reports about itself: 1 not welcome, 2 idle, 3 open, 4 waiting, 5
    /// committing.
    pub fn status(&self) -> u32
        ensures { IsStatus self.now.client result }
    {
        match self.client.status() {
            ClientStatus::NotWelcome => 1,
            ClientStatus::Idle => 2,
            ClientStatus::Open => 3,
            ClientStatus::Waiting => 4,
            ClientStatus::Committing => 5,
        }
    }

    /// How the last transaction ended, and the number of its commit or 0: 0 none did, 1 committed,
    /// 2 dropped, 3 aborted.
    pub fn last(&self) -> (u32, u64)
        ensures { IsOutcome self.now.client result.0 result.1 }
    {
        numbers_of(self.client.last())
    }

    /// The bytes of the client's copy of a page. This doesn't count as a reference to the page.
    /// `Nothing` if it has none; `Room` if the room isn't as long as a page.
    #[tactic(auto, using(crate::proofs::Deciding::peeked))]
    pub fn peek(&self, page: PageNo, room: &mut [u8]) -> Result<(), HandleRefusal>
        ensures ok { IfOk result (λ _. Calls self.now.client (CallPeek page)
            (AnsweredBytes room.new) [] as_before self.now.client) }
        ensures why { Decides (shown_in (content_at self.now.client.copies page) (length room.old))
            never result }
        ensures kept { OnErr result (room.new ≡ room.old) }
    {
        match self.client.peek(page) {
            None => Err(HandleRefusal::Nothing),
            Some(bytes) => {
                if room.len() != bytes.len() {
                    return Err(HandleRefusal::Room);
                }
                room.copy_from_slice(bytes);
                Ok(())
            }
        }
    }

    /// Whether the client may write the page now. `false` if no store can have such a page.
    pub fn may_write(&self, page: u32) -> bool
        ensures within { page < 4096 → MayWrite self.now.client page result }
        ensures past { 4096 ≤ page → result ≡ false }
    {
        if page >= 4096 {
            return false;
        }
        self.client.may_write(PageNo::new(page))
    }

    /// Fetches what was sent: `Said::fetch`.
    pub fn fetch(
        &mut self,
        alloc: Global,
        room: &mut [u8],
        size: &mut usize,
    ) -> Result<ClientNo, HandleRefusal>
        ensures ok { IfOk result (λ client. Fetches self.old.said room.old room.new size.new client
            self.new.said) }
        ensures why { Decides (said_cause self.old.said)
            (said_may self.old.said (length room.old) size.new) result }
        ensures unchanged { OnErr result (self.new ≡ self.old) }
        ensures kept { OnErr result (room.new ≡ room.old) }
        ensures size { IfErr result (λ refused. refused ≢ refusal.Room → size.new ≡ size.old) }
        ensures client { self.new.client ≡ self.old.client }
    {
        self.said.fetch(alloc, room, size)
    }
}

/// An outcome as its numbers.
fn numbers_of(last: Option<Outcome>) -> (u32, u64)
    ensures { result ≡ outcome_numbers (outcome_of last) }
{
    match last {
        None => (0, 0),
        Some(outcome) => ended(outcome),
    }
}

/// The numbers of how a transaction ended.
fn ended(outcome: Outcome) -> (u32, u64)
    ensures { result ≡ outcome_numbers (outcome_of (Some outcome)) }
{
    match outcome {
        Outcome::Committed(number) => (1, number.get()),
        Outcome::Dropped => (2, 0),
        Outcome::Aborted => (3, 0),
    }
}
