//! A server, and what it said.
ghost use Rattle.std.specs.Prelude.{◌≡◌, ◌≢◌, ◌+◌, ◌<◌, ◌≤◌, ◌↔◌, [], IfErr, IfOk, IfSome, IsSome};
ghost use Rattle.std.specs.Prelude.{OnErr, IsOk, None, Some, Err, length, true};
ghost use Rattle.cb_commit.specs.Stores.{IsOf, zeros};
ghost use Rattle.cb_outbox.specs.Messages.{messages_of};
ghost use Rattle.cb_handle.specs.Causes.{Decides, after_fetch, all_on_disk, memory, never};
ghost use Rattle.cb_handle.specs.Causes.{next_cause};
ghost use Rattle.cb_handle.specs.Causes.{no_page, not_on_disk, not_to_flush, said_cause, said_may};
ghost use Rattle.cb_handle.specs.Causes.{in_bytes, server_take_may};
ghost use Rattle.cb_handle.specs.Fetching.{Fetches};
ghost use Rattle.cb_handle.specs.Servers.{BeginsOver, Does, HasNext, IsNew, IsUnchanged, Leaves};
ghost use Rattle.cb_handle.specs.Servers.{TakesBytes, forgot, next_incarnation, or_zero};
ghost use Rattle.cb_handle.specs.Servers.{page_of_batch, server_of};
ghost use Rattle.cb_handle.specs.declared.refusal.HandleRefusal.TheVariants as refusal;
ghost use Rattle.cb_page.specs.Numbers.{IsNumber, max_number};
ghost use Rattle.cb_protocol.specs.AnyMessages.{ReachesDisk, SendsAgain};
ghost use Rattle.cb_protocol.specs.Flush.{can_flush, next_batch};

use crate::refusal::HandleRefusal;
use crate::said::Said;
use cb_commit::{Batch, Store};
use cb_frame::{Body, BytesFault, Frame, ShortBody};
use cb_page::{ClientNo, CommitNo, Incarnation, Limits};
use cb_server::Server;
use std::alloc::{AllocError, Global};

/// A server, the frames that it sent and nobody has fetched yet, and the batch that is being
/// written.
#[derive(Drop)]
pub struct PolledServer {
    pub server: Server,
    pub said: Said,
    pub batch: Option<Batch>,
}

/// The server over this store in the life of that floor; without one, a new server.
fn begun(
    alloc: Global,
    limits: &Limits,
    store: Store,
    floor: Option<Incarnation>,
) -> Result<Server, AllocError>
    requires { IsOf limits.now store }
    ensures { IfOk result (BeginsOver limits.now store floor) }
{
    match floor {
        Some(floor) => Server::resume(alloc, limits, store, floor),
        None => Server::new(alloc, limits, store),
    }
}

impl PolledServer {
    /// A server over this store, in the life with that floor. Without a floor it is a new server.
    pub fn over(
        alloc: Global,
        limits: &Limits,
        store: Store,
        floor: Option<Incarnation>,
    ) -> Result<PolledServer, HandleRefusal>
        requires { IsOf limits.now store }
        ensures begun { IfOk result (λ polled. BeginsOver limits.now store floor polled.server) }
        ensures said { IfOk result (λ polled. polled.said ≡ []) }
        ensures batch { IfOk result (λ polled. polled.batch ≡ None) }
        ensures why { Decides None memory result }
    {
        Ok(PolledServer {
            server: begun(alloc, limits, store, floor)?,
            said: Said::nothing(alloc),
            batch: None,
        })
    }

    /// A server over a store of zeros.
    pub fn zeros(alloc: Global, limits: &Limits) -> Result<PolledServer, HandleRefusal>
        ensures new { IfOk result (λ polled. IsNew limits.now (zeros limits.now) polled.server) }
        ensures said { IfOk result (λ polled. polled.said ≡ []) }
        ensures batch { IfOk result (λ polled. polled.batch ≡ None) }
        ensures why { Decides None memory result }
    {
        let store = Store::zeros(alloc, limits)?;
        PolledServer::over(alloc, limits, store, None)
    }

    /// Takes the frame at the front of the bytes. Returns how many bytes it has.
    pub fn take(&mut self, alloc: Global, bytes: &[u8]) -> Result<usize, HandleRefusal>
        ensures ok { IfOk result (λ used. TakesBytes self.old.server bytes.now used
            (messages_of self.new.said) self.new.server) }
        ensures fetched { IsOk result → self.old.said ≡ [] }
        ensures why { Decides
            (after_fetch self.old.said (in_bytes self.old.server.limits bytes.now))
            (server_take_may self.old.server bytes.now) result }
        ensures unchanged { OnErr result (IsUnchanged self.old.server self.new.server) }
        ensures unsaid { OnErr result (self.new.said ≡ self.old.said) }
        ensures batch { self.new.batch ≡ self.old.batch }
    {
        self.said.check_fetched()?;
        let limits = *self.server.limits();
        // In range by their type: `page_size` says so.
        let _known = limits.page_size();
        match self.server.take_bytes(alloc, bytes) {
            Ok((said, used)) => {
                self.said = Said::of(&limits, said);
                Ok(used)
            }
            Err(BytesFault::Frame(fault)) => Err(HandleRefusal::Frame(fault)),
            Err(BytesFault::Taker(fault)) => Err(HandleRefusal::Server(fault)),
        }
    }

    /// Resends what may be lost.
    pub fn again(&mut self, alloc: Global) -> Result<(), HandleRefusal>
        ensures ok { IfOk result (λ _. Does self.old.server SendsAgain
            (messages_of self.new.said) self.new.server) }
        ensures fetched { IsOk result → self.old.said ≡ [] }
        ensures why { Decides (after_fetch self.old.said None) memory result }
        ensures unchanged { IsUnchanged self.old.server self.new.server }
        ensures unsaid { OnErr result (self.new.said ≡ self.old.said) }
        ensures batch { self.new.batch ≡ self.old.batch }
    {
        self.said.check_fetched()?;
        let limits = *self.server.limits();
        let said = self.server.again(alloc)?;
        self.said = Said::of(&limits, said);
        Ok(())
    }

    /// The client with this number, and the incarnation with which it may greet next. `Range` if
    /// there is no such client, or no incarnation is left for it.
    pub fn next_incarnation(&self, client: u32) -> Result<(ClientNo, Incarnation), HandleRefusal>
        ensures client { IfOk result (λ found. found.0 ≡ client) }
        ensures within { IfOk result (λ found. found.0 < self.now.server.limits.clients) }
        ensures next { IfOk result (λ found.
            found.1 ≡ next_incarnation self.now.server client) }
        ensures why { Decides (next_cause self.now.server client) never result }
    {
        let Some(no) = ClientNo::in_store(self.server.limits(), u64::from(client)) else {
            return Err(HandleRefusal::Range);
        };
        match next_of(self.server.state().sessions.session(no).incarnation) {
            Some(next) => Ok((no, next)),
            None => Err(HandleRefusal::Range),
        }
    }

    /// A client went away. At the server its next incarnation begins, which belongs to nobody, so
    /// that nobody waits for it. The frames sent have a Welcome to it.
    #[tactic(auto, using(crate::proofs::Left::left_by))]
    pub fn leave(&mut self, alloc: Global, client: u32) -> Result<(), HandleRefusal>
        ensures ok { IfOk result (λ _. Leaves self.old.server client
            (messages_of self.new.said) self.new.server) }
        ensures fetched { IsOk result → self.old.said ≡ [] }
        ensures why { Decides (after_fetch self.old.said (next_cause self.old.server client)) memory
            result }
        ensures unchanged { OnErr result (IsUnchanged self.old.server self.new.server) }
        ensures unsaid { OnErr result (self.new.said ≡ self.old.said) }
        ensures batch { self.new.batch ≡ self.old.batch }
    {
        self.said.check_fetched()?;
        let limits = *self.server.limits();
        let (no, incarnation) = self.next_incarnation(client)?;
        // In range by its type: `get` says so.
        let _known = incarnation.get();
        let hello = Frame {
            client: no,
            incarnation,
            body: Body::Short(ShortBody::Hello),
        };
        match self.server.take_owned(alloc, hello) {
            Ok(said) => {
                self.said = Said::of(&limits, said);
                Ok(())
            }
            Err(refused) => Err(HandleRefusal::Server(refused.0)),
        }
    }

    /// Makes the batch that is to be written next. Returns the number of its last commit, and how
    /// many pages it has. `Nothing` if every commit is on disk.
    pub fn make_batch(&mut self, alloc: Global) -> Result<(CommitNo, usize), HandleRefusal>
        ensures server { self.new.server ≡ self.old.server }
        ensures said { self.new.said ≡ self.old.said }
        ensures made { IfOk result (λ made.
            HasNext self.old.server self.new.batch made.0 made.1) }
        ensures why { Decides (all_on_disk self.old.server) memory result }
        ensures unchanged { OnErr result (self.new ≡ self.old) }
    {
        match self.server.batch(alloc)? {
            None => Err(HandleRefusal::Nothing),
            Some(batch) => {
                let answer = (batch.number(), batch.pages().len());
                self.batch = Some(batch);
                Ok(answer)
            }
        }
    }

    /// Writes the bytes of a page of the batch to the room. Returns its number and version.
    /// `Nothing` if there is no batch or no such place in it; `Room` if the room isn't as long as
    /// the page.
    #[tactic(auto, using(crate::proofs::Shown::page_shown))]
    pub fn batch_page(&self, at: usize, room: &mut [u8]) -> Result<(u32, u64), HandleRefusal>
        ensures ok { IfOk result (λ shown. page_of_batch self.now.batch at ≡ Some (record {
          page = shown.0;
          version = shown.1;
          bytes = room.new;
        })) }
        ensures why { Decides (no_page self.now.batch at (length room.old)) never result }
        ensures unchanged { OnErr result (room.new ≡ room.old) }
    {
        let Some(batch) = &self.batch else {
            return Err(HandleRefusal::Nothing);
        };
        let Some(page) = batch.pages().get(at) else {
            return Err(HandleRefusal::Nothing);
        };
        if room.len() != page.bytes.len() {
            return Err(HandleRefusal::Room);
        }
        room.copy_from_slice(page.bytes.as_slice());
        Ok((page.page.get(), page.version.get()))
    }

    /// Whether that commit was made and isn't on disk yet.
    pub fn can_flush(&self, number: u64) -> bool
        ensures value { IsNumber number → result ≡ can_flush (server_of self.now.server) number }
        ensures number { result ≡ true → IsNumber number }
    {
        match CommitNo::checked(number) {
            None => false,
            Some(number) => self.server.can_flush(number),
        }
    }

    /// The commits up to this number are on disk now. A Done is sent for each that wasn't before.
    pub fn flushed(&mut self, alloc: Global, number: u64) -> Result<(), HandleRefusal>
        ensures ok { IfOk result (λ _. Does self.old.server (ReachesDisk number)
            (messages_of self.new.said) self.new.server) }
        ensures fetched { IsOk result → self.old.said ≡ [] }
        ensures could { IsOk result → can_flush (server_of self.old.server) number ≡ true }
        ensures written { IsOk result → self.new.batch ≡ None }
        ensures why { Decides
            (after_fetch self.old.said (not_to_flush self.old.server number)) memory
            result }
        ensures unchanged { OnErr result (IsUnchanged self.old.server self.new.server) }
        ensures unsaid { OnErr result (self.new.said ≡ self.old.said) }
        ensures batch { OnErr result (self.new.batch ≡ self.old.batch) }
    {
        self.said.check_fetched()?;
        let Some(number) = CommitNo::checked(number) else {
            return Err(HandleRefusal::Range);
        };
        if !self.server.can_flush(number) {
            return Err(HandleRefusal::Range);
        }
        let limits = *self.server.limits();
        let said = self.server.flushed(alloc, number)?;
        self.said = Said::of(&limits, said);
        self.batch = None;
        Ok(())
    }

    /// Forgets the commits up to this number: they leave memory. `Range` if no commit has this
    /// number, or not all of them are on disk.
    pub fn forget(&mut self, number: u64) -> Result<(), HandleRefusal>
        ensures ok { IfOk result (λ _. self.new.server ≡ forgot self.old.server number) }
        ensures on_disk { IsOk result → number ≤ (server_of self.old.server).flushed }
        ensures why { Decides (not_on_disk self.old.server number) never result }
        ensures unchanged { OnErr result (self.new ≡ self.old) }
        ensures said { self.new.said ≡ self.old.said }
        ensures batch { self.new.batch ≡ self.old.batch }
    {
        let Some(number) = CommitNo::checked(number) else {
            return Err(HandleRefusal::Range);
        };
        if number.get() > self.server.state().commits.last_flushed() {
            return Err(HandleRefusal::Range);
        }
        self.server.forget(number);
        Ok(())
    }

    /// Fetches what was sent: `Said::fetch`.
    pub fn fetch(
        &mut self,
        alloc: Global,
        room: &mut [u8],
        size: &mut usize,
    ) -> Result<ClientNo, HandleRefusal>
        ensures ok { IfOk result (λ client. Fetches self.old.said room.old room.new size.new client
            self.new.said) }
        ensures why { Decides (said_cause self.old.said)
            (said_may self.old.said (length room.old) size.new) result }
        ensures size { IfErr result (λ refused. refused ≢ refusal.Room → size.new ≡ size.old) }
        ensures unchanged { OnErr result (self.new ≡ self.old) }
        ensures kept { OnErr result (room.new ≡ room.old) }
        ensures server { self.new.server ≡ self.old.server }
        ensures batch { self.new.batch ≡ self.old.batch }
    {
        self.said.fetch(alloc, room, size)
    }
}

/// The incarnation after the current one; 1 if there is none. `None` if all numbers are used up.
fn next_of(current: Option<Incarnation>) -> Option<Incarnation>
    ensures next { IfSome result (λ next. next ≡ or_zero current + 1) }
    ensures left { IsSome result ↔ (or_zero current + 1 ≤ max_number) }
{
    match current {
        None => Some(Incarnation::new(1)),
        Some(current) => current.next(),
    }
}
