//! The type, its opening, what it takes, and what it shows.
ghost use Rattle.std.specs.Prelude.{◌≡◌, ◌≢◌, ◌<◌, ◌≤◌, [], ◌∷◌, IfErr, IfOk, IfSome, OnErr};
ghost use Rattle.std.specs.Prelude.{◌⊎◌, ℕ, Err, OnOk};
ghost use Rattle.std.specs.Prelude.{slice_index, false, true};
ghost use Rattle.std.specs.List.{AllByRecursion};
ghost use Rattle.std.specs.Option.{option_map};
ghost use Rattle.std.specs.Vec.{vec_capacity, vec_len};
ghost use Rattle.cb_commit.specs.History.{CatchesUp, remembered};
ghost use Rattle.cb_commit.specs.Stores.{IsOf};
ghost use Rattle.cb_frame.specs.Checks.{has_pages, kind_of};
ghost use Rattle.cb_frame.specs.declared.fault.BytesFault.TheVariants as reading;
ghost use Rattle.cb_frame.specs.declared.fault.FrameFault.TheVariants as fault;
ghost use Rattle.cb_frame.specs.Grammar.{Fits};
ghost use Rattle.cb_outbox.specs.Messages.{messages_of};
ghost use Rattle.cb_protocol.specs.AnyMessages.{ReachesDisk, SendsAgain};
ghost use Rattle.cb_protocol.specs.Flush.{can_flush, next_batch};
ghost use Rattle.cb_server.specs.Knowing.{KnowsBelow, KnowsUpTo};
ghost use Rattle.cb_server.specs.Said.{SaysRowVersions};
ghost use Rattle.cb_server.specs.ServerValue.{IsNew, IsResumed, IsServer, IsUnchanged, commits_of};
ghost use Rattle.cb_server.specs.ServerValue.{forgot};
ghost use Rattle.cb_server.specs.ServerValue.{most_frames, server_of};
ghost use Rattle.cb_server.specs.Taking.{Does, Greets, HasToSayAgain, IsBytesFault, MayWantMemory};
ghost use Rattle.cb_server.specs.Taking.{Refuses, Takes, TakesBytes, lacks_number_for};
ghost use Rattle.cb_server_state.specs.Commits.{batch_of};
ghost use Rattle.cb_server_state.specs.States.{AreOf, PartsAgree, newest_first, or_zero};
ghost use Rattle.cb_waits.specs.Follows.{Follows};

use crate::engine::Engine;
use crate::server_fault::ServerFault;
use cb_callbacks::Callbacks;
use cb_commit::{Batch, Commit, Store};
use cb_frame::{Body, BytesFault, Frame, ShortBody, decode};
use cb_outbox::Outbox;
use cb_page::{ClientNo, CommitNo, Incarnation, Limits};
use cb_server_state::ServerState;
use cb_waits::View;
use std::alloc::{AllocError, Global};
use std::marker::Model;

/// A page server over its store.
///
/// `new`, `take`, `take_owned`, `take_bytes`, `again`, `batch` and `flushed` take memory; no other
/// call does.
pub struct Server {
    limits: Limits,
    /// Its outbox is empty between two calls.
    engine: Engine,
}

// By hand: see docs/PROVING.md, "Drops".
impl Drop for Server {
    fn drop(self) {
        let Server {
            limits: _,
            engine: _,
        } = self;
    }
}

impl Model for Server {
    ghost use Rattle.cb_server.specs.ServerValue.{IsAtRest, ServerValue};

    ghost Value = { ServerValue };

    ghost view = { λ server. record {
      limits = server.limits;
      state = server.engine.callbacks.state;
    } };

    ghost invariant = { λ server. IsAtRest (record {
      limits = server.limits;
      state = server.engine.callbacks.state;
    }) server.engine.outbox };
}

impl Server {
    /// A server over a store, all of which counts as on disk. No client is known.
    ///
    /// The store isn't copied. `AllocError` only if memory was refused.
    pub fn new(alloc: Global, limits: &Limits, store: Store) -> Result<Server, AllocError>
        requires { IsOf limits.now store }
        ensures { IfOk result (IsNew limits.now store) }
    {
        // Its pages have its size, and no version is above its number: `number` says so.
        let _known = store.number();
        Ok(Server {
            limits: *limits,
            engine: Engine {
                callbacks: Callbacks::new(alloc, limits, store)?,
                outbox: Outbox::new(alloc, limits),
            },
        })
    }

    /// A server over the store that a former life of it left, all of which counts as on disk. It
    /// knows the floor as the current incarnation of each client, and nothing else. It therefore
    /// ignores what any lower incarnation sent, whenever that comes.
    ///
    /// The store isn't copied. `AllocError` only if memory was refused.
    pub fn resume(
        alloc: Global,
        limits: &Limits,
        store: Store,
        floor: Incarnation,
    ) -> Result<Server, AllocError>
        requires { IsOf limits.now store }
        ensures { IfOk result (IsResumed limits.now store floor) }
    {
        let mut server = Server::new(alloc, limits, store)?;
        for client in 0..limits.clients() {
            server.greet(alloc, ClientNo::new(client), floor)?;
        }
        Ok(server)
    }

    /// Takes a Hello of the client, and lets go what is said.
    fn greet(
        &mut self,
        alloc: Global,
        client: ClientNo,
        incarnation: Incarnation,
    ) -> Result<(), AllocError>
        requires client { client < self.old.limits.clients }
        ensures { OnOk result (Greets self.old client incarnation self.new) }
    {
        let hello = Frame {
            client,
            incarnation,
            body: Body::Short(ShortBody::Hello),
        };
        match self.take(alloc, &hello) {
            Ok(_welcome) => Ok(()),
            Err(_refused) => Err(AllocError),
        }
    }

    /// The limits of its store and its clients. The server arose by the protocol's steps, whatever
    /// was called before. All that the protocol says of such servers therefore holds of it.
    pub fn limits(&self) -> &Limits
        ensures value { result.now ≡ self.now.limits }
        ensures arose { IsServer self.now }
    {
        &self.limits
    }

    /// Takes a frame, from an honest client or not, and returns the frames that the server sends in
    /// answer, in order, to that client and to others. The list has room for no more frames than
    /// one message can need, by the asks that wait.
    ///
    /// `Exhausted` exactly if no number is left for it: a grant number for an ask to read that
    /// would enter a queue, beyond one for each that waits, or a commit number for a commit that
    /// would be applied. `Memory` only if a growth was refused. Nothing changes after either fault.
    /// `Memory` never comes for an ignored frame: one that isn't of the current incarnation (unless
    /// it is the Hello of a greater one), or one of a kind that goes to clients. While nobody
    /// waits, it never comes for a GiveBack, InUse, Drop or Downgraded.
    ///
    /// The pages of a commit that is applied are copied, since the list of commits keeps them. No
    /// other pages are.
    pub fn take(&mut self, alloc: Global, frame: &Frame) -> Result<Vec<Frame>, ServerFault>
        requires { Fits self.old.limits frame.now }
        ensures ok { IfOk result (λ said.
            Takes self.old frame.now (messages_of said.items) self.new) }
        ensures fits { IfOk result (λ said. AllByRecursion (Fits self.old.limits) said.items) }
        ensures room { IfOk result (λ said. vec_capacity said ≤ most_frames (server_of self.old)) }
        ensures err { IfErr result (Refuses self.old frame.now) }
        ensures needed { OnErr result (MayWantMemory self.old frame.now) }
        ensures unchanged { OnErr result (IsUnchanged self.old self.new) }
    {
        let (client, incarnation) = (frame.client, frame.incarnation);
        self.engine
            .take(alloc, &self.limits, client, incarnation, &frame.body)?;
        Ok(self.engine.outbox.take(alloc))
    }

    /// As `take`, but the frame is handed over: the pages of a commit that is applied are moved,
    /// and the frame comes back with the fault.
    pub fn take_owned(
        &mut self,
        alloc: Global,
        frame: Frame,
    ) -> Result<Vec<Frame>, (ServerFault, Frame)>
        requires { Fits self.old.limits frame }
        ensures ok { IfOk result (λ said. Takes self.old frame (messages_of said.items) self.new) }
        ensures fits { IfOk result (λ said. AllByRecursion (Fits self.old.limits) said.items) }
        ensures room { IfOk result (λ said. vec_capacity said ≤ most_frames (server_of self.old)) }
        ensures err { IfErr result (λ refused. Refuses self.old frame refused.0) }
        ensures back { IfErr result (λ refused. refused.1 ≡ frame) }
        ensures needed { OnErr result (MayWantMemory self.old frame) }
        ensures unchanged { OnErr result (IsUnchanged self.old self.new) }
    {
        let Frame {
            client,
            incarnation,
            body,
        } = frame;
        let (fault, body) = match self
            .engine
            .take_owned(alloc, &self.limits, client, incarnation, body)
        {
            Ok(()) => return Ok(self.engine.outbox.take(alloc)),
            Err(refused) => refused,
        };
        let frame = Frame {
            client,
            incarnation,
            body,
        };
        Err((fault, frame))
    }

    /// Whether no number is left for the frame. Exactly then `take` returns `Exhausted`.
    pub fn is_exhausted_by(&self, frame: &Frame) -> bool
        requires { Fits self.now.limits frame.now }
        ensures { result ≡ lacks_number_for self.now frame.now }
    {
        self.engine
            .is_exhausted_by(frame.client, frame.incarnation, &frame.body)
    }

    /// Takes the frame at the front of the bytes, whatever follows it. Returns the frames that the
    /// server sends in answer, and how many bytes the frame has. Its faults are those of `take` for
    /// that frame, so `Memory` never comes for an ignored one.
    pub fn take_bytes(
        &mut self,
        alloc: Global,
        bytes: &[u8],
    ) -> Result<(Vec<Frame>, usize), BytesFault<ServerFault>>
        ensures ok { IfOk result (λ answered. TakesBytes self.old bytes.now answered.1
            (messages_of answered.0.items) self.new) }
        ensures fits { IfOk result (λ answered.
            AllByRecursion (Fits self.old.limits) answered.0.items) }
        ensures room { IfOk result (λ answered.
            vec_capacity answered.0 ≤ most_frames (server_of self.old)) }
        ensures err { IfErr result (IsBytesFault self.old bytes.now) }
        // Reading it wants memory only where the kind is one whose frames have page bytes.
        ensures memory { has_pages (kind_of (slice_index bytes.now 1)) ≡ false →
            result ≢ Err (reading.Frame fault.Memory) }
        ensures unchanged { OnErr result (IsUnchanged self.old self.new) }
    {
        match decode(alloc, &self.limits, bytes) {
            Err(fault) => Err(BytesFault::Frame(fault)),
            Ok((frame, used)) => match self.take_owned(alloc, frame) {
                Ok(said) => Ok((said, used)),
                Err(refused) => Err(BytesFault::Taker(refused.0)),
            },
        }
    }

    /// Resends what may be lost: Callbacks for the first asks to write, Downgrades for the first
    /// asks to read, AbortNow to the doomed. Nothing else changes.
    ///
    /// `AllocError` only if memory was refused, so never if there is nothing to send.
    pub fn again(&mut self, alloc: Global) -> Result<Vec<Frame>, AllocError>
        ensures ok { IfOk result (λ said. Does self.old SendsAgain (messages_of said.items)
            self.new) }
        ensures fits { IfOk result (λ said. AllByRecursion (Fits self.old.limits) said.items) }
        ensures room { IfOk result (λ said. vec_capacity said ≤ most_frames (server_of self.old)) }
        ensures needed { OnErr result (HasToSayAgain self.old) }
        ensures unchanged { IsUnchanged self.old self.new }
    {
        self.engine.again(alloc, &self.limits)?;
        Ok(self.engine.outbox.take(alloc))
    }

    /// What is to be written to disk next: each page that was changed by a commit which isn't on
    /// disk yet, as the page is now. `None` if every commit is on disk. It costs no more than those
    /// pages.
    ///
    /// `AllocError` only if memory was refused, so never if there is nothing to write.
    pub fn batch(&self, alloc: Global) -> Result<Option<Batch>, AllocError>
        ensures batch { IfOk result (λ batch.
            option_map batch_of batch ≡ next_batch (server_of self.now)) }
        ensures catches_up { IfOk result (λ batch. IfSome batch (CatchesUp (commits_of self.now))) }
        ensures can_flush { IfOk result (λ batch.
            IfSome batch (λ b. can_flush (server_of self.now) b.number ≡ true)) }
        ensures err { OnErr result
            ((server_of self.now).flushed < (server_of self.now).store.last_commit) }
    {
        self.engine.callbacks.state().commits.batch(alloc)
    }

    /// Whether that commit was made and isn't on disk yet.
    pub fn can_flush(&self, number: CommitNo) -> bool
        ensures { result ≡ can_flush (server_of self.now) number }
    {
        self.engine.callbacks.state().commits.can_flush(number)
    }

    /// The commits up to this number are on disk now. Returns a Done for each that wasn't before,
    /// in order, in a list with no more room than that.
    ///
    /// `AllocError` only if memory was refused; nothing changes then.
    pub fn flushed(&mut self, alloc: Global, number: CommitNo) -> Result<Vec<Frame>, AllocError>
        requires { can_flush (server_of self.old) number ≡ true }
        ensures ok { IfOk result (λ said. Does self.old (ReachesDisk number)
            (messages_of said.items) self.new) }
        ensures fits { IfOk result (λ said. AllByRecursion (Fits self.old.limits) said.items) }
        ensures room { IfOk result (λ said. vec_capacity said ≡ vec_len said) }
        ensures unchanged { OnErr result (IsUnchanged self.old self.new) }
    {
        let dones = self.engine.callbacks.flushed(alloc, number)?;
        Ok(dones)
    }

    /// Forgets the commits up to this number, which is on disk: they leave memory. Its cost grows
    /// with their number alone. What the server sends, who waits and what is on disk stay as they
    /// are.
    pub fn forget(&mut self, number: CommitNo)
        requires on_disk { number ≤ (server_of self.old).flushed }
        ensures { self.new ≡ forgot self.old number }
    {
        self.engine.callbacks.forget(number);
    }

    /// The commits that weren't forgotten, in order.
    pub fn committed(&self) -> &[Commit]
        ensures value { result.now ≡ remembered (commits_of self.now) }
        ensures all { (commits_of self.now).forgotten ≡ 0 →
            newest_first result.now ≡ (server_of self.now).commits }
    {
        self.engine.callbacks.state().commits.committed()
    }

    /// What it knows of its clients and pages, who waits, and who uses a page. Its parts agree.
    ///
    /// The version of a row is the store's (`rows`): each row was sent to its client as a Granted,
    /// by what the calls of this server answered since it was made. Each such Granted is as the
    /// store has the page now, save where its client itself wrote the page since.
    pub fn state(&self) -> &ServerState
        ensures value { result.now ≡ self.now.state }
        ensures agree { PartsAgree result.now }
        ensures of { AreOf self.now.limits result.now }
        ensures rows { SaysRowVersions self.now }
    {
        self.engine.callbacks.state()
    }

    /// The greatest current incarnation of any client; `None` if no client is known.
    pub fn greatest_known(&self) -> Option<Incarnation>
        ensures most { KnowsUpTo (server_of self.now) (or_zero result) }
        ensures least { (below : ℕ) → KnowsBelow (server_of self.now) below
            → or_zero result < below }
    {
        let state = self.engine.callbacks.state();
        let mut greatest = None;
        for client in 0..self.limits.clients() {
            let known = state.sessions.session(ClientNo::new(client)).incarnation;
            greatest = greater(greatest, known);
        }
        greatest
    }

    /// Who waits for whom, as it is kept.
    pub fn kept_view(&self) -> &View
        ensures { Follows result.now (server_of self.now) }
    {
        self.engine.callbacks.kept_view()
    }
}

/// The greater one of two incarnations; none is less than any.
fn greater(first: Option<Incarnation>, second: Option<Incarnation>) -> Option<Incarnation>
    ensures first { or_zero first ≤ or_zero result }
    ensures second { or_zero second ≤ or_zero result }
    ensures either { (or_zero result ≡ or_zero first) ⊎ (or_zero result ≡ or_zero second) }
{
    match (first, second) {
        (Some(a), Some(b)) => Some(if a < b { b } else { a }),
        (Some(a), None) => Some(a),
        (None, second) => second,
    }
}
