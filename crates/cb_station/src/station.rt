//! The type, its opening, and what it shows.
ghost use Rattle.std.specs.Prelude.{◌≡◌, ◌≢◌, ◌↔◌, ◌<◌, ◌≤◌, ◌+◌, ℕ, [], true, false, IfErr};
ghost use Rattle.std.specs.Prelude.{IfOk, IfSome, IsSome, IsTrue, OnErr, OnOk, Ok};
ghost use Rattle.std.specs.Option.{option_map};
ghost use Rattle.cb_hands.specs.Agreement.{Meet};
ghost use Rattle.cb_commit.specs.History.{CatchesUp};
ghost use Rattle.cb_commit.specs.Stores.{IsOf};
ghost use Rattle.cb_server_state.specs.Commits.{batch_of};
ghost use Rattle.cb_hands.specs.Joined.{IsHeld};
ghost use Rattle.cb_mailboxes.specs.Mail.{HasMail};
ghost use Rattle.cb_station.specs.Moves.{IsKnown, IsOwn};
ghost use Rattle.cb_station.specs.Stations.{IsStation, forgot, mailbox_of, remembered, server_of};
ghost use Rattle.cb_station.specs.declared.office_fault.OfficeFault.TheVariants as office;
ghost use Rattle.cb_station.specs.Opening.{IsOpened};
ghost use Rattle.cb_station.specs.Telling.{untold_in, with_untold};
ghost use Rattle.cb_page.specs.Clients.{has, without};
ghost use Rattle.cb_page.specs.Numbers.{max_number};
ghost use Rattle.cb_protocol.specs.Flush.{can_flush, next_batch};
ghost use Rattle.cb_server.specs.ServerValue.{IsNew, IsResumed, commits_of};

mod admitting;
mod collecting;
mod committing;
mod entering;
mod flags;
mod reporting;
mod taking;

use crate::office_fault::OfficeFault;
pub use crate::station::admitting::{EndedTry, Ticket};
pub(crate) use crate::station::flags::Expected;
use crate::station::flags::Flags;
pub use crate::station::reporting::Reported;
use cb_commit::{Batch, Past, Store};
use cb_frame::Frame;
use cb_hands::{Entry, Hand, JoinedHands};
use cb_mailboxes::Dispatcher;
use cb_page::{ClientNo, ClientSet, CommitNo, Incarnation, Limits};
use cb_shelf::Written;
use std::alloc::{AllocError, Global};
use std::marker::Model;

/// A server that several clients share, with what each joined client's hand shows, what is to be
/// sent to each, the history of commits, and what the threads that share it tell each other:
/// whether it is closed, whether it is halted, how many calls of `work` are still to end, how many
/// are going on, and which tries of transactions are let in. It also has who is still to be told of
/// what was done; [`crate::Office::tell`] tells them, under the same lock.
///
/// Once it is closed no call of `work` begins. Those that are going on do all their jobs, and the
/// flusher ends when none is left and all is written. A halted station is closed, and every call
/// that waits for it gives up. Whoever commits without `work` is counted by `begin_work` and
/// `end_work`. A commit for which nobody was counted may come after the flusher has ended; then it
/// is in memory alone, and never on disk.
///
/// `history` says what holds of it whenever nobody has it. The calls that take a frame, a hand, a
/// client or a batch take memory, except `meet` and `has_frame_for`.
pub struct Station {
    dispatcher: Dispatcher,
    hands: JoinedHands,
    /// As many of its entries are forgotten as the server forgot commits.
    history: Past<Entry>,
    flags: Flags,
}

// By hand: see docs/PROVING.md, "Drops".
impl Drop for Station {
    fn drop(self) {
        let Station {
            dispatcher: _,
            hands: _,
            history: _,
            flags: _,
        } = self;
    }
}

impl Model for Station {
    ghost use Rattle.std.specs.Prelude.{◌≡◌};
    ghost use Rattle.cb_station.specs.Stations.{IsStation, StationState};
    ghost use Rattle.cb_server.specs.ServerValue.{commits_of, server_of};
    ghost use Rattle.cb_station.specs.Written.{HoldsWritten};

    ghost Value = { StationState };

    ghost view = { λ station. record {
      dispatcher = station.dispatcher;
      hands = station.hands;
      history = station.history.items;
      flags = station.flags;
    } };

    ghost invariant = { λ station. IsStation (record {
      dispatcher = station.dispatcher;
      hands = station.hands;
      history = station.history.items;
      flags = station.flags;
    })
        × (station.history.forgotten ≡ (commits_of station.dispatcher.server).forgotten)
        × HoldsWritten (server_of station.dispatcher.server) station.hands };
}

impl Station {
    /// A station over a store, which nobody has joined. Write permissions may not be kept. It is
    /// open, and expects one call of `work`, unless `Office::new` says how many. `AllocError` only
    /// if memory was refused.
    pub fn new(alloc: Global, limits: &Limits, store: Store) -> Result<Station, AllocError>
        requires store { IsOf limits.now store }
        requires plain { limits.now.keep_write ≡ false }
        ensures new { IfOk result (λ station.
            IsNew limits.now store station.dispatcher.server) }
        ensures opened { IfOk result (IsOpened limits.now) }
    {
        Ok(Station {
            dispatcher: Dispatcher::new(alloc, limits, store)?,
            hands: JoinedHands::new(alloc, limits.clients())?,
            history: Past::new(alloc),
            flags: Flags::new(),
        })
    }

    /// The same in a later life of the server, as [`Server::resume`](cb_server::Server::resume)
    /// makes it. Whoever joins has an incarnation above the floor. The clients of former lives, and
    /// what they sent, are ignored.
    pub fn resume(
        alloc: Global,
        limits: &Limits,
        store: Store,
        floor: Incarnation,
    ) -> Result<Station, AllocError>
        requires store { IsOf limits.now store }
        requires plain { limits.now.keep_write ≡ false }
        ensures resumed { IfOk result (λ station.
            IsResumed limits.now store floor station.dispatcher.server) }
        ensures opened { IfOk result (IsOpened limits.now) }
    {
        let clients = limits.clients();
        Ok(Station {
            dispatcher: Dispatcher::resume(alloc, limits, store, floor)?,
            hands: JoinedHands::new(alloc, clients)?,
            history: Past::new(alloc),
            flags: Flags::new(),
        })
    }

    /// The commits that weren't forgotten, in order. A clause says that all commits that there
    /// were, and what is stored of the hands, are as the server has it, and that a halted station
    /// is closed. Another clause says that the server sent each frame in a mailbox since it began,
    /// to that mailbox's client. If the row of a copy in a mailbox stands, the copy has the store's
    /// bytes and version, unless its client wrote the page since.
    pub fn history(&self) -> &[Entry]
        ensures value { result.now ≡ remembered self.now }
        ensures sound { IsStation self.now }
        ensures mail { HasMail self.now.dispatcher }
    {
        // What lies in a mailbox was said by the server: `server` says so.
        let _known = self.dispatcher.server();
        self.history.remembered()
    }

    /// The limits of its store and its clients.
    pub fn limits(&self) -> &Limits
        ensures { result.now ≡ self.now.dispatcher.server.limits }
    {
        self.dispatcher.server().limits()
    }

    /// Whether the hands are of two clients, and each is what is stored of it. Then both show the
    /// same version of each page that both hold, and neither may write such a page.
    pub fn meet(&self, one: &Hand, other: &Hand) -> Result<(), OfficeFault>
        ensures ok { (result ≡ Ok tt) ↔ (IsHeld self.now.hands one.now
            × IsHeld self.now.hands other.now × (one.now.client ≢ other.now.client)) }
        ensures err { IfErr result (λ fault. fault ≡ office.Foreign) }
        ensures met { OnOk result (Meet one.now other.now) }
    {
        // The station agrees with its hands, whatever was called before.
        let _known = self.history();
        if self.hands.knows(one) && self.hands.knows(other) && one.client() != other.client() {
            Ok(())
        } else {
            Err(OfficeFault::Foreign)
        }
    }

    /// Whether the hand is the one that is stored of its client: all its pages are compared.
    /// `take`, `collect` and `commit` ask this each time. Whoever makes several calls under one
    /// lock asks once, and makes `take_if_known`, `collect_if_known` and `commit_if_known`, which
    /// are told the answer. It stays right, whatever these three return.
    pub fn knows(&self, hand: &Hand) -> bool
        ensures { IsKnown result self.now hand.now }
    {
        self.hands.knows(hand)
    }

    /// Whether a frame is to be sent to the client, so that `collect` returns one. Nothing is sent
    /// to a client that doesn't exist.
    pub fn has_frame_for(&self, client: ClientNo) -> bool
        ensures { IsTrue result ↔ ((client < self.now.dispatcher.server.limits.clients)
            × (mailbox_of self.now client ≢ [])) }
    {
        self.dispatcher.server().limits().has_client(client.get())
            && self.dispatcher.has_frame_for(client)
    }

    /// The clients that are to be told that there is something for them: those to which the server
    /// sent something, and the one that is to be let in next.
    pub fn untold(&self) -> ClientSet
        ensures { result ≡ untold_in self.now }
    {
        self.dispatcher.untold()
    }

    /// The client was told.
    pub(crate) fn told(&mut self, client: ClientNo)
        ensures rest { self.new ≡ with_untold self.old (untold_in self.new) }
        ensures told { (other : ℕ) → has (untold_in self.new) other
            ≡ without (untold_in self.old) client other }
    {
        self.dispatcher.told(client);
    }

    /// What is to be written to disk next; `None` if every commit is on disk. `Memory` only if a
    /// growth was refused, so never if there is nothing to write.
    pub fn batch(&self, alloc: Global) -> Result<Option<Batch>, OfficeFault>
        ensures batch { IfOk result (λ batch.
            option_map batch_of batch ≡ next_batch (server_of self.now)) }
        ensures catches_up { IfOk result (λ batch.
            IfSome batch (CatchesUp (commits_of self.now.dispatcher.server))) }
        ensures can_flush { IfOk result (λ batch.
            IfSome batch (λ b. can_flush (server_of self.now) b.number ≡ true)) }
        ensures err { IfErr result (λ fault. fault ≡ office.Memory) }
        ensures needed { OnErr result
            ((server_of self.now).flushed < (server_of self.now).store.last_commit) }
    {
        Ok(self.dispatcher.server().batch(alloc)?)
    }

    /// Whether the commits up to this number are on disk.
    pub fn is_on_disk(&self, number: CommitNo) -> bool
        ensures { IsTrue result ↔ (number ≤ (server_of self.now).flushed) }
    {
        number.get() <= self.dispatcher.server().state().commits.last_flushed()
    }

    /// Forgets the commits up to a batch that was written and reported: they leave memory, and so
    /// do their entries of the history. Its cost grows with their number alone, however many are
    /// left. Nothing changes if they were forgotten before, or if no commit has a number as low.
    pub fn forget(&mut self, written: Written)
        requires on_disk { written ≤ (server_of self.old).flushed }
        ensures { self.new ≡ forgot self.old written }
    {
        self.dispatcher.forget(written.number());
        let commits = &self.dispatcher.server().state().commits;
        let count = self.history.remembered().len() - commits.committed().len();
        self.history.forget(count);
    }

    /// Whether that commit was made and isn't on disk yet.
    pub fn can_flush(&self, number: CommitNo) -> bool
        ensures { result ≡ can_flush (server_of self.now) number }
    {
        self.dispatcher.server().can_flush(number)
    }

    /// The number of the next commit; `None` if none is left.
    pub fn next_commit(&self) -> Option<CommitNo>
        ensures value { IfSome result (λ number.
            number ≡ (server_of self.now).store.last_commit + 1) }
        ensures left { IsSome result ↔ ((server_of self.now).store.last_commit < max_number) }
    {
        self.dispatcher.server().state().commits.next_number()
    }

    /// Whether the frame fits the limits and is of the hand's client and incarnation, and the hand
    /// is known.
    fn is_own(&self, frame: &Frame, hand: &Hand, known: bool) -> bool
        requires { IsKnown known self.now hand.now }
        ensures { IsTrue result ↔ IsOwn self.now frame.now hand.now }
    {
        frame.client == hand.client()
            && frame.incarnation == hand.incarnation()
            && frame.fits(self.dispatcher.server().limits())
            && known
    }
}
