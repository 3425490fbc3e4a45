//! The type, its opening, what it takes, and what it shows.
ghost use Rattle.std.specs.Prelude.{◌≡◌, ◌≢◌, ◌↔◌, ◌<◌, ◌≤◌, ℕ, [], slice_get, IfErr, IfOk};
ghost use Rattle.std.specs.Prelude.{IfSome, IsTrue, OnErr, OnOk, true, false, not, ◌==◌};
ghost use Rattle.std.specs.List.{AllByRecursion, filter};
ghost use Rattle.cb_commit.specs.Stores.{IsOf};
ghost use Rattle.cb_mailboxes.specs.Dispatching.{Everybody, IsUnchanged, Others, Posts, emptied};
ghost use Rattle.cb_mailboxes.specs.Dispatching.{forgot, mailbox_of, server_of, untold_in};
ghost use Rattle.cb_mailboxes.specs.Dispatching.{with_untold, without_oldest};
ghost use Rattle.cb_frame.specs.Grammar.{Fits};
ghost use Rattle.cb_mailboxes.specs.Mail.{HasMail, IsMailFor};
ghost use Rattle.cb_mailboxes.specs.Mailboxes.{AsBefore, IsNobody, current_in};
ghost use Rattle.cb_outbox.specs.Messages.{messages_of};
ghost use Rattle.cb_page.specs.Clients.{has, with, without};
ghost use Rattle.cb_protocol.specs.AnyMessages.{MessageComes, ReachesDisk};
ghost use Rattle.cb_protocol.specs.Flush.{can_flush};
ghost use Rattle.cb_protocol.specs.Messages.{Hello};
ghost use Rattle.cb_server.specs.ServerValue.{IsNew, IsResumed, IsServer, IsUnchanged as IsSame};
ghost use Rattle.cb_server.specs.Taking.{Does, Refuses, input_of, lacks_number_for};

use crate::mailboxes::Mailboxes;
use cb_commit::Store;
use cb_frame::{Frame, ShortBody, ShortFrame};
use cb_page::{ClientNo, ClientSet, CommitNo, Incarnation, Limits};
use cb_server::{Server, ServerFault};
use std::alloc::{AllocError, Global};
use std::marker::Model;

/// A server, and a mailbox for each of its clients.
///
/// Every call takes memory, except `server`, `has_frame_for`, `forget`, and the calls about who is
/// to be told.
pub struct Dispatcher {
    server: Server,
    mailboxes: Mailboxes,
}

// By hand: see docs/PROVING.md, "Drops".
impl Drop for Dispatcher {
    fn drop(self) {
        let Dispatcher {
            server: _,
            mailboxes: _,
        } = self;
    }
}

impl Model for Dispatcher {
    ghost use Rattle.std.specs.Prelude.{◌≡◌, length};
    ghost use Rattle.cb_mailboxes.specs.Dispatching.{DispatcherState};
    ghost use Rattle.cb_mailboxes.specs.Mail.{HasMail};

    ghost Value = { DispatcherState };

    ghost view = { λ d. record { server = d.server; mailboxes = d.mailboxes } };

    ghost invariant = { λ d. (length d.mailboxes.boxes ≡ d.server.limits.clients)
        × HasMail (record { server = d.server; mailboxes = d.mailboxes }) };
}

impl Dispatcher {
    /// A server over a store, all of which counts as on disk. It knows no client, and nothing is to
    /// be sent.
    ///
    /// The store isn't copied. `AllocError` only if memory was refused.
    pub fn new(alloc: Global, limits: &Limits, store: Store) -> Result<Dispatcher, AllocError>
        requires { IsOf limits.now store }
        ensures new { IfOk result (λ d. IsNew limits.now store d.server) }
        ensures mailbox { IfOk result (λ d. (client : ℕ) → mailbox_of d client ≡ []) }
        ensures untold { IfOk result (λ d. IsNobody (untold_in d)) }
        ensures arose { IfOk result (λ d. IsServer d.server) }
    {
        // No page is newer than the last commit: `number` says so.
        let _known = store.number();
        let mailboxes = Mailboxes::new(alloc, limits.clients())?;
        let server = Server::new(alloc, limits, store)?;
        // A new server has arisen.
        let _known = server.limits();
        Ok(Dispatcher { server, mailboxes })
    }

    /// The same with the server of a later life, as [`Server::resume`] makes it: it knows the floor
    /// of each client, and nothing else.
    ///
    /// The store isn't copied. `AllocError` only if memory was refused.
    pub fn resume(
        alloc: Global,
        limits: &Limits,
        store: Store,
        floor: Incarnation,
    ) -> Result<Dispatcher, AllocError>
        requires { IsOf limits.now store }
        ensures resumed { IfOk result (λ d. IsResumed limits.now store floor d.server) }
        ensures mailbox { IfOk result (λ d. (client : ℕ) → mailbox_of d client ≡ []) }
        ensures untold { IfOk result (λ d. IsNobody (untold_in d)) }
        ensures arose { IfOk result (λ d. IsServer d.server) }
    {
        // No page is newer than the last commit: `number` says so.
        let _known = store.number();
        let clients = limits.clients();
        let mailboxes = Mailboxes::new(alloc, clients)?;
        let server = Server::resume(alloc, limits, store, floor)?;
        // A resumed server has arisen.
        let _known = server.limits();
        Ok(Dispatcher { server, mailboxes })
    }

    /// The server. It sent each frame in a mailbox since it began, to that mailbox's client. If the
    /// row of a copy in a mailbox stands, the copy has the store's bytes and version, unless its
    /// client wrote the page since.
    pub fn server(&self) -> &Server
        ensures value { result.now ≡ self.now.server }
        ensures mail { HasMail self.now }
    {
        &self.server
    }

    /// The server takes a frame. `Exhausted` exactly if the server has no number left for it,
    /// whether a growth is refused or not. `Memory` only if a growth was refused.
    pub fn take(&mut self, alloc: Global, frame: &Frame) -> Result<(), ServerFault>
        requires { Fits self.old.server.limits frame.now }
        ensures ok { OnOk result
            (Posts self.old (input_of frame.now) (mailbox_of self.old) Everybody self.new) }
        ensures taken { OnOk result (lacks_number_for self.old.server frame.now ≡ false) }
        ensures arose { OnOk result (IsServer self.new.server) }
        ensures err { IfErr result (Refuses self.old.server frame.now) }
        ensures unchanged { OnErr result (IsUnchanged self.old self.new) }
    {
        let Ok(()) = self.make_ready() else {
            return Err(self.refusal(frame));
        };
        let said = self.server.take(alloc, frame)?;
        self.mailboxes.put(said);
        // The server still arises by the protocol's steps.
        let _known = self.server.limits();
        Ok(())
    }

    /// As `take`, but the frame is handed over: a commit's pages are moved, and the frame comes
    /// back with the fault.
    pub fn take_owned(&mut self, alloc: Global, frame: Frame) -> Result<(), (ServerFault, Frame)>
        requires { Fits self.old.server.limits frame }
        ensures ok { OnOk result
            (Posts self.old (input_of frame) (mailbox_of self.old) Everybody self.new) }
        ensures taken { OnOk result (lacks_number_for self.old.server frame ≡ false) }
        ensures arose { OnOk result (IsServer self.new.server) }
        ensures err { IfErr result (λ refused. Refuses self.old.server frame refused.0) }
        ensures back { IfErr result (λ refused. refused.1 ≡ frame) }
        ensures unchanged { OnErr result (IsUnchanged self.old self.new) }
    {
        let Ok(()) = self.make_ready() else {
            return Err((self.refusal(&frame), frame));
        };
        let said = self.server.take_owned(alloc, frame)?;
        self.mailboxes.put(said);
        // The server still arises by the protocol's steps.
        let _known = self.server.limits();
        Ok(())
    }

    /// Makes ready for what the server says next.
    fn make_ready(&mut self) -> Result<(), AllocError>
        ensures ready { OnOk result (self.new.mailboxes.late ≡ []) }
        ensures server { self.new.server ≡ self.old.server }
        ensures mailboxes { AsBefore (current_in (server_of self.old)) self.old.mailboxes
            self.new.mailboxes }
    {
        self.mailboxes.make_ready(self.server.state())?;
        Ok(())
    }

    /// Why a frame is refused for which a growth was refused: want of a number goes before want of
    /// memory.
    fn refusal(&self, frame: &Frame) -> ServerFault
        requires { Fits self.now.server.limits frame.now }
        ensures { Refuses self.now.server frame.now result }
    {
        if self.server.is_exhausted_by(frame) {
            ServerFault::Exhausted
        } else {
            ServerFault::Memory
        }
    }

    /// The server takes the Hello of a client's incarnation. What was to be sent to the client is
    /// dropped first.
    ///
    /// `AllocError` only if memory was refused.
    pub fn greet(
        &mut self,
        alloc: Global,
        client: ClientNo,
        incarnation: Incarnation,
    ) -> Result<(), AllocError>
        requires { client < self.old.server.limits.clients }
        ensures ok { OnOk result (Posts self.old (MessageComes client incarnation Hello)
            (emptied (mailbox_of self.old) client) Everybody self.new) }
        ensures arose { OnOk result (IsServer self.new.server) }
        ensures unchanged { OnErr result (IsUnchanged self.old self.new) }
    {
        self.mailboxes.make_ready(self.server.state())?;
        let said = hello(&mut self.server, alloc, client, incarnation)?;
        self.mailboxes.clear(client);
        self.mailboxes.put(said);
        // The server still arises by the protocol's steps.
        let _known = self.server.limits();
        Ok(())
    }

    /// As `greet`, but nothing is sent to the client, since nobody is that incarnation.
    ///
    /// `AllocError` only if memory was refused.
    pub fn dismiss(
        &mut self,
        alloc: Global,
        client: ClientNo,
        incarnation: Incarnation,
    ) -> Result<(), AllocError>
        requires { client < self.old.server.limits.clients }
        ensures ok { OnOk result (Posts self.old (MessageComes client incarnation Hello)
            (mailbox_of self.old) (Others client) self.new) }
        ensures silent { OnOk result (mailbox_of self.new client ≡ []) }
        ensures arose { OnOk result (IsServer self.new.server) }
        ensures unchanged { OnErr result (IsUnchanged self.old self.new) }
    {
        self.mailboxes.make_ready(self.server.state())?;
        let mut said = hello(&mut self.server, alloc, client, incarnation)?;
        keep_others(&mut said, client);
        self.mailboxes.clear(client);
        self.mailboxes.put(said);
        // The server still arises by the protocol's steps.
        let _known = self.server.limits();
        Ok(())
    }

    /// Whether a frame is to be sent to the client, so that `collect` answers one.
    pub fn has_frame_for(&self, client: ClientNo) -> bool
        requires { client < self.now.server.limits.clients }
        ensures { IsTrue result ↔ (mailbox_of self.now client ≢ []) }
    {
        self.mailboxes.has_frame_for(self.server.state(), client)
    }

    /// The clients that are to be told that there is something for them: each to which the server
    /// sent something since it was last told, or that was noticed.
    pub fn untold(&self) -> ClientSet
        ensures { result ≡ untold_in self.now }
    {
        self.mailboxes.untold()
    }

    /// Notes that the client is to be told too.
    pub fn notice(&mut self, client: ClientNo)
        ensures rest { self.new ≡ with_untold self.old (untold_in self.new) }
        ensures noticed { (other : ℕ) → has (untold_in self.new) other
            ≡ with (untold_in self.old) client other }
    {
        self.mailboxes.notice(client);
    }

    /// Notes that everybody is to be told.
    pub fn notice_all(&mut self)
        ensures rest { self.new ≡ with_untold self.old (untold_in self.new) }
        ensures all { (client : ℕ) → client < 32 → has (untold_in self.new) client ≡ true }
    {
        self.mailboxes.notice_all();
    }

    /// The client was told.
    pub fn told(&mut self, client: ClientNo)
        ensures rest { self.new ≡ with_untold self.old (untold_in self.new) }
        ensures told { (other : ℕ) → has (untold_in self.new) other
            ≡ without (untold_in self.old) client other }
    {
        self.mailboxes.told(client);
    }

    /// Takes the oldest frame to the client; `None` exactly if its mailbox is empty.
    ///
    /// `AllocError` only if memory was refused; nothing is taken then.
    pub fn collect(&mut self, client: ClientNo) -> Result<Option<Frame>, AllocError>
        requires { client < self.old.server.limits.clients }
        ensures oldest { IfOk result (λ frame.
            frame ≡ slice_get (mailbox_of self.old client) 0) }
        ensures sent { IfOk result (λ frame.
            IfSome frame (IsMailFor (server_of self.old) client)) }
        ensures rest { OnOk result ((other : ℕ) → mailbox_of self.new other
            ≡ without_oldest (mailbox_of self.old) client other) }
        ensures server { self.new.server ≡ self.old.server }
        ensures untold { untold_in self.new ≡ untold_in self.old }
        ensures unchanged { OnErr result (IsUnchanged self.old self.new) }
    {
        self.mailboxes.make_ready(self.server.state())?;
        Ok(self.mailboxes.collect(client))
    }

    /// The commits up to this number are on disk now.
    ///
    /// `AllocError` only if memory was refused.
    pub fn flushed(&mut self, alloc: Global, number: CommitNo) -> Result<(), AllocError>
        requires { can_flush (server_of self.old) number ≡ true }
        ensures ok { OnOk result
            (Posts self.old (ReachesDisk number) (mailbox_of self.old) Everybody self.new) }
        ensures arose { OnOk result (IsServer self.new.server) }
        ensures unchanged { OnErr result (IsUnchanged self.old self.new) }
    {
        self.mailboxes.make_ready(self.server.state())?;
        let said = self.server.flushed(alloc, number)?;
        self.mailboxes.put(said);
        // The server still arises by the protocol's steps.
        let _known = self.server.limits();
        Ok(())
    }

    /// Forgets the commits up to this number, which are on disk: they leave memory. What is to be
    /// sent stays.
    pub fn forget(&mut self, number: CommitNo)
        requires on_disk { number ≤ (server_of self.old).flushed }
        ensures { self.new ≡ forgot self.old number }
    {
        self.server.forget(number);
    }
}

/// The server takes the Hello of a client's incarnation, for which no number is ever lacking.
fn hello(
    server: &mut Server,
    alloc: Global,
    client: ClientNo,
    incarnation: Incarnation,
) -> Result<Vec<Frame>, AllocError>
    requires { client < server.old.limits.clients }
    ensures ok { IfOk result (λ said. Does server.old (MessageComes client incarnation Hello)
        (messages_of said.items) server.new) }
    ensures fits { IfOk result (λ said. AllByRecursion (Fits server.old.limits) said.items) }
    ensures unchanged { OnErr result (IsSame server.old server.new) }
{
    // In range by its type: `get` says so.
    let _known = incarnation.get();
    let frame = Frame::from(ShortFrame {
        client,
        incarnation,
        body: ShortBody::Hello,
    });
    match server.take(alloc, &frame) {
        Ok(said) => Ok(said),
        Err(_) => Err(AllocError),
    }
}

/// Only what is for other clients stays.
fn keep_others(said: &mut Vec<Frame>, client: ClientNo)
    ensures { said.new.items
        ≡ filter (λ frame. not (frame.client == client)) said.old.items }
{
    said.retain(|frame| frame.client != client);
}
