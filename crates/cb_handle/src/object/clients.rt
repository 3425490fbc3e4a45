//! The calls of a client.
ghost use Rattle.std.specs.Prelude.{◌≡◌, IfOk, None, OnErr, length};
ghost use Rattle.cb_handle.specs.Causes.{Decides, begin_cause, drop_cause, finish_cause};
ghost use Rattle.cb_handle.specs.Causes.{finish_may};
ghost use Rattle.cb_handle.specs.Causes.{hello_cause, memory, never, peek_cause, read_cause};
ghost use Rattle.cb_handle.specs.Causes.{unknown_client, want_cause, write_cause};
ghost use Rattle.cb_handle.specs.Objects.{Begins, Clients, Drops, Finishes, Greets, IsLeft, Peeks};
ghost use Rattle.cb_handle.specs.Objects.{Reads, ShowsOutcome, ShowsPermission, ShowsStatus};
ghost use Rattle.cb_handle.specs.Objects.{Wants, Writes};

use crate::object::{Object, page_of};
use crate::polled_client::PolledClient;
use crate::refusal::HandleRefusal;
use cb_page::Limits;
use std::alloc::Global;

impl Object {
    /// A client at the start of an incarnation.
    pub fn client(
        alloc: Global,
        no: u32,
        incarnation: u64,
        limits: &Limits,
    ) -> Result<Object, HandleRefusal>
        ensures client { IfOk result (Clients no incarnation limits.now) }
        ensures why { Decides (unknown_client limits.now no incarnation) memory result }
    {
        Ok(Object::Client(PolledClient::new(alloc, no, incarnation, limits)?))
    }

    /// Greets the server.
    pub fn hello(&mut self) -> Result<(), HandleRefusal>
        ensures ok { IfOk result (λ _. Greets self.old self.new) }
        ensures why { Decides (hello_cause self.old) never result }
        ensures err { OnErr result (IsLeft self.old self.new) }
    {
        match self {
            Object::Client(polled) => polled.hello(),
            _ => Err(HandleRefusal::OtherKind),
        }
    }

    /// Begins a transaction, and returns its number.
    pub fn begin(&mut self, txn: &mut u64) -> Result<(), HandleRefusal>
        ensures ok { IfOk result (λ _. Begins self.old txn.new self.new) }
        ensures why { Decides (begin_cause self.old) never result }
        ensures txn { OnErr result (txn.new ≡ txn.old) }
        ensures err { OnErr result (IsLeft self.old self.new) }
    {
        match self {
            Object::Client(polled) => {
                *txn = polled.begin()?;
                Ok(())
            }
            _ => Err(HandleRefusal::OtherKind),
        }
    }

    /// Reads a page. If `here` is true, its bytes are in the room; otherwise the page is asked for.
    pub fn read(&mut self, page: u32, room: &mut [u8], here: &mut bool) -> Result<(), HandleRefusal>
        ensures ok { IfOk result (λ _. Reads self.old page room.old room.new here.new self.new) }
        ensures why { Decides (read_cause self.old page (length room.old)) never result }
        ensures here { OnErr result (here.new ≡ here.old) }
        ensures err { OnErr result (IsLeft self.old self.new) }
        ensures kept { OnErr result (room.new ≡ room.old) }
    {
        match self {
            Object::Client(polled) => {
                let page = page_of(page)?;
                *here = polled.read(page, room)?;
                Ok(())
            }
            _ => Err(HandleRefusal::OtherKind),
        }
    }

    /// Asks to write a page. If `may` is true, it may be written at once; otherwise the permission
    /// is asked for.
    pub fn want(&mut self, page: u32, may: &mut bool) -> Result<(), HandleRefusal>
        ensures ok { IfOk result (λ _. Wants self.old page may.new self.new) }
        ensures why { Decides (want_cause self.old page) never result }
        ensures may { OnErr result (may.new ≡ may.old) }
        ensures err { OnErr result (IsLeft self.old self.new) }
    {
        match self {
            Object::Client(polled) => {
                let page = page_of(page)?;
                *may = polled.want(page)?;
                Ok(())
            }
            _ => Err(HandleRefusal::OtherKind),
        }
    }

    /// Writes a page.
    pub fn write(&mut self, page: u32, bytes: &[u8]) -> Result<(), HandleRefusal>
        ensures ok { IfOk result (λ _. Writes self.old page bytes.now self.new) }
        ensures why { Decides (write_cause self.old page bytes.now) never result }
        ensures err { OnErr result (IsLeft self.old self.new) }
    {
        match self {
            Object::Client(polled) => polled.write(page_of(page)?, bytes),
            _ => Err(HandleRefusal::OtherKind),
        }
    }

    /// Commits the transaction.
    pub fn finish(&mut self, alloc: Global) -> Result<(), HandleRefusal>
        ensures ok { IfOk result (λ _. Finishes self.old self.new) }
        ensures why { Decides (finish_cause self.old) (finish_may self.old) result }
        ensures err { OnErr result (IsLeft self.old self.new) }
    {
        match self {
            Object::Client(polled) => polled.finish(alloc),
            _ => Err(HandleRefusal::OtherKind),
        }
    }

    /// Ends the transaction without a commit.
    pub fn drop_txn(&mut self, alloc: Global) -> Result<(), HandleRefusal>
        ensures ok { IfOk result (λ _. Drops self.old self.new) }
        ensures why { Decides (drop_cause self.old) memory result }
        ensures err { OnErr result (IsLeft self.old self.new) }
    {
        match self {
            Object::Client(polled) => polled.drop_txn(alloc),
            _ => Err(HandleRefusal::OtherKind),
        }
    }

    /// 0 no client, 1 not welcome, 2 idle, 3 open, 4 waiting, 5 committing.
    pub fn status(&self) -> u32
        ensures { ShowsStatus self.now result }
    {
        match self {
            Object::Client(polled) => polled.status(),
            _ => 0,
        }
    }

    /// How the last transaction ended, and the number of its commit or 0: 0 none did, 1 committed,
    /// 2 dropped, 3 aborted.
    pub fn last(&self) -> (u32, u64)
        ensures { ShowsOutcome self.now result.0 result.1 }
    {
        match self {
            Object::Client(polled) => polled.last(),
            _ => (0, 0),
        }
    }

    /// The bytes of the client's copy of a page. This doesn't count as a reference to the page.
    pub fn peek(&self, page: u32, room: &mut [u8]) -> Result<(), HandleRefusal>
        ensures ok { IfOk result (λ _. Peeks self.now page room.new) }
        ensures why { Decides (peek_cause self.now page (length room.old)) never result }
        ensures kept { OnErr result (room.new ≡ room.old) }
    {
        match self {
            Object::Client(polled) => polled.peek(page_of(page)?, room),
            _ => Err(HandleRefusal::OtherKind),
        }
    }

    /// Whether the client may write the page now.
    pub fn may_write(&self, page: u32) -> bool
        ensures { ShowsPermission self.now page result }
    {
        match self {
            Object::Client(polled) => polled.may_write(page),
            _ => false,
        }
    }
}
