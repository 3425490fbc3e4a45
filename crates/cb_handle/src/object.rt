//! What a handle holds, and what may be called of it.
ghost use Rattle.std.specs.Prelude.{◌≡◌, ◌≢◌, IfErr, IfOk, OnErr, length};
ghost use Rattle.cb_handle.specs.Causes.{Decides, again_cause, again_may, fetch_cause, fetch_may};
ghost use Rattle.cb_handle.specs.Causes.{never, past_pages, take_cause, take_may};
ghost use Rattle.cb_handle.specs.Objects.{FetchesOne, IsLeft, SaysAgain, Takes};
ghost use Rattle.cb_handle.specs.declared.refusal.HandleRefusal.TheVariants as refusal;

mod clients;
mod servers;

use crate::opening::Opening;
use crate::polled_client::PolledClient;
use crate::polled_server::PolledServer;
use crate::refusal::HandleRefusal;
use cb_page::PageNo;
use std::alloc::Global;

/// What a handle holds.
#[derive(Drop)]
pub enum Object {
    /// Nothing.
    Nothing,
    /// Rows of a store, which becomes a server.
    Opening(Opening),
    /// A server.
    Server(PolledServer),
    /// A client.
    Client(PolledClient),
}

/// The page of this number; `Range` if no store has one.
fn page_of(page: u32) -> Result<PageNo, HandleRefusal>
    ensures page { IfOk result (λ no. no ≡ page) }
    ensures why { Decides (past_pages page) never result }
{
    if page < 4096 {
        Ok(PageNo::new(page))
    } else {
        Err(HandleRefusal::Range)
    }
}

impl Object {
    /// Takes the frame at the front of the bytes, and returns how many bytes it has.
    pub fn take(
        &mut self,
        alloc: Global,
        bytes: &[u8],
        used: &mut usize,
    ) -> Result<(), HandleRefusal>
        ensures ok { IfOk result (λ _. Takes self.old bytes.now used.new self.new) }
        ensures why { Decides (take_cause self.old bytes.now) (take_may self.old bytes.now) result }
        ensures used { OnErr result (used.new ≡ used.old) }
        ensures err { OnErr result (IsLeft self.old self.new) }
    {
        match self {
            Object::Server(polled) => {
                *used = polled.take(alloc, bytes)?;
                Ok(())
            }
            Object::Client(polled) => {
                *used = polled.take(alloc, bytes)?;
                Ok(())
            }
            _ => Err(HandleRefusal::OtherKind),
        }
    }

    /// Fetches the oldest frame that was sent. Returns the client that it comes from or goes to.
    pub fn fetch(
        &mut self,
        alloc: Global,
        room: &mut [u8],
        size: &mut usize,
        client: &mut u32,
    ) -> Result<(), HandleRefusal>
        ensures ok { IfOk result (λ _.
            FetchesOne self.old room.old room.new size.new client.new self.new) }
        ensures why { Decides (fetch_cause self.old)
            (fetch_may self.old (length room.old) size.new) result }
        ensures err { OnErr result (IsLeft self.old self.new) }
        ensures kept { OnErr result (room.new ≡ room.old) }
        ensures size { IfErr result (λ refused. refused ≢ refusal.Room → size.new ≡ size.old) }
        ensures client { OnErr result (client.new ≡ client.old) }
    {
        match self {
            Object::Server(polled) => {
                let no = polled.fetch(alloc, room, size)?;
                *client = u32::from(no.get());
                Ok(())
            }
            Object::Client(polled) => {
                let no = polled.fetch(alloc, room, size)?;
                *client = u32::from(no.get());
                Ok(())
            }
            _ => Err(HandleRefusal::OtherKind),
        }
    }

    /// Resends what may be lost.
    pub fn again(&mut self, alloc: Global) -> Result<(), HandleRefusal>
        ensures ok { IfOk result (λ _. SaysAgain self.old self.new) }
        ensures why { Decides (again_cause self.old) (again_may self.old) result }
        ensures err { OnErr result (IsLeft self.old self.new) }
    {
        match self {
            Object::Server(polled) => polled.again(alloc),
            Object::Client(polled) => polled.again(alloc),
            _ => Err(HandleRefusal::OtherKind),
        }
    }
}
