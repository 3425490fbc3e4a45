//! The calls of a server, and of the rows that it opens over.
ghost use Rattle.std.specs.Prelude.{◌≡◌, ◌⊎◌, Err, IfOk, None, OnErr, length};
ghost use Rattle.cb_handle.specs.Causes.{Decides, batch_cause, flushed_cause, forget_cause};
ghost use Rattle.cb_handle.specs.Causes.{incarnation_cause, leave_cause, memory, never, no_opening};
ghost use Rattle.cb_handle.specs.Causes.{page_cause, row_cause, serve_cause};
ghost use Rattle.cb_handle.specs.Objects.{AddsRow, CanFlush, Flushes, Forgets, IsLeft};
ghost use Rattle.cb_handle.specs.Objects.{IsNextIncarnation, Leaves, MakesBatch, Opens, Servers};
ghost use Rattle.cb_handle.specs.Objects.{Serves, ShowsPage};
ghost use Rattle.cb_handle.specs.declared.object.Object.TheVariants as object;
ghost use Rattle.cb_handle.specs.declared.refusal.HandleRefusal.TheVariants as refusal;

use crate::object::Object;
use crate::opening::Opening;
use crate::polled_server::PolledServer;
use crate::refusal::HandleRefusal;
use cb_page::Limits;
use std::alloc::Global;
use std::mem::replace;

impl Object {
    /// A server over a store of zeros.
    pub fn server(alloc: Global, limits: &Limits) -> Result<Object, HandleRefusal>
        ensures server { IfOk result (Servers limits.now) }
        ensures why { Decides None memory result }
    {
        Ok(Object::Server(PolledServer::zeros(alloc, limits)?))
    }

    /// No rows yet, of a store whose last commit has this number, for a server in the life with
    /// this floor. A floor of 0 means that the server keeps no lives.
    pub fn opening(
        alloc: Global,
        limits: &Limits,
        number: u64,
        floor: u64,
    ) -> Result<Object, HandleRefusal>
        ensures rows { IfOk result (Opens limits.now number floor) }
        ensures why { Decides (no_opening number floor) never result }
    {
        Ok(Object::Opening(Opening::new(alloc, limits, number, floor)?))
    }

    /// The row of the next page.
    pub fn row(&mut self, alloc: Global, version: u64, bytes: &[u8]) -> Result<(), HandleRefusal>
        ensures ok { IfOk result (λ _. AddsRow self.old version bytes.now self.new) }
        ensures why { Decides (row_cause self.old version (length bytes.now)) memory result }
        ensures err { OnErr result (IsLeft self.old self.new) }
    {
        match self {
            Object::Opening(opening) => opening.row(alloc, version, bytes),
            _ => Err(HandleRefusal::OtherKind),
        }
    }

    /// Makes the server over the rows. `Room` if there isn't one row for each page. If memory was
    /// refused, the rows are gone, and the handle holds nothing.
    pub fn serve(&mut self, alloc: Global) -> Result<(), HandleRefusal>
        ensures ok { IfOk result (λ _. Serves self.old self.new) }
        ensures why { Decides (serve_cause self.old) memory result }
        ensures err { OnErr result ((result ≡ Err refusal.Memory) ⊎ (self.new ≡ self.old)) }
        ensures gone { result ≡ Err refusal.Memory → self.new ≡ object.Nothing }
    {
        let opening = match replace(self, Object::Nothing) {
            Object::Opening(opening) => opening,
            other => {
                *self = other;
                return Err(HandleRefusal::OtherKind);
            }
        };
        let (limits, store, floor) = match opening.into_store() {
            Ok(opened) => opened,
            Err(opening) => {
                *self = Object::Opening(opening);
                return Err(HandleRefusal::Room);
            }
        };
        let Ok(polled) = PolledServer::over(alloc, &limits, store, floor) else {
            return Err(HandleRefusal::Memory);
        };
        *self = Object::Server(polled);
        Ok(())
    }

    /// Makes the batch that is to be written next. Returns its number, and how many pages it has.
    pub fn batch(
        &mut self,
        alloc: Global,
        number: &mut u64,
        pages: &mut usize,
    ) -> Result<(), HandleRefusal>
        ensures ok { IfOk result (λ _. MakesBatch self.old number.new pages.new self.new) }
        ensures why { Decides (batch_cause self.old) memory result }
        ensures number { OnErr result (number.new ≡ number.old) }
        ensures pages { OnErr result (pages.new ≡ pages.old) }
        ensures err { OnErr result (IsLeft self.old self.new) }
    {
        match self {
            Object::Server(polled) => {
                let (commit, count) = polled.make_batch(alloc)?;
                *number = commit.get();
                *pages = count;
                Ok(())
            }
            _ => Err(HandleRefusal::OtherKind),
        }
    }

    /// A page of the batch: its number, version and bytes.
    pub fn batch_page(
        &self,
        at: usize,
        room: &mut [u8],
        page: &mut u32,
        version: &mut u64,
    ) -> Result<(), HandleRefusal>
        ensures ok { IfOk result (λ _.
            ShowsPage self.now at room.new page.new version.new) }
        ensures why { Decides (page_cause self.now at (length room.old)) never result }
        ensures page { OnErr result (page.new ≡ page.old) }
        ensures version { OnErr result (version.new ≡ version.old) }
        ensures kept { OnErr result (room.new ≡ room.old) }
    {
        match self {
            Object::Server(polled) => {
                let (no, of) = polled.batch_page(at, room)?;
                *page = no;
                *version = of;
                Ok(())
            }
            _ => Err(HandleRefusal::OtherKind),
        }
    }

    /// Whether that commit was made and isn't on disk yet.
    pub fn can_flush(&self, number: u64) -> bool
        ensures { CanFlush self.now number result }
    {
        match self {
            Object::Server(polled) => polled.can_flush(number),
            _ => false,
        }
    }

    /// The commits up to this number are on disk now.
    pub fn flushed(&mut self, alloc: Global, number: u64) -> Result<(), HandleRefusal>
        ensures ok { IfOk result (λ _. Flushes self.old number self.new) }
        ensures why { Decides (flushed_cause self.old number) memory result }
        ensures err { OnErr result (IsLeft self.old self.new) }
    {
        match self {
            Object::Server(polled) => polled.flushed(alloc, number),
            _ => Err(HandleRefusal::OtherKind),
        }
    }

    /// Forgets the commits up to this number, which is on disk: they leave memory.
    pub fn forget(&mut self, number: u64) -> Result<(), HandleRefusal>
        ensures ok { IfOk result (λ _. Forgets self.old number self.new) }
        ensures why { Decides (forget_cause self.old number) never result }
        ensures err { OnErr result (IsLeft self.old self.new) }
    {
        match self {
            Object::Server(polled) => polled.forget(number),
            _ => Err(HandleRefusal::OtherKind),
        }
    }

    /// A client went away. At the server its next incarnation begins, which belongs to nobody.
    pub fn leave(&mut self, alloc: Global, client: u32) -> Result<(), HandleRefusal>
        ensures ok { IfOk result (λ _. Leaves self.old client self.new) }
        ensures why { Decides (leave_cause self.old client) memory result }
        ensures err { OnErr result (IsLeft self.old self.new) }
    {
        match self {
            Object::Server(polled) => polled.leave(alloc, client),
            _ => Err(HandleRefusal::OtherKind),
        }
    }

    /// The incarnation that the client may greet with next.
    pub fn next_incarnation(&self, client: u32) -> Result<u64, HandleRefusal>
        ensures next { IfOk result (λ incarnation.
            IsNextIncarnation self.now client incarnation) }
        ensures why { Decides (incarnation_cause self.now client) never result }
    {
        match self {
            Object::Server(polled) => {
                let (_client, next) = polled.next_incarnation(client)?;
                Ok(next.get())
            }
            _ => Err(HandleRefusal::OtherKind),
        }
    }
}
