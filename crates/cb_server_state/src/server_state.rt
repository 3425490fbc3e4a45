//! The type, and its opening.
ghost use Rattle.std.specs.Prelude.{◌≡◌, ◌<◌, IfOk, length};
ghost use Rattle.cb_asks.specs.Asks.{IsSpent, Removes};
ghost use Rattle.cb_asks.specs.Marks.{HasMarks, is_in_use};
ghost use Rattle.cb_asks.specs.declared.ask.Fate.TheVariants as fate;
ghost use Rattle.cb_commit.specs.History.{begun};
ghost use Rattle.cb_commit.specs.Stores.{IsOf};
ghost use Rattle.cb_protocol.specs.Server.{new_server, without_marks};
ghost use Rattle.cb_protocol.specs.World.{opening_store};
ghost use Rattle.cb_server_state.specs.States.{AreOf, PartsAgree, limits_of, opening_of, server_of};

mod again;
mod asking;
mod commits;
mod holding_up;
mod known;
mod lost;
mod questions;
mod saying;
mod steps;

use cb_asks::{Asks, Fate, Marks};
use cb_commit::{Commits, Store};
use cb_directory::Directory;
use cb_links::Sessions;
use cb_page::{ClientNo, Limits};
use std::alloc::{AllocError, Global};

/// What a server knows of its clients and pages, who waits, and who uses a page that was called
/// back.
///
/// `new`, `apply_commit` and `commit_later` take memory; no other call does.
pub struct ServerState {
    /// The setting: a client keeps its permission to write a page after the transaction that it was
    /// given for.
    pub keep_write: bool,
    pub sessions: Sessions,
    pub directory: Directory,
    pub commits: Commits,
    pub asks: Asks,
    pub marks: Marks,
}

// By hand: see docs/PROVING.md, "Drops".
impl Drop for ServerState {
    fn drop(self) {
        let ServerState {
            keep_write: _,
            sessions: _,
            directory: _,
            commits: _,
            asks: _,
            marks: _,
        } = self;
    }
}

impl ServerState {
    /// No client is known, nobody waits, and nothing is committed over the store, which counts as
    /// on disk.
    ///
    /// The store isn't copied. `AllocError` only if memory was refused.
    pub fn new(alloc: Global, limits: &Limits, store: Store) -> Result<ServerState, AllocError>
        requires { IsOf limits.now store }
        ensures agree { IfOk result PartsAgree }
        ensures server { IfOk result (λ state. server_of state
            ≡ new_server limits.now.clients limits.now.pages
            (opening_store (limits_of limits.now) (opening_of store))) }
        ensures of { IfOk result (AreOf limits.now) }
        ensures commits { IfOk result (λ state. state.commits ≡ begun store) }
    {
        let asks = Asks::new(alloc, limits)?;
        let marks = Marks::new(alloc, limits)?;
        Ok(ServerState {
            keep_write: limits.keep_write(),
            sessions: Sessions::new(alloc, limits)?,
            directory: Directory::new(alloc, limits)?,
            commits: Commits::new(alloc, limits, store)?,
            asks,
            marks,
        })
    }
}

/// The client's marks go, and its ask, which is gone.
fn forget(asks: &mut Asks, marks: &mut Marks, client: ClientNo) -> Option<Fate>
    requires { client < length marks.old.by_client }
    ensures asks { Removes asks.old client asks.new }
    ensures marks { HasMarks marks.old marks.new (without_marks (is_in_use marks.old) client) }
    ensures fate { IsSpent asks.old client (fate.Gone client) result }
{
    marks.clear(client);
    let ask = asks.remove(client)?;
    Some(ask.gone())
}
