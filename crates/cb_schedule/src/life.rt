//! The next life of a server: whether it may begin, its store, and its server.
ghost use Rattle.std.specs.Prelude.{◌≡◌, ◌+◌, ◌≤◌, ◌↔◌, length, take, IfOk, IsTrue};
ghost use Rattle.std.specs.List.{All};
ghost use Rattle.cb_commit.specs.History.{Numbered, store_after, store_at};
ghost use Rattle.cb_commit.specs.Stores.{IsOf};
ghost use Rattle.cb_page.specs.Numbers.{max_number};
ghost use Rattle.cb_protocol.specs.LivesWorld.{MayBeOnDisk};
ghost use Rattle.cb_server.specs.ServerValue.{IsResumed, commits_of, server_of};
ghost use Rattle.cb_schedule.specs.NextLife.{FitsStore, IsNewFloorOf, LeavesStore};

use cb_commit::{Commit, Commits, Store};
use cb_frame::Writes;
use cb_page::{Incarnation, Limits};
use cb_server::Server;
use std::alloc::{AllocError, Global};

/// Whether the floor is a new one: above the present one, and above each incarnation that the
/// server took a Hello of.
pub(crate) fn is_new_floor(server: &Server, present: u64, floor: Incarnation) -> bool
    ensures { IsTrue result ↔ IsNewFloorOf (server_of server.now) present floor }
{
    if present >= floor.get() {
        return false;
    }
    match server.greatest_known() {
        Some(known) => known.get() < floor.get(),
        None => true,
    }
}

/// Whether the disk may have the commits up to that number: at least those that the server was told
/// of, and none that it didn't make.
pub(crate) fn may_be_on_disk(server: &Server, number: u64) -> bool
    ensures { IsTrue result ↔ MayBeOnDisk (server_of server.now) number }
{
    let commits = &server.state().commits;
    commits.last_flushed() <= number && number <= commits.store().number()
}

/// The store that the disk has if it has the commits up to that number, and the server that begins
/// its life with it. `AllocError` only if memory was refused.
pub(crate) fn next_life(
    alloc: Global,
    limits: &Limits,
    server: &Server,
    opening: &Store,
    floor: Incarnation,
    number: u64,
) -> Result<(Store, Server), AllocError>
    requires limits { server.now.limits ≡ limits.now }
    requires opening { (commits_of server.now).opening ≡ opening.now }
    requires forgotten { (commits_of server.now).forgotten ≡ 0 }
    requires number { MayBeOnDisk (server_of server.now) number }
    ensures store { IfOk result (λ life. LeavesStore server.now number life.0) }
    ensures server { IfOk result (λ life.
        IsResumed limits.now (store_at (commits_of server.now) number) floor life.1) }
{
    // How it arose, and how its commits are numbered, these calls say.
    let _arose = server.limits();
    let _numbered = server.state().commits.last_flushed();
    let _last = server.state().commits.store().number();
    let count = (number - opening.number()) as usize;
    let store = store_on_disk(alloc, limits, opening, first(server.committed(), count))?;
    let resumed = Server::resume(alloc, limits, store.copy(alloc)?, floor)?;
    Ok((store, resumed))
}

/// The first commits, so many.
fn first(commits: &[Commit], count: usize) -> &[Commit]
    requires { count ≤ length commits.now }
    ensures { result.now ≡ take count commits.now }
{
    &commits[..count]
}

/// A store with these commits written over it, the first one first. `AllocError` only if memory was
/// refused.
fn store_on_disk(
    alloc: Global,
    limits: &Limits,
    opening: &Store,
    commits: &[Commit],
) -> Result<Store, AllocError>
    requires of { IsOf limits.now opening.now }
    requires fit { All (FitsStore opening.now) commits.now }
    requires numbered { Numbered opening.now.number commits.now }
    requires last { opening.now.number + length commits.now ≤ max_number }
    ensures { IfOk result (λ store. store ≡ store_after opening.now commits.now) }
{
    let mut written = Commits::new(alloc, limits, opening.copy(alloc)?)?;
    for commit in commits {
        let writes = Writes::copy_of(alloc, commit.writes.as_slice())?;
        let applied = written.apply(commit.client, commit.incarnation, commit.txn, writes);
        if applied.is_err() {
            return Err(AllocError);
        }
    }
    written.store().copy(alloc)
}
