//! Rounds until the input ends.
ghost use Rattle.std.specs.Prelude.{◌≡◌, ◌≢◌, ◌<◌, [], length, Err, IfErr, IfOk, OnOk};
ghost use Rattle.cb_commit.specs.Stores.{IsOf};
ghost use Rattle.cb_server.specs.Knowing.{KnowsBelow};
ghost use Rattle.cb_server.specs.ServerValue.{IsResumed, server_of};
ghost use Rattle.cb_serve.specs.Parts.{standing};
ghost use Rattle.cb_serve.specs.Serving.{HoldsStore, IsServed, Serves, refused};

use crate::fault::{RoundFault, ServeFault};
use crate::round::{Buffers, RoundEnd, round};
use cb_commit::Store;
use cb_page::{Incarnation, Limits};
use cb_server::Server;
use cb_shelf::{Life, Shelf};
use sqlite::Alter;
use std::alloc::{AllocError, Global};
use std::io::{Read, Write};

/// How many bytes are read at once.
const ROOM: usize = 1_048_576;

/// The outcome of serving.
#[derive(Debug, Drop)]
pub struct Served {
    /// How many frames couldn't be read and were passed over.
    pub passed_over: u64,
    /// Whether it ended with the input, or why it ended before.
    pub ending: Result<(), ServeFault>,
}

impl Served {
    /// Serving was refused before any round.
    pub fn refused(fault: RoundFault) -> Served
        ensures { result ≡ refused fault }
    {
        Served {
            passed_over: 0,
            ending: Err(ServeFault::Round(fault)),
        }
    }
}

/// Serves rounds until the input ends.
fn serve_rounds<S: Alter, R: Read, W: Write>(
    alloc: Global,
    server: &mut Server,
    buffers: &mut Buffers,
    room: &mut [u8],
    shelf: &mut Shelf<S>,
    life: &mut Life,
    input: &mut R,
    output: &mut W,
) -> Result<(), ServeFault>
    requires room { 0 < length room.old }
    requires limits { shelf.old.limits ≡ server.old.limits }
    requires empty { buffers.old.pending.items ≡ [] }
    requires known { KnowsBelow (server_of server.old) life.old.below }
    ensures serves { Serves S.Store server.old.limits result buffers.new.passed_over
        (standing S.Store server.old buffers.old shelf.old.conn) life.old shelf.new.conn
        (R.remaining input.old) (R.remaining input.new)
        (W.contents output.old) (W.contents output.new) }
    ensures limits { shelf.new.limits ≡ shelf.old.limits }
{
    for _count in 0..u64::MAX {
        let end = match round(alloc, server, buffers, room, shelf, life, input, output) {
            Ok(end) => end,
            Err(fault) => return Err(ServeFault::Round(fault)),
        };
        match end {
            RoundEnd::NoFrame => return Err(ServeFault::NoFrame),
            RoundEnd::Ended => return ended(buffers.pending.as_slice()),
            RoundEnd::GoesOn => {}
        }
    }
    Err(ServeFault::Endless)
}

/// How it ends when the input does: within a frame, if bytes are left.
fn ended(pending: &[u8]) -> Result<(), ServeFault>
    ensures ok { OnOk result (pending.now ≡ []) }
    ensures cut { IfErr result (λ fault. (fault ≡ ServeFault.Cut) × (pending.now ≢ [])) }
{
    if pending.is_empty() {
        Ok(())
    } else {
        Err(ServeFault::Cut)
    }
}

/// Serves the frames of the input over a store, as one life of the server, until the input ends.
/// The protocol's server takes each frame in order, and its answers go to the output. What the
/// frames of one read committed is written in one transaction, and answered after that. A frame
/// that can't be read is passed over. A Hello for which the life can't be given room is ignored.
/// Before any other Hello is welcomed, the tables tell a number above its incarnation.
///
/// It ends with the input, or for one of these causes. The input goes on with a header that no
/// frame has, or ends within a frame. A read, a write or a flush was refused
/// ([`RefusedCall`](crate::RefusedCall)), and not because a signal interrupted it. After something
/// was read, the tables refused, no number was left, or memory was refused. Or 2^64 - 1 rounds were
/// done. Each round reads something.
///
/// The shelf's tables have to hold the store, as a load of them says; each round writes over it.
/// Before any round, only want of memory refuses it.
pub fn serve<S: Alter, R: Read, W: Write>(
    alloc: Global,
    limits: &Limits,
    store: Store,
    life: Life,
    shelf: &mut Shelf<S>,
    input: &mut R,
    output: &mut W,
) -> Served
    requires shelf { shelf.old.limits ≡ limits.now }
    requires store { IsOf limits.now store }
    requires holds { HoldsStore S.Store store shelf.old.conn }
    ensures { IsServed S.Store limits.now store life result shelf.old.conn shelf.new.conn
        (R.remaining input.old) (R.remaining input.new)
        (W.contents output.old) (W.contents output.new) }
{
    let mut life = life;
    match begin(alloc, limits, store, life.floor()) {
        Err(AllocError) => Served::refused(RoundFault::Memory),
        Ok((mut server, mut room)) => {
            let mut buffers = Buffers {
                pending: Vec::new(alloc),
                said: Vec::new(alloc),
                passed_over: 0,
            };
            let ending = serve_rounds(
                alloc,
                &mut server,
                &mut buffers,
                room.as_mut_slice(),
                shelf,
                &mut life,
                input,
                output,
            );
            Served {
                passed_over: buffers.passed_over,
                ending,
            }
        }
    }
}

/// The server of a life over a store, and room for what is read.
fn begin(
    alloc: Global,
    limits: &Limits,
    store: Store,
    floor: Incarnation,
) -> Result<(Server, Vec<u8>), AllocError>
    requires { IsOf limits.now store }
    ensures server { IfOk result (λ made. IsResumed limits.now store floor made.0) }
    ensures room { IfOk result (λ made. 0 < length made.1.items) }
{
    let server = Server::resume(alloc, limits, store, floor)?;
    let room = vec![in alloc; 0u8; ROOM]?;
    Ok((server, room))
}
