//! One round: what is there is read and taken, what was committed is written, and what is said goes
//! out.
ghost use Rattle.std.specs.Prelude.{◌≡◌, ◌≢◌, ◌++◌, ◌<◌, ◌≤◌, ℕ, List, [], drop, length, true};
ghost use Rattle.std.specs.Prelude.{false};
ghost use Rattle.std.specs.Prelude.{Some, IfErr, IfOk, OnOk};
ghost use Rattle.std.specs.Io.KnownBytes.{Consumes, IsAtEnd};
ghost use Rattle.sqlite.specs.Held.{state};
ghost use Rattle.sqlite.specs.State.{Survives};
ghost use Rattle.std.specs.List.{AllByRecursion};
ghost use Rattle.cb_frame.specs.Grammar.{Fits as FrameFits};
ghost use Rattle.cb_protocol.specs.Flush.{can_flush, next_batch};
ghost use Rattle.cb_server.specs.Knowing.{KnowsBelow};
ghost use Rattle.cb_server.specs.ServerValue.{server_of};
ghost use Rattle.cb_server_state.specs.Commits.{batch_of};
ghost use Rattle.cb_shelf.specs.Flushing.{WritesOne};
ghost use Rattle.cb_shelf.specs.Writing.{Fits, Wrote};
ghost use Rattle.cb_serve.specs.Living.{KeepsRoom};
ghost use Rattle.cb_serve.specs.Parts.{Answered, Commits, EndsRound, RefusesBatch};
ghost use Rattle.cb_serve.specs.Parts.{ReportsWritten, StopsCommit};
ghost use Rattle.cb_serve.specs.Parts.{StopsBehind, StopsReading, StopsRound, StopsWithin};
ghost use Rattle.cb_serve.specs.Parts.{standing};

use crate::calls::read_some;
use crate::fault::RoundFault;
use crate::lives::keep_room;
use crate::output::{append_frames, put_out};
use crate::taking::{Taken, take_all};
use cb_commit::Batch;
use cb_frame::Frame;
use cb_server::Server;
use cb_shelf::{Life, Shelf, Written};
use sqlite::Alter;
use std::alloc::Global;
use std::io::{Read, Write};

/// The bytes of a service, whose memory each round uses again.
#[derive(Drop)]
pub(crate) struct Buffers {
    /// The bytes that came and aren't taken yet: less than a whole piece, between two rounds.
    pub(crate) pending: Vec<u8>,
    /// What is to go out.
    pub(crate) said: Vec<u8>,
    /// How many pieces were passed over.
    pub(crate) passed_over: u64,
}

/// How a round ended.
#[derive(Clone, Copy, PartialEq, Eq)]
pub(crate) enum RoundEnd {
    /// The input goes on.
    GoesOn,
    /// The input has ended, and nothing was done.
    Ended,
    /// The input goes on with a header that no frame has.
    NoFrame,
}

/// Reads what is there, and appends it to the bytes that wait. Returns whether the input goes on,
/// which it does only if something was read. A refused read ends the round.
fn read_more<R: Read>(
    input: &mut R,
    room: &mut [u8],
    pending: &mut Vec<u8>,
) -> Result<bool, RoundFault>
    requires { 0 < length room.old }
    ensures ok { IfOk result (λ goes_on. (read : List ℕ)
        × (pending.new.items ≡ pending.old.items ++ read)
        × Consumes (R.remaining input.old) (R.remaining input.new) read
        × (goes_on ≡ true → read ≢ [])
        × (goes_on ≡ false → (read ≡ []) × IsAtEnd (R.remaining input.new))) }
    ensures err { IfErr result (λ fault. (read : List ℕ)
        × Consumes (R.remaining input.old) (R.remaining input.new) read
        × StopsReading fault read) }
{
    let count = match read_some(input, room) {
        Ok(0) => return Ok(false),
        Ok(count) => count,
        Err(refusal) => return Err(RoundFault::Input(refusal)),
    };
    pending.extend_from_slice(&room[..count])?;
    Ok(true)
}

/// Lets the first bytes go.
fn drop_front(bytes: &mut Vec<u8>, count: usize)
    requires { count ≤ length bytes.old.items }
    ensures { bytes.new.items ≡ drop count bytes.old.items }
{
    let left = bytes.len() - count;
    bytes.as_mut_slice().copy_within(count.., 0);
    bytes.truncate(left);
}

/// Takes all whole pieces and puts out the answers, once the shelf has room for the incarnations
/// that the server knows by then.
fn answer<S: Alter, W: Write>(
    alloc: Global,
    server: &mut Server,
    buffers: &mut Buffers,
    shelf: &mut Shelf<S>,
    life: &mut Life,
    output: &mut W,
) -> Result<Taken, RoundFault>
    requires { KnowsBelow (server_of server.old) life.old.below }
    ensures ok { IfOk result (λ taken. Answered server.old buffers.old buffers.new taken server.new
        (W.contents output.old) (W.contents output.new)) }
    ensures room { OnOk result (KeepsRoom S.Store (server_of server.new) life.old life.new
        shelf.old.conn shelf.new.conn) }
    ensures err { IfErr result (λ fault. StopsWithin S.Store fault server.old buffers.old
        buffers.new life.old shelf.old.conn shelf.new.conn
        (W.contents output.old) (W.contents output.new)) }
    ensures cause { IfErr result StopsBehind }
    ensures limits { shelf.new.limits ≡ shelf.old.limits }
{
    buffers.said.clear();
    let taken = take_all(
        alloc,
        server,
        life.end(),
        buffers.pending.as_slice(),
        &mut buffers.said,
        &mut buffers.passed_over,
    )?;
    drop_front(&mut buffers.pending, taken.used);
    keep_room(server, shelf, life)?;
    match put_out(output, buffers.said.as_slice()) {
        Ok(()) => Ok(taken),
        Err(error) => Err(RoundFault::Output(error)),
    }
}

/// Writes the next batch of a server, in one transaction. It fits: the server arose by the
/// protocol's steps, and each page keeps its size.
fn write_batch<S: Alter>(
    server: &Server,
    shelf: &mut Shelf<S>,
    batch: &Batch,
) -> Result<Written, RoundFault>
    requires limits { shelf.old.limits ≡ server.now.limits }
    requires next { next_batch (server_of server.now) ≡ Some (batch_of batch.now) }
    ensures fits { Fits server.now.limits batch.now }
    ensures number { IfOk result (λ written. written ≡ batch.now.number) }
    ensures ok { OnOk result (WritesOne S.Store server.now.limits batch.now shelf.old.conn
        shelf.new.conn) }
    ensures err { IfErr result (λ fault. RefusesBatch S.Store fault shelf.old.conn
        shelf.new.conn) }
    ensures crash { Survives (state S.Store shelf.old.conn) (state S.Store shelf.new.conn)
        (Wrote S.Store batch.now shelf.old.conn) }
    ensures limits { shelf.new.limits ≡ shelf.old.limits }
{
    // It arose by the protocol's steps: `limits` says so.
    let _arose = server.limits();
    match shelf.write(batch) {
        Ok(written) => Ok(written),
        Err(fault) => Err(RoundFault::from(fault)),
    }
}

/// Reports to the server that a batch was written, and forgets its commits. Returns the server's
/// answers.
fn report(alloc: Global, server: &mut Server, written: Written) -> Result<Vec<Frame>, RoundFault>
    requires { can_flush (server_of server.old) written ≡ true }
    ensures ok { IfOk result (λ dones. ReportsWritten server.old written dones.items
        server.new) }
    ensures fits { IfOk result (λ dones. AllByRecursion (FrameFits server.new.limits)
        dones.items) }
    ensures err { IfErr result (λ fault. fault ≡ RoundFault.Memory) }
{
    let number = written.number();
    let dones = server.flushed(alloc, number)?;
    server.forget(number);
    Ok(dones)
}

/// Writes what was committed, in one transaction, and then puts out its Dones.
fn commit<S: Alter, W: Write>(
    alloc: Global,
    server: &mut Server,
    shelf: &mut Shelf<S>,
    said: &mut Vec<u8>,
    output: &mut W,
) -> Result<(), RoundFault>
    requires { shelf.old.limits ≡ server.old.limits }
    ensures ok { OnOk result (Commits S.Store server.old shelf.old.conn shelf.new.conn server.new
        (W.contents output.old) (W.contents output.new)) }
    ensures err { IfErr result (λ fault. StopsCommit S.Store fault server.old shelf.old.conn
        shelf.new.conn (W.contents output.old) (W.contents output.new)) }
    ensures cause { IfErr result StopsBehind }
    ensures limits { shelf.new.limits ≡ shelf.old.limits }
{
    let Some(batch) = server.batch(alloc)? else {
        return Ok(());
    };
    let written = write_batch(server, shelf, &batch)?;
    let dones = report(alloc, server, written)?;
    said.clear();
    append_frames(alloc, server.limits(), dones.as_slice(), said)?;
    match put_out(output, said.as_slice()) {
        Ok(()) => Ok(()),
        Err(error) => Err(RoundFault::Output(error)),
    }
}

/// One round.
pub(crate) fn round<S: Alter, R: Read, W: Write>(
    alloc: Global,
    server: &mut Server,
    buffers: &mut Buffers,
    room: &mut [u8],
    shelf: &mut Shelf<S>,
    life: &mut Life,
    input: &mut R,
    output: &mut W,
) -> Result<RoundEnd, RoundFault>
    requires room { 0 < length room.old }
    requires limits { shelf.old.limits ≡ server.old.limits }
    requires known { KnowsBelow (server_of server.old) life.old.below }
    ensures ok { IfOk result (λ end. EndsRound S.Store server.old.limits end
        (standing S.Store server.old buffers.old shelf.old.conn)
        (standing S.Store server.new buffers.new shelf.new.conn) life.old life.new
        (R.remaining input.old) (R.remaining input.new)
        (W.contents output.old) (W.contents output.new)) }
    ensures err { IfErr result (λ fault. StopsRound S.Store server.old.limits fault
        (standing S.Store server.old buffers.old shelf.old.conn) life.old
        buffers.new.passed_over shelf.new.conn
        (R.remaining input.old) (R.remaining input.new)
        (W.contents output.old) (W.contents output.new)) }
    ensures shelf { shelf.new.limits ≡ shelf.old.limits }
    ensures server { OnOk result (server.new.limits ≡ server.old.limits) }
    ensures known { OnOk result (KnowsBelow (server_of server.new) life.new.below) }
{
    if !read_more(input, room, &mut buffers.pending)? {
        return Ok(RoundEnd::Ended);
    }
    let taken = answer(alloc, server, buffers, shelf, life, output)?;
    commit(alloc, server, shelf, &mut buffers.said, output)?;
    if taken.ends {
        return Ok(RoundEnd::NoFrame);
    }
    Ok(RoundEnd::GoesOn)
}
