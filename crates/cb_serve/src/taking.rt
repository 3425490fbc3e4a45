//! The pieces of a stream are taken.
ghost use Rattle.std.specs.Prelude.{◌≡◌, ◌≤◌, ◌++◌, [], ◌∷◌, List, ℕ, IfErr, IfOk, OnOk};
ghost use Rattle.cb_frame.specs.Grammar.{Fits};
ghost use Rattle.cb_protocol.specs.AnyMessages.{SendsAgain};
ghost use Rattle.cb_server.specs.Knowing.{KnowsBelow};
ghost use Rattle.cb_server.specs.ServerValue.{server_of};
ghost use Rattle.cb_shelf.specs.Living.{raise_end};
ghost use Rattle.cb_serve.specs.Answering.{Answers, heard};
ghost use Rattle.cb_serve.specs.Steps.{RefusesFrame, RefusesFront, StopsTaking, TakesAll};
ghost use Rattle.cb_serve.specs.Steps.{TakesFront};
ghost use Rattle.cb_serve.specs.Streams.{greets_from, is_hello};

use crate::fault::RoundFault;
use crate::front::{Front, read_front};
use crate::output::append_frames;
use cb_frame::{Frame, Kind};
use cb_server::Server;
use std::alloc::Global;

/// What became of the first piece of a stream's bytes.
#[derive(Clone, Copy)]
pub(crate) enum Step {
    /// It was taken: how many bytes it has, and how many pieces were passed over, one or none.
    Taken(usize, u64),
    /// It is less than a whole piece.
    Part,
    /// It is a header that no frame has.
    NoFrame,
}

/// How far a stream's bytes were taken.
#[derive(Clone, Copy)]
pub(crate) struct Taken {
    /// How many bytes the pieces had.
    pub(crate) used: usize,
    /// Whether a header comes next that no frame has.
    pub(crate) ends: bool,
}

/// Whether it is the kind of a Hello.
fn is_hello(kind: Kind) -> bool
    ensures { result ≡ is_hello kind }
{
    match kind {
        Kind::Hello => true,
        _ => false,
    }
}

/// Whether a frame is a Hello of that incarnation or a greater one.
fn greets_from(end: u64, frame: &Frame) -> bool
    ensures { result ≡ greets_from end frame.now }
{
    end <= frame.incarnation.get() && is_hello(frame.kind())
}

/// Takes a frame, and appends the answers to it. A Hello from `end` on is ignored.
fn take_frame(
    alloc: Global,
    server: &mut Server,
    end: u64,
    frame: Frame,
    said: &mut Vec<u8>,
) -> Result<(), RoundFault>
    requires { Fits server.old.limits frame }
    ensures ok { OnOk result ((more : List ℕ) × (said.new.items ≡ said.old.items ++ more)
        × Answers server.old (heard end frame) more server.new) }
    ensures known { KnowsBelow (server_of server.old) end
        → OnOk result (KnowsBelow (server_of server.new) end) }
    ensures err { IfErr result (RefusesFrame server.old frame) }
{
    if greets_from(end, &frame) {
        return Ok(());
    }
    match server.take_owned(alloc, frame) {
        Ok(answers) => {
            append_frames(alloc, server.limits(), answers.as_slice(), said)?;
            Ok(())
        }
        Err((fault, _)) => Err(RoundFault::from(fault)),
    }
}

/// Appends what may be lost, to be sent again.
fn say_again(alloc: Global, server: &mut Server, said: &mut Vec<u8>) -> Result<(), RoundFault>
    ensures ok { OnOk result ((more : List ℕ) × (said.new.items ≡ said.old.items ++ more)
        × Answers server.old (SendsAgain ∷ []) more server.new) }
    ensures known { (end : ℕ) → KnowsBelow (server_of server.old) end
        → OnOk result (KnowsBelow (server_of server.new) end) }
    ensures err { IfErr result (λ fault. fault ≡ RoundFault.Memory) }
{
    let answers = server.again(alloc)?;
    append_frames(alloc, server.limits(), answers.as_slice(), said)?;
    Ok(())
}

/// Takes the piece at the front of the bytes, and appends the answers to it.
fn take_front(
    alloc: Global,
    server: &mut Server,
    end: u64,
    bytes: &[u8],
    said: &mut Vec<u8>,
) -> Result<Step, RoundFault>
    requires { raise_end ≤ end }
    ensures ok { IfOk result (λ step. (more : List ℕ) × (said.new.items ≡ said.old.items ++ more)
        × TakesFront server.old bytes.now step more server.new) }
    ensures known { KnowsBelow (server_of server.old) end
        → OnOk result (KnowsBelow (server_of server.new) end) }
    ensures err { IfErr result (RefusesFront server.old bytes.now) }
{
    let front = read_front(alloc, server.limits(), bytes)?;
    match front {
        Front::Frame(frame, used) => {
            take_frame(alloc, server, end, frame, said)?;
            Ok(Step::Taken(used, 0))
        }
        Front::Again => {
            say_again(alloc, server, said)?;
            Ok(Step::Taken(16, 0))
        }
        Front::Unread(used) => Ok(Step::Taken(used, 1)),
        Front::Part => Ok(Step::Part),
        Front::NoFrame => Ok(Step::NoFrame),
    }
}

/// Takes all whole pieces of the bytes, appends the answers to them, and counts those that it
/// passes over. Hellos from `end` on are ignored.
pub(crate) fn take_all(
    alloc: Global,
    server: &mut Server,
    end: u64,
    bytes: &[u8],
    said: &mut Vec<u8>,
    passed_over: &mut u64,
) -> Result<Taken, RoundFault>
    requires { raise_end ≤ end }
    ensures ok { IfOk result (λ taken. TakesAll server.old bytes.now said.old.items
        passed_over.old taken said.new.items passed_over.new server.new) }
    ensures known { KnowsBelow (server_of server.old) end
        → OnOk result (KnowsBelow (server_of server.new) end) }
    ensures err { IfErr result (StopsTaking server.old bytes.now passed_over.old
        passed_over.new) }
{
    let mut used = 0;
    loop {
        let step = take_front(alloc, server, end, &bytes[used..], said)?;
        match step {
            Step::Taken(count, passed) => {
                used += count;
                *passed_over = passed_over.saturating_add(passed);
            }
            Step::Part => {
                let ends = false;
                return Ok(Taken { used, ends });
            }
            Step::NoFrame => {
                let ends = true;
                return Ok(Taken { used, ends });
            }
        }
    }
}
