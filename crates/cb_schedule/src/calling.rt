//! What one client answers to each call.
ghost use Rattle.std.specs.Prelude.{◌≡◌, ℕ, false, IfOk, IsOk, None, OnErr};
ghost use Rattle.std.specs.List.{AllByRecursion};
ghost use Rattle.cb_client.specs.ByTable.{IsRefusal};
ghost use Rattle.cb_client.specs.FramesTaken.{TakesFrame, brings_page, room_to_take};
ghost use Rattle.cb_frame.specs.Grammar.{Fits};
ghost use Rattle.cb_outbox.specs.Messages.{messages_of};
ghost use Rattle.cb_client_core.specs.declared.stage.PendingAsk.TheVariants as asks;
ghost use Rattle.cb_protocol.specs.ClientCalls.{CallAgain, CallBegin, CallDrop, CallFinish};
ghost use Rattle.cb_protocol.specs.ClientCalls.{CallHello, CallPeek, CallRead, CallWant, CallWrite};
ghost use Rattle.cb_schedule.specs.ByWorld.{AsksFor, Replies, StaysOne};
ghost use Rattle.cb_transcript.specs.ProtocolEvents.{call_of};

use crate::reply::Reply;
use cb_client::{Client, ReadAnswer, WantAnswer};
use cb_frame::Frame;
use cb_page::{Page, PageNo};
use cb_transcript::{AnswerWord, Call};
use cb_twoq::Chooser;
use std::alloc::{AllocError, Global};

/// The client is called. `AllocError` only if memory was refused for a call that the table accepts;
/// the client may have changed then.
pub(crate) fn answer<Q: Chooser>(
    alloc: Global,
    client: &mut Client<Q>,
    call: &Call,
) -> Result<Reply, AllocError>
    ensures ok { IfOk result (λ reply. Replies client.old (call_of call.now) reply client.new) }
    ensures stays { StaysOne client.old client.new }
    ensures fails { OnErr result (IsRefusal client.old (call_of call.now) None) }
{
    match call {
        Call::Hello => hello(alloc, client),
        Call::Begin => begin(alloc, client),
        Call::Read { page } => read(alloc, client, *page),
        Call::Want { page } => want(alloc, client, *page),
        Call::Write { page, bytes } => write(alloc, client, *page, bytes.as_slice()),
        Call::Finish => finish(alloc, client),
        Call::Drop => drop_txn(alloc, client),
        Call::Again => again(alloc, client),
        Call::Peek { page } => peek(alloc, client, *page),
    }
}

/// The client takes a frame. `AllocError` only if memory was refused; then nothing changes. It is
/// not refused if no frame needs room and no page comes in.
pub(crate) fn deliver<Q: Chooser>(
    alloc: Global,
    client: &mut Client<Q>,
    frame: Frame,
) -> Result<Vec<Frame>, AllocError>
    requires { Fits client.old.copies.limits frame }
    ensures ok { IfOk result (λ said. TakesFrame client.old frame (messages_of said.items)
        client.new) }
    ensures err { OnErr result (client.new ≡ client.old) }
    ensures stays { StaysOne client.old client.new }
    ensures fits { IfOk result (λ said.
        AllByRecursion (Fits client.old.copies.limits) said.items) }
    ensures none { room_to_take client.old frame ≡ 0 → brings_page client.old frame ≡ false
        → IsOk result }
{
    match client.take_owned(alloc, frame) {
        Ok(said) => Ok(said),
        Err(_refused) => Err(AllocError),
    }
}

fn hello<Q: Chooser>(alloc: Global, client: &Client<Q>) -> Result<Reply, AllocError>
    ensures ok { IfOk result (λ reply. Replies client.now CallHello reply client.now) }
    ensures fails { OnErr result (IsRefusal client.now CallHello None) }
{
    let frame = client.hello();
    Reply::one(alloc, AnswerWord::Ok, frame)
}

fn begin<Q: Chooser>(alloc: Global, client: &mut Client<Q>) -> Result<Reply, AllocError>
    ensures ok { IfOk result (λ reply. Replies client.old CallBegin reply client.new) }
    ensures stays { StaysOne client.old client.new }
    ensures fails { OnErr result (IsRefusal client.old CallBegin None) }
{
    match client.begin() {
        Ok(_) => Ok(Reply::silent(alloc, AnswerWord::Ok)),
        Err(fault) => Reply::refused(alloc, fault),
    }
}

fn read<Q: Chooser>(
    alloc: Global,
    client: &mut Client<Q>,
    page: PageNo,
) -> Result<Reply, AllocError>
    ensures ok { IfOk result (λ reply. Replies client.old (CallRead page) reply client.new) }
    ensures stays { StaysOne client.old client.new }
    ensures fails { OnErr result (IsRefusal client.old (CallRead page) None) }
{
    match client.read(page) {
        Ok(ReadAnswer::Bytes(bytes)) => {
            let copy = Page::copy_of(alloc, bytes)?;
            return Ok(Reply::silent(alloc, AnswerWord::Bytes(copy)));
        }
        Ok(ReadAnswer::Asked) => {}
        Err(fault) => return Reply::refused(alloc, fault),
    }
    asked(alloc, client)
}

/// The frame of the ask that is out is said.
fn asked<Q: Chooser>(alloc: Global, client: &Client<Q>) -> Result<Reply, AllocError>
    requires { (page : ℕ) × (client.now.ask ≡ asks.Read page) }
    ensures { (page : ℕ) → client.now.ask ≡ asks.Read page
        → IfOk result (AsksFor client.now page) }
{
    match client.ask() {
        Some(ask) => Reply::one(alloc, AnswerWord::Asked, Frame::from(ask)),
        None => unreachable!(),
    }
}

fn want<Q: Chooser>(
    alloc: Global,
    client: &mut Client<Q>,
    page: PageNo,
) -> Result<Reply, AllocError>
    ensures ok { IfOk result (λ reply. Replies client.old (CallWant page) reply client.new) }
    ensures stays { StaysOne client.old client.new }
    ensures fails { OnErr result (IsRefusal client.old (CallWant page) None) }
{
    match client.want(page) {
        Ok(WantAnswer::Permitted) => Ok(Reply::silent(alloc, AnswerWord::Permitted)),
        Ok(WantAnswer::Asked(ask)) => Reply::one(alloc, AnswerWord::Asked, Frame::from(ask)),
        Err(fault) => Reply::refused(alloc, fault),
    }
}

fn write<Q: Chooser>(
    alloc: Global,
    client: &mut Client<Q>,
    page: PageNo,
    bytes: &[u8],
) -> Result<Reply, AllocError>
    ensures ok { IfOk result
        (λ reply. Replies client.old (CallWrite page bytes.now) reply client.new) }
    ensures stays { StaysOne client.old client.new }
    ensures fails { OnErr result (IsRefusal client.old (CallWrite page bytes.now) None) }
{
    match client.write(page, bytes) {
        Ok(()) => Ok(Reply::silent(alloc, AnswerWord::Ok)),
        Err(fault) => Reply::refused(alloc, fault),
    }
}

fn finish<Q: Chooser>(alloc: Global, client: &mut Client<Q>) -> Result<Reply, AllocError>
    ensures ok { IfOk result (λ reply. Replies client.old CallFinish reply client.new) }
    ensures stays { StaysOne client.old client.new }
    ensures fails { OnErr result (IsRefusal client.old CallFinish None) }
{
    match client.finish(alloc) {
        Ok(frame) => Reply::one(alloc, AnswerWord::Ok, frame),
        Err(fault) => Reply::refused(alloc, fault),
    }
}

fn drop_txn<Q: Chooser>(alloc: Global, client: &mut Client<Q>) -> Result<Reply, AllocError>
    ensures ok { IfOk result (λ reply. Replies client.old CallDrop reply client.new) }
    ensures stays { StaysOne client.old client.new }
    ensures fails { OnErr result (IsRefusal client.old CallDrop None) }
{
    match client.drop_txn(alloc) {
        Ok(said) => Ok(Reply {
            word: AnswerWord::Ok,
            said,
        }),
        Err(fault) => Reply::refused(alloc, fault),
    }
}

fn again<Q: Chooser>(alloc: Global, client: &Client<Q>) -> Result<Reply, AllocError>
    ensures ok { IfOk result (λ reply. Replies client.now CallAgain reply client.now) }
    ensures fails { OnErr result (IsRefusal client.now CallAgain None) }
{
    match client.again(alloc) {
        Ok(said) => Ok(Reply {
            word: AnswerWord::Ok,
            said,
        }),
        Err(_) => Err(AllocError),
    }
}

fn peek<Q: Chooser>(alloc: Global, client: &Client<Q>, page: PageNo) -> Result<Reply, AllocError>
    ensures ok { IfOk result (λ reply. Replies client.now (CallPeek page) reply client.now) }
    ensures fails { OnErr result (IsRefusal client.now (CallPeek page) None) }
{
    match client.peek(page) {
        Some(bytes) => {
            let copy = Page::copy_of(alloc, bytes)?;
            Ok(Reply::silent(alloc, AnswerWord::Bytes(copy)))
        }
        None => Ok(Reply::silent(alloc, AnswerWord::Nothing)),
    }
}
