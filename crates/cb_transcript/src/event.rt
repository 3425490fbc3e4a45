ghost use Rattle.std.specs.Prelude.{◌≡◌, IfOk, IsOk, OnErr};
ghost use Rattle.cb_transcript.specs.Events.{HasBytes, CallsWithBytes};

use cb_page::{ClientNo, Page, PageNo};
use std::alloc::{AllocError, Global};

/// A call that an application makes at its client.
#[derive(Debug, Drop)]
pub enum Call {
    Hello,
    Begin,
    Read { page: PageNo },
    Want { page: PageNo },
    Write { page: PageNo, bytes: Page },
    Finish,
    Drop,
    Again,
    Peek { page: PageNo },
}

/// What happens next in a world: one line of a schedule.
#[derive(Debug, Drop)]
pub enum Event {
    /// An application calls its client.
    Call { client: ClientNo, call: Call },
    /// The packet of this number arrives and is taken by its addressee.
    Take { packet: u64 },
    /// The client is new, with its next incarnation.
    Restart { client: ClientNo },
    /// The server sends again what is unanswered.
    AgainServer,
    /// All that was committed is on the disk.
    Flush,
    /// The commits up to this number are on the disk.
    FlushTo { number: u64 },
}

impl Call {
    /// A copy of the call. It fails only if there is no memory for the bytes of a write.
    pub fn copy(&self, alloc: Global) -> Result<Call, AllocError>
        ensures same { IfOk result (λ call. call ≡ self.now) }
        ensures fails { OnErr result (HasBytes self.now) }
    {
        Ok(match self {
            Call::Hello => Call::Hello,
            Call::Begin => Call::Begin,
            Call::Read { page } => Call::Read { page: *page },
            Call::Want { page } => Call::Want { page: *page },
            Call::Write { page, bytes } => Call::Write {
                page: *page,
                bytes: Page::copy_of(alloc, bytes.as_slice())?,
            },
            Call::Finish => Call::Finish,
            Call::Drop => Call::Drop,
            Call::Again => Call::Again,
            Call::Peek { page } => Call::Peek { page: *page },
        })
    }
}

impl Event {
    /// A copy of the event. It fails only if there is no memory for the bytes of a write.
    pub fn copy(&self, alloc: Global) -> Result<Event, AllocError>
        ensures same { IfOk result (λ event. event ≡ self.now) }
        ensures fails { OnErr result (CallsWithBytes self.now) }
    {
        Ok(match self {
            Event::Call { client, call } => Event::Call {
                client: *client,
                call: call.copy(alloc)?,
            },
            Event::Take { packet } => Event::Take { packet: *packet },
            Event::Restart { client } => Event::Restart { client: *client },
            Event::AgainServer => Event::AgainServer,
            Event::Flush => Event::Flush,
            Event::FlushTo { number } => Event::FlushTo { number: *number },
        })
    }
}

/// The law of copies: a copy is the same event, and one without page bytes needs no memory.
fn law(
    alloc: Global,
    client: ClientNo,
    page: PageNo,
    packet: u64,
) -> Result<(Event, Event), AllocError>
    ensures copies { IfOk result (λ both.
        both ≡ (Event.Call client (Call.Want page), Event.Take packet)) }
    ensures succeeds { IsOk result }
{
    let want = Event::Call {
        client,
        call: Call::Want { page },
    };
    let take = Event::Take { packet };
    Ok((want.copy(alloc)?, take.copy(alloc)?))
}
