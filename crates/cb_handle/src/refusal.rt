//! Why a call is refused.
ghost use Rattle.std.specs.Prelude.{◌≡◌, ◌≤◌};
ghost use Rattle.cb_handle.specs.Faults.{client_number, frame_number, limit_number, number_of};
ghost use Rattle.cb_handle.specs.declared.refusal.HandleRefusal.TheVariants.{Memory};

use cb_client::ClientFault;
use cb_frame::FrameFault;
use cb_page::LimitFault;
use cb_server::ServerFault;
use std::alloc::AllocError;

/// Why a call is refused. Nothing changes then, unless the call says so.
#[derive(Clone, Copy, Debug, PartialEq, Eq)]
pub enum HandleRefusal {
    /// By the client.
    Client(ClientFault),
    /// By the server.
    Server(ServerFault),
    /// The bytes begin with no frame.
    Frame(FrameFault),
    /// These are no limits.
    Limits(LimitFault),
    /// A growth was refused.
    Memory,
    /// The handle is empty, or what it holds has no such call.
    OtherKind,
    /// What was said before isn't fetched yet.
    Unfetched,
    /// There is nothing to fetch, to write or to show.
    Nothing,
    /// The room hasn't the length that is needed.
    Room,
    /// A number is out of its range.
    Range,
    /// The handle holds an object already.
    Held,
}

impl From<AllocError> for HandleRefusal {
    ghost from_gives = { λ _ e. e ≡ Memory };

    fn from(_e: AllocError) -> HandleRefusal {
        HandleRefusal::Memory
    }
}

impl HandleRefusal {
    /// Its number, which is never 0.
    pub fn number(self) -> u32
        ensures value { result ≡ number_of self }
        ensures some { 1 ≤ result }
    {
        match self {
            HandleRefusal::Client(fault) => of_client(fault),
            HandleRefusal::Server(ServerFault::Exhausted) => 12,
            HandleRefusal::Server(ServerFault::Memory) => 13,
            HandleRefusal::Memory => 13,
            HandleRefusal::Frame(fault) => of_frame(fault),
            HandleRefusal::Limits(fault) => of_limits(fault),
            HandleRefusal::OtherKind => 769,
            HandleRefusal::Unfetched => 770,
            HandleRefusal::Nothing => 771,
            HandleRefusal::Room => 772,
            HandleRefusal::Range => 773,
            HandleRefusal::Held => 774,
        }
    }
}

fn of_client(fault: ClientFault) -> u32
    ensures value { result ≡ client_number fault }
    ensures least { 1 ≤ result }
{
    match fault {
        ClientFault::NotWelcome => 1,
        ClientFault::NoTransaction => 2,
        ClientFault::TransactionOpen => 3,
        ClientFault::Committing => 4,
        ClientFault::Waiting => 5,
        ClientFault::PageRange => 6,
        ClientFault::NotRead => 7,
        ClientFault::NotHere => 8,
        ClientFault::NotWritable => 9,
        ClientFault::WrongLength => 10,
        ClientFault::PoolFull => 11,
        ClientFault::Exhausted => 12,
        ClientFault::Memory => 13,
    }
}

fn of_frame(fault: FrameFault) -> u32
    ensures value { result ≡ frame_number fault }
    ensures least { 1 ≤ result }
{
    match fault {
        FrameFault::Short => 257,
        FrameFault::Version => 258,
        FrameFault::Kind => 259,
        FrameFault::Length => 260,
        FrameFault::Range => 261,
        FrameFault::Order => 262,
        FrameFault::Memory => 263,
    }
}

fn of_limits(fault: LimitFault) -> u32
    ensures value { result ≡ limit_number fault }
    ensures least { 1 ≤ result }
{
    match fault {
        LimitFault::Clients => 513,
        LimitFault::Pages => 514,
        LimitFault::PageSize => 515,
        LimitFault::Slots => 516,
        LimitFault::Kin => 517,
        LimitFault::Kout => 518,
    }
}
