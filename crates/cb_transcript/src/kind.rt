//! What kind of event is drawn.
ghost use Rattle.std.specs.Prelude.{◌≡◌, ◌<◌};
ghost use Rattle.cb_transcript.specs.Drawn.{HasPacket, kind_at};

/// A kind of event, with what has to be drawn for it.
#[derive(Clone, Copy)]
pub(crate) enum Kind {
    Hello,
    Begin,
    Read,
    Want,
    Write,
    Finish,
    Drop,
    Restart,
    AgainClient,
    AgainServer,
    Flush,
    /// One of the last packets is taken.
    TakeLate,
    /// Any packet is taken.
    TakeAny,
}

impl Kind {
    /// The kind that a number below 32 stands for, where so many packets were sent.
    pub(crate) fn drawn(number: u64, sent: u64) -> Kind
        requires { number < 32 }
        ensures kind { result ≡ kind_at sent number }
        ensures packet { HasPacket sent result }
    {
        match number {
            0 => Kind::Hello,
            1..=2 => Kind::Begin,
            3..=6 => Kind::Read,
            7..=8 => Kind::Want,
            9..=10 => Kind::Write,
            11..=12 => Kind::Finish,
            13 => Kind::Drop,
            14 => Kind::Restart,
            15 => Kind::AgainClient,
            16 => Kind::AgainServer,
            17..=18 => Kind::Flush,
            _ if sent == 0 => Kind::Hello,
            19..=25 => Kind::TakeLate,
            _ => Kind::TakeAny,
        }
    }
}
