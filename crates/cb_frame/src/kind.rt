//! The kinds of frames.
ghost use Rattle.std.specs.Prelude.{◌≡◌, Some};
ghost use Rattle.cb_frame.specs.Kinds.{CodesDiffer, code_of, name_of, goes_to_server};

use std::fmt;

/// What a frame is for. The first eight kinds go from a client to the server, the others from the
/// server to a client.
#[derive(Clone, Copy, Debug, PartialEq, Eq)]
pub enum Kind {
    /// A client has started an incarnation.
    Hello,
    /// A transaction wants a page to read.
    AskRead,
    /// A transaction wants the permission to write a page that its client has.
    AskWrite,
    /// A client gives a granted page back.
    GiveBack,
    /// A client answers a callback: its transaction uses the page until it ends.
    InUse,
    /// A transaction commits, with the pages that it has written.
    Commit,
    /// A transaction ends without a commit.
    Drop,
    /// A client gives a kept permission to write a page up.
    Downgraded,
    /// The server knows the client's incarnation.
    Welcome,
    /// The server grants a page, with its bytes.
    Granted,
    /// A transaction may write a page.
    MayWrite,
    /// The server calls a granted page back.
    Callback,
    /// A commit is stored for good.
    Done,
    /// A transaction is to be aborted, since it lies on a cycle of waiting.
    AbortNow,
    /// The server asks for a kept permission to write a page, which was last given for a
    /// transaction.
    Downgrade,
}

impl Kind {
    /// The byte that stands for the kind in a frame.
    pub fn code(self) -> u8
        ensures { result ≡ code_of self }
    {
        match self {
            Kind::Hello => 1,
            Kind::AskRead => 2,
            Kind::AskWrite => 3,
            Kind::GiveBack => 4,
            Kind::InUse => 5,
            Kind::Commit => 6,
            Kind::Drop => 7,
            Kind::Downgraded => 8,
            Kind::Welcome => 65,
            Kind::Granted => 66,
            Kind::MayWrite => 67,
            Kind::Callback => 68,
            Kind::Done => 69,
            Kind::AbortNow => 70,
            Kind::Downgrade => 71,
        }
    }

    /// The name of the kind, as `Display` prints it.
    pub fn name(self) -> &'static str
        ensures { result.now ≡ name_of self }
    {
        match self {
            Kind::Hello => "Hello",
            Kind::AskRead => "AskRead",
            Kind::AskWrite => "AskWrite",
            Kind::GiveBack => "GiveBack",
            Kind::InUse => "InUse",
            Kind::Commit => "Commit",
            Kind::Drop => "Drop",
            Kind::Downgraded => "Downgraded",
            Kind::Welcome => "Welcome",
            Kind::Granted => "Granted",
            Kind::MayWrite => "MayWrite",
            Kind::Callback => "Callback",
            Kind::Done => "Done",
            Kind::AbortNow => "AbortNow",
            Kind::Downgrade => "Downgrade",
        }
    }

    /// Whether frames of this kind go from a client to the server.
    pub fn goes_to_server(self) -> bool
        ensures { result ≡ goes_to_server self }
    {
        self.code() < 64
    }
}

impl fmt::Display for Kind {
    ghost output = { λ k. Some (name_of k) };

    fn fmt<W: fmt::Write>(&self, f: &mut fmt::Formatter<W>) -> fmt::Result {
        let name = self.name();
        write!(f, "{name}")
    }
}

/// The law of the kinds' codes: each kind has one of its own.
fn codes_differ()
    ensures { CodesDiffer }
{}
