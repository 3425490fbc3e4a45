//! Frames, as values.
ghost use Rattle.std.specs.Prelude.{◌≡◌, IsTrue, ◌↔◌};
ghost use Rattle.cb_frame.specs.Kinds.{kind_of_short, kind_of_body};
ghost use Rattle.cb_frame.specs.declared.frame.Body.TheVariants.{Short};

use crate::fields::Fields;
use crate::{Kind, Writes};
use cb_page::{ClientNo, CommitNo, GrantNo, Incarnation, Limits, Page, PageNo, TxnNo, Version};

/// A message between a client and the server.
#[derive(Debug, Drop)]
pub struct Frame {
    /// The client that the frame comes from or goes to.
    pub client: ClientNo,
    /// The incarnation of that client.
    pub incarnation: Incarnation,
    pub body: Body,
}

/// What a frame says.
#[derive(Debug, Drop)]
pub enum Body {
    /// A body without page bytes.
    Short(ShortBody),
    /// A transaction commits, with the pages that it has written.
    Commit {
        txn: TxnNo,
        writes: Writes,
    },
    /// The server grants a page, with its bytes.
    Granted {
        page: PageNo,
        grant: GrantNo,
        version: Version,
        bytes: Page,
    },
}

/// A message that carries no page bytes, and so owns no memory.
#[derive(Clone, Copy, Debug, PartialEq, Eq)]
pub struct ShortFrame {
    /// The client that the frame comes from or goes to.
    pub client: ClientNo,
    /// The incarnation of that client.
    pub incarnation: Incarnation,
    pub body: ShortBody,
}

/// What a frame without page bytes says; [`Kind`] has the meaning of each.
#[derive(Clone, Copy, Debug, PartialEq, Eq)]
pub enum ShortBody {
    Hello,
    AskRead {
        txn: TxnNo,
        page: PageNo,
    },
    AskWrite {
        txn: TxnNo,
        page: PageNo,
        grant: GrantNo,
    },
    GiveBack {
        page: PageNo,
        grant: GrantNo,
    },
    InUse {
        txn: TxnNo,
        page: PageNo,
        grant: GrantNo,
    },
    Drop {
        txn: TxnNo,
    },
    Welcome,
    MayWrite {
        txn: TxnNo,
        page: PageNo,
        grant: GrantNo,
    },
    Callback {
        page: PageNo,
        grant: GrantNo,
    },
    Done {
        txn: TxnNo,
        number: CommitNo,
    },
    AbortNow {
        txn: TxnNo,
    },
    Downgraded {
        page: PageNo,
        grant: GrantNo,
        txn: TxnNo,
    },
    Downgrade {
        page: PageNo,
        grant: GrantNo,
        txn: TxnNo,
    },
}

impl ShortBody {
    ghost use Rattle.cb_frame.specs.Fields.{fields_of};

    /// The kind of a frame with this body.
    pub fn kind(self) -> Kind
        ensures { result ≡ kind_of_short self }
    {
        match self {
            ShortBody::Hello => Kind::Hello,
            ShortBody::AskRead { .. } => Kind::AskRead,
            ShortBody::AskWrite { .. } => Kind::AskWrite,
            ShortBody::GiveBack { .. } => Kind::GiveBack,
            ShortBody::InUse { .. } => Kind::InUse,
            ShortBody::Drop { .. } => Kind::Drop,
            ShortBody::Welcome => Kind::Welcome,
            ShortBody::MayWrite { .. } => Kind::MayWrite,
            ShortBody::Callback { .. } => Kind::Callback,
            ShortBody::Done { .. } => Kind::Done,
            ShortBody::AbortNow { .. } => Kind::AbortNow,
            ShortBody::Downgraded { .. } => Kind::Downgraded,
            ShortBody::Downgrade { .. } => Kind::Downgrade,
        }
    }

    /// The numbers that the body has.
    pub fn fields(self) -> Fields
        ensures { result ≡ fields_of self }
    {
        match self {
            ShortBody::Hello => Fields::Nothing,
            ShortBody::AskRead { txn, page } => Fields::TxnPage(txn, page),
            ShortBody::AskWrite { txn, page, grant } => Fields::TxnPageGrant(txn, page, grant),
            ShortBody::GiveBack { page, grant } => Fields::PageGrant(page, grant),
            ShortBody::InUse { txn, page, grant } => Fields::TxnPageGrant(txn, page, grant),
            ShortBody::Drop { txn } => Fields::Txn(txn),
            ShortBody::Welcome => Fields::Nothing,
            ShortBody::MayWrite { txn, page, grant } => Fields::TxnPageGrant(txn, page, grant),
            ShortBody::Callback { page, grant } => Fields::PageGrant(page, grant),
            ShortBody::Done { txn, number } => Fields::TxnCommit(txn, number),
            ShortBody::AbortNow { txn } => Fields::Txn(txn),
            ShortBody::Downgraded { page, grant, txn } => Fields::PageGrantTxn(page, grant, txn),
            ShortBody::Downgrade { page, grant, txn } => Fields::PageGrantTxn(page, grant, txn),
        }
    }
}

impl Body {
    ghost use Rattle.cb_frame.specs.Grammar.{BodyFits};

    /// The kind of a frame with this body.
    pub fn kind(&self) -> Kind
        ensures { result ≡ kind_of_body self.now }
    {
        match self {
            Body::Short(body) => body.kind(),
            Body::Commit { .. } => Kind::Commit,
            Body::Granted { .. } => Kind::Granted,
        }
    }

    fn fits(&self, limits: &Limits) -> bool
        ensures { IsTrue result ↔ BodyFits limits.now self.now }
    {
        match self {
            Body::Short(body) => body.fields().fit(limits),
            Body::Commit { txn, writes } => {
                // In range by its type: `get` says so.
                let _known = txn.get();
                writes.fit(limits)
            }
            Body::Granted {
                page,
                grant,
                version,
                bytes,
            } => {
                // In range by its type: `get` says so.
                let _known = (grant.get(), version.get());
                limits.has_page(page.get()) && bytes.len() == limits.page_size()
            }
        }
    }
}

impl Frame {
    ghost use Rattle.cb_page.specs.Bounds.{AreInRange};
    ghost use Rattle.cb_frame.specs.Grammar.{Fits};

    /// What the frame is for.
    pub fn kind(&self) -> Kind
        ensures { result ≡ kind_of_body self.now.body }
    {
        self.body.kind()
    }

    /// Whether the frame fits these limits: its numbers are in range, its pages have the store's
    /// size, and a commit's pages rise.
    pub fn fits(&self, limits: &Limits) -> bool
        ensures value { IsTrue result ↔ Fits limits.now self.now }
        ensures range { AreInRange limits.now }
    {
        // In range by its type: `get` says so.
        let _known = self.incarnation.get();
        limits.has_client(self.client.get()) && self.body.fits(limits)
    }
}

impl From<ShortFrame> for Frame {
    ghost use Rattle.cb_frame.specs.declared.frame.Body.TheVariants as body;

    ghost from_gives = { λ short frame. frame ≡ record {
      client = short.client;
      incarnation = short.incarnation;
      body = body.Short short.body;
    } };

    fn from(frame: ShortFrame) -> Frame {
        Frame {
            client: frame.client,
            incarnation: frame.incarnation,
            body: Body::Short(frame.body),
        }
    }
}

/// The law of these calls: a frame without page bytes keeps its sender and its body, and a frame's
/// kind is its body's.
fn law(short: ShortFrame, frame: &Frame) -> (Frame, Kind, Kind)
    ensures { result ≡ (
      record { client = short.client; incarnation = short.incarnation; body = Short short.body },
      kind_of_short short.body,
      kind_of_body frame.now.body,
    ) }
{
    let made = Frame::from(short);
    let kind = made.kind();
    (made, kind, frame.body.kind())
}
