//! A callback that was taken and has no answer yet.
ghost use Rattle.std.specs.Prelude.{◌≡◌, ℕ, ◌<◌, IfSome, IsSome, length, MatchOption};
ghost use Rattle.cb_locks.specs.Locks.{with_noted};
ghost use Rattle.cb_locks.specs.Frames.{saying};
ghost use Rattle.cb_frame.specs.declared.frame.ShortBody.TheVariants.{Downgraded, GiveBack};
ghost use Rattle.cb_frame.specs.declared.frame.ShortBody.TheVariants.{InUse};

use crate::ReadLocks;
use cb_frame::{Frame, ShortBody, ShortFrame};
use cb_page::{ClientNo, GrantNo, Incarnation, PageNo, TxnNo};

/// A callback that was taken and has no answer yet. It asks for a copy, or for the permission to
/// write a page alone, whose copy stays (Downgrade, under kept write permission).
///
/// It can't be copied or dropped. It is spent by one of the calls that answer it with a frame:
/// `give_back`, `in_use`, or `give_down` for a permission alone. For a permission alone, `dropped`
/// spends it without a frame.
#[derive(Debug)]
pub struct CallbackDue {
    pub(crate) client: ClientNo,
    pub(crate) incarnation: Incarnation,
    pub(crate) page: PageNo,
    pub(crate) grant: GrantNo,
    /// The tag of a permission that is called back alone.
    pub(crate) tag: Option<TxnNo>,
}

impl CallbackDue {
    /// The page that was called back.
    pub fn page(&self) -> PageNo
        ensures { result ≡ self.now.page }
    {
        self.page
    }

    /// If a permission alone is called back, the transaction for which it was given; `None` if the
    /// copy is called back.
    pub fn tag(&self) -> Option<TxnNo>
        ensures { result ≡ self.now.tag }
    {
        self.tag
    }

    /// Answers by giving the copy back, and with it any permission to write the page.
    pub fn give_back(self) -> Frame
        ensures { result ≡ saying self (GiveBack self.page self.grant) }
    {
        let body = ShortBody::GiveBack {
            page: self.page,
            grant: self.grant,
        };
        self.say(body)
    }

    /// Answers by giving up the permission that is called back alone; the copy stays.
    pub fn give_down(self) -> Frame
        requires { IsSome self.tag }
        ensures { IfSome self.tag (λ tag.
            result ≡ saying self (Downgraded self.page self.grant tag)) }
    {
        let Some(txn) = self.tag else { unreachable!() };
        let body = ShortBody::Downgraded {
            page: self.page,
            grant: self.grant,
            txn,
        };
        self.say(body)
    }

    /// Answers that the current transaction uses the page. The page is then due until that
    /// transaction ends ([`ReadLocks::end`]).
    pub fn in_use(self, locks: &mut ReadLocks) -> Frame
        requires begun { IsSome locks.old.txn }
        requires page { self.page < length locks.old.locked }
        ensures frame { IfSome locks.old.txn (λ txn.
            result ≡ saying self (InUse txn self.page self.grant)) }
        ensures due { locks.new ≡ with_noted locks.old self.page self.grant self.tag }
    {
        let txn = locks.note(self.page, self.grant, self.tag);
        let body = ShortBody::InUse {
            txn,
            page: self.page,
            grant: self.grant,
        };
        self.say(body)
    }

    /// Spends the callback of a permission alone without a frame. This is for a permission that has
    /// ended with the Drop of the transaction that used it, so there is nothing to answer. The
    /// caller sees to that; the contract asks for the tag alone.
    pub fn dropped(self)
        requires { IsSome self.tag }
    {
        let CallbackDue {
            client: _,
            incarnation: _,
            page: _,
            grant: _,
            tag: _,
        } = self;
    }

    /// The frame of this client with that body.
    fn say(self, body: ShortBody) -> Frame
        ensures { result ≡ saying self body }
    {
        let CallbackDue {
            client,
            incarnation,
            page: _,
            grant: _,
            tag: _,
        } = self;
        Frame::from(ShortFrame {
            client,
            incarnation,
            body,
        })
    }
}
