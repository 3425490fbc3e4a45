//! The messages that bring no page and end no transaction.
ghost use Rattle.std.specs.Prelude.{◌≡◌, ◌==◌, ◌&&◌, ◌<◌, [], ◌∷◌, true, unwrap_or};
ghost use Rattle.cb_page.specs.Flags.{has};
ghost use Rattle.cb_page.specs.Numbers.{IsNumber};
ghost use Rattle.cb_cache.specs.CacheState.{copy_at};
ghost use Rattle.cb_client_core.specs.ByTable.{Takes, limits_at};
ghost use Rattle.cb_client_core.specs.ClientState.{IsClient, ask_of, client_of};
ghost use Rattle.cb_client_core.specs.Parts.{client_in};
ghost use Rattle.cb_outbox.specs.Messages.{message_of};
ghost use Rattle.cb_protocol.specs.Basics.{is_exactly};
ghost use Rattle.cb_protocol.specs.Client.{asks_to_write};
ghost use Rattle.cb_protocol.specs.ClientMessages.{of_open_txn};
ghost use Rattle.cb_protocol.specs.Messages.{Callback, Downgrade, MayWrite, Welcome};
ghost use Rattle.cb_protocol.specs.Ranges.{BodyFits};

use crate::client_core::ClientCore;
use crate::stage::{PendingAsk, Stage};
use cb_frame::Frame;
use cb_page::{GrantNo, PageNo, TxnNo};
use cb_twoq::Chooser;

impl<Q: Chooser> ClientCore<Q> {
    /// The server knows the client.
    pub(super) fn take_welcome(&mut self)
        requires { IsClient (client_in self.old) }
        ensures by_table { Takes (client_in self.old) Welcome [] (client_in self.new) }
        ensures sound { IsClient (client_in self.new) }
    {
        self.welcomed = true;
    }

    /// Whether that grant of the page is held.
    pub(super) fn holds(&self, page: PageNo, grant: GrantNo) -> bool
        requires { page < self.now.copies.limits.pages }
        ensures { result ≡ is_exactly (copy_at self.now.copies page).held grant }
    {
        match self.copies.at(page).held {
            Some(held) => held == grant,
            None => false,
        }
    }

    /// A copy is called back: in use if the transaction has read it, else given back.
    pub(super) fn take_callback(&mut self, page: PageNo, grant: GrantNo) -> Frame
        requires sound { IsClient (client_in self.old) }
        requires welcomed { self.old.welcomed ≡ true }
        requires fits { BodyFits (limits_at (client_in self.old)) (Callback page grant) }
        ensures by_table { Takes (client_in self.old) (Callback page grant)
            (message_of result ∷ []) (client_in self.new) }
        ensures sound { IsClient (client_in self.new) }
    {
        let due = self.locks.called(page, grant);
        if !self.holds(page, grant) {
            self.copies.refuse(page, grant);
            return due.give_back();
        }
        if self.locks.is_locked(page) {
            return due.in_use(&mut self.locks);
        }
        self.copies.let_go(page);
        due.give_back()
    }

    /// Whether the permission with that tag is there.
    fn is_permitted(&self, page: PageNo, tag: TxnNo) -> bool
        requires page { page < self.now.copies.limits.pages }
        requires tag { IsNumber tag }
        ensures { result ≡ (has self.now.copies.may_write page
            && (unwrap_or (copy_at self.now.copies page).tag 0 == tag)) }
    {
        let tagged = match self.copies.at(page).tag {
            Some(last) => last == tag,
            None => false,
        };
        self.copies.may_write(page) && tagged
    }

    /// A permission to write a page is called back alone, if permissions are kept: in use if the
    /// transaction wrote the page or wants to, else given up.
    pub(super) fn take_downgrade(&mut self, page: PageNo, grant: GrantNo, tag: TxnNo) -> Frame
        requires sound { IsClient (client_in self.old) }
        requires welcomed { self.old.welcomed ≡ true }
        requires fits { BodyFits (limits_at (client_in self.old)) (Downgrade page grant tag) }
        requires kept { self.old.copies.limits.keep_write ≡ true }
        ensures by_table { Takes (client_in self.old) (Downgrade page grant tag)
            (message_of result ∷ []) (client_in self.new) }
        ensures sound { IsClient (client_in self.new) }
    {
        if !self.holds(page, grant) {
            let due = self.locks.called(page, grant);
            self.copies.refuse(page, grant);
            return due.give_back();
        }
        let due = self.locks.permission_called(page, grant, tag);
        if !self.is_permitted(page, tag) {
            return due.give_down();
        }
        if self.copies.is_fixed(page) {
            return due.in_use(&mut self.locks);
        }
        self.copies.yield_permission(page);
        due.give_down()
    }

    /// Whether the last transaction that began is that one.
    pub(super) fn is_last_txn(&self, txn: TxnNo) -> bool
        requires { IsNumber txn }
        ensures { result ≡ (unwrap_or self.now.txn 0 == txn) }
    {
        match self.txn {
            Some(last) => last == txn,
            None => false,
        }
    }

    /// Whether the open transaction is that one.
    pub(super) fn is_open_txn(&self, txn: TxnNo) -> bool
        requires { IsNumber txn }
        ensures { result ≡ of_open_txn (client_of (client_in self.now) []) txn }
    {
        self.stage == Stage::Open && self.is_last_txn(txn)
    }

    /// Whether an ask to write the page is out.
    fn asks_to_write(&self, page: PageNo) -> bool
        ensures { result ≡ asks_to_write (ask_of self.now.ask) page }
    {
        match self.ask {
            PendingAsk::Write(asked) => asked == page,
            _ => false,
        }
    }

    /// Whether a permission answers the ask that is out.
    fn answers_ask(&self, txn: TxnNo, page: PageNo, grant: GrantNo) -> bool
        requires page { page < self.now.copies.limits.pages }
        requires txn { IsNumber txn }
        ensures { result ≡ (of_open_txn (client_of (client_in self.now) []) txn
            && asks_to_write (ask_of self.now.ask) page
            && is_exactly (copy_at self.now.copies page).held grant) }
    {
        self.is_open_txn(txn) && self.asks_to_write(page) && self.holds(page, grant)
    }

    /// The transaction may write a page: if it asked to, and the grant is held.
    pub(super) fn take_may_write(&mut self, txn: TxnNo, page: PageNo, grant: GrantNo)
        requires sound { IsClient (client_in self.old) }
        requires welcomed { self.old.welcomed ≡ true }
        requires fits { BodyFits (limits_at (client_in self.old)) (MayWrite txn page grant) }
        ensures by_table { Takes (client_in self.old) (MayWrite txn page grant) []
            (client_in self.new) }
        ensures sound { IsClient (client_in self.new) }
    {
        if !self.answers_ask(txn, page, grant) {
            return;
        }
        self.ask = PendingAsk::Nothing;
        self.copies.take_permission(page, txn);
    }
}
