//! How a transaction ends by the server's word.
ghost use Rattle.std.specs.Prelude.{◌≡◌, [], true, IfOk, IsOk, OnErr};
ghost use Rattle.std.specs.Vec.{vec_capacity};
ghost use Rattle.cb_page.specs.Numbers.{IsNumber};
ghost use Rattle.cb_client_core.specs.ByTable.{Takes, limits_at};
ghost use Rattle.cb_client_core.specs.ClientState.{IsClient, client_of};
ghost use Rattle.cb_client_core.specs.Parts.{client_in};
ghost use Rattle.cb_client_core.specs.Room.{room_at};
ghost use Rattle.cb_outbox.specs.Messages.{messages_of};
ghost use Rattle.cb_protocol.specs.ClientMessages.{of_committing_txn};
ghost use Rattle.cb_protocol.specs.Messages.{AbortNow, Done};
ghost use Rattle.cb_protocol.specs.Ranges.{BodyFits};

use crate::client_core::ClientCore;
use crate::stage::{Outcome, PendingAsk, Stage};
use cb_cache::{commit_ends, drop_ends};
use cb_frame::{Frame, ShortBody};
use cb_page::{CommitNo, TxnNo};
use cb_twoq::Chooser;
use std::alloc::{AllocError, Global};

impl<Q: Chooser> ClientCore<Q> {
    /// Whether the committing transaction is that one.
    fn is_committing_txn(&self, txn: TxnNo) -> bool
        requires { IsNumber txn }
        ensures { result ≡ of_committing_txn (client_of (client_in self.now) []) txn }
    {
        self.stage == Stage::Committing && self.is_last_txn(txn)
    }

    /// The commit is on disk. Returns the frames of the transaction's end.
    pub(super) fn take_done(
        &mut self,
        alloc: Global,
        txn: TxnNo,
        number: CommitNo,
    ) -> Result<Vec<Frame>, AllocError>
        requires sound { IsClient (client_in self.old) }
        requires welcomed { self.old.welcomed ≡ true }
        requires fits { BodyFits (limits_at (client_in self.old)) (Done txn number) }
        ensures ok { IfOk result (λ frames. Takes (client_in self.old) (Done txn number)
            (messages_of frames.items) (client_in self.new)) }
        ensures err { OnErr result (self.new ≡ self.old) }
        ensures room { IfOk result (λ said. vec_capacity said
            ≡ room_at (client_in self.old) (Done txn number)) }
        ensures none { room_at (client_in self.old) (Done txn number) ≡ 0 → IsOk result }
        ensures sound { IsClient (client_in self.new) }
    {
        if !self.is_committing_txn(txn) {
            return Ok(Vec::new(alloc));
        }
        let frames = commit_ends(alloc, &mut self.copies, &mut self.locks, number)?;
        self.stage = Stage::Idle;
        self.ask = PendingAsk::Nothing;
        self.last = Some(Outcome::Committed(number));
        Ok(frames)
    }

    /// Aborts the transaction, if it is open. Returns the frames of its end.
    pub(super) fn take_abort(&mut self, alloc: Global, txn: TxnNo) -> Result<Vec<Frame>, AllocError>
        requires sound { IsClient (client_in self.old) }
        requires welcomed { self.old.welcomed ≡ true }
        requires fits { BodyFits (limits_at (client_in self.old)) (AbortNow txn) }
        ensures ok { IfOk result (λ frames. Takes (client_in self.old) (AbortNow txn)
            (messages_of frames.items) (client_in self.new)) }
        ensures err { OnErr result (self.new ≡ self.old) }
        ensures room { IfOk result (λ said. vec_capacity said
            ≡ room_at (client_in self.old) (AbortNow txn)) }
        ensures none { room_at (client_in self.old) (AbortNow txn) ≡ 0 → IsOk result }
        ensures sound { IsClient (client_in self.new) }
    {
        if !self.is_open_txn(txn) {
            return Ok(Vec::new(alloc));
        }
        let said = self.say(ShortBody::Drop { txn });
        let frames = drop_ends(alloc, &mut self.copies, &mut self.locks, said)?;
        self.stage = Stage::Idle;
        self.ask = PendingAsk::Nothing;
        self.dropped = Some(txn);
        self.last = Some(Outcome::Aborted);
        Ok(frames)
    }
}
