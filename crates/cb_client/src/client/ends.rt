//! How a transaction ends.
ghost use Rattle.std.specs.Prelude.{◌≡◌, ◌+◌, true, IfErr, IfOk, OnOk};
ghost use Rattle.std.specs.List.{AllByRecursion};
ghost use Rattle.std.specs.Vec.{vec_capacity};
ghost use Rattle.cb_frame.specs.Grammar.{Fits};
ghost use Rattle.cb_client.specs.ByTable.{Calls, RefusesOrLacks, over};
ghost use Rattle.cb_cache.specs.Room.{room_below};
ghost use Rattle.cb_client_core.specs.declared.stage.Stage.TheVariants.{Idle};
ghost use Rattle.cb_protocol.specs.Answers.{AnsweredOk};
ghost use Rattle.cb_protocol.specs.ClientCalls.{CallDrop};
ghost use Rattle.cb_outbox.specs.Messages.{messages_of};

use crate::client::Client;
use crate::client_fault::ClientFault;
use cb_cache::drop_ends;
use cb_client_core::{Outcome, PendingAsk, Stage};
use cb_frame::{Frame, ShortBody};
use cb_twoq::Chooser;
use std::alloc::Global;

impl<Q: Chooser> Client<Q> {
    /// Ends the transaction without a commit. Returns the frames of its end: the Drop, then what is
    /// given back, by rising page.
    ///
    /// `Memory` only if it was refused for these frames: the Drop, and one for each page that is
    /// due, bare or written.
    pub fn drop_txn(&mut self, alloc: Global) -> Result<Vec<Frame>, ClientFault>
        ensures ok { IfOk result (λ frames. Calls self.old CallDrop AnsweredOk
            (messages_of frames.items) over self.new) }
        ensures over { OnOk result (self.new.stage ≡ Idle) }
        ensures err { IfErr result (λ refused. RefusesOrLacks self.old CallDrop refused self.new) }
        ensures room { IfOk result (λ frames. vec_capacity frames
            ≡ room_below self.old.copies self.old.locks true self.old.copies.limits.pages + 1) }
        ensures fits { IfOk result (λ frames.
            AllByRecursion (Fits self.old.copies.limits) frames.items) }
    {
        self.check_open()?;
        let txn = self.present_txn();
        let said = self.core.say(ShortBody::Drop { txn });
        let frames = drop_ends(alloc, &mut self.core.copies, &mut self.core.locks, said)?;
        self.core.stage = Stage::Idle;
        self.core.ask = PendingAsk::Nothing;
        self.core.dropped = Some(txn);
        self.core.last = Some(Outcome::Dropped);
        Ok(frames)
    }
}
