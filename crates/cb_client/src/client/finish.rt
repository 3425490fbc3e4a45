//! How a transaction commits.
ghost use Rattle.std.specs.Prelude.{◌≡◌, ◌≢◌, ℕ, false, IfErr, IfOk, IsOk};
ghost use Rattle.cb_page.specs.Flags.{has};
ghost use Rattle.cb_client.specs.ByTable.{IsDecided};
ghost use Rattle.cb_client.specs.CallAnswers.{Finishes, FinishesWith, SaysCommit};
ghost use Rattle.cb_client_core.specs.declared.stage.PendingAsk.TheVariants.{Nothing};
ghost use Rattle.cb_client_core.specs.declared.stage.Stage.TheVariants.{Idle, Open};
ghost use Rattle.cb_client.specs.declared.client_fault.ClientFault.TheVariants.{Memory};
ghost use Rattle.cb_frame.specs.Grammar.{Fits};
ghost use Rattle.cb_protocol.specs.ClientCalls.{CallFinish};

use crate::client::Client;
use crate::client_fault::ClientFault;
use cb_client_core::{Stage, written_so_far};
use cb_frame::{Body, Frame};
use cb_twoq::Chooser;
use std::alloc::{AllocError, Global};

impl<Q: Chooser> Client<Q> {
    /// That a transaction is open which waits for nothing: all that `finish` asks, and what each
    /// call on a page asks first.
    pub(super) fn check_finish(&self) -> Result<(), ClientFault>
        ensures decided { IsDecided self.now CallFinish result }
        ensures open { IsOk result → self.now.stage ≡ Open }
        ensures no_ask { IsOk result → self.now.ask ≡ Nothing }
    {
        self.check_open()?;
        if self.core.ask.is_out() {
            return Err(ClientFault::Waiting);
        }
        Ok(())
    }

    /// Commits the open transaction: the frame has the pages that it wrote.
    ///
    /// It takes memory for these pages. `Memory` only if it was refused, so never if the
    /// transaction wrote nothing.
    pub fn finish(&mut self, alloc: Global) -> Result<Frame, ClientFault>
        ensures by_table { Finishes self.old result self.new }
        ensures nothing { ((page : ℕ) → has self.old.copies.wrote page ≡ false)
            → IfErr result (λ fault. fault ≢ Memory) }
        ensures fits { IfOk result (Fits self.old.copies.limits) }
    {
        self.check_finish()?;
        let commit = self.commit_frame(alloc)?;
        self.finish_with(&commit)?;
        Ok(commit)
    }

    /// The Commit frame of the open or committing transaction, with the pages that it wrote so far.
    /// Nothing changes. `AllocError` only if memory for these pages was refused.
    ///
    /// A caller can therefore make the frame before it takes a lock, and commit under the lock by
    /// [`Client::finish_with`].
    pub fn commit_frame(&self, alloc: Global) -> Result<Frame, AllocError>
        requires { self.now.stage ≢ Idle }
        ensures said { IfOk result (SaysCommit self.now) }
        ensures nothing { ((page : ℕ) → has self.now.copies.wrote page ≡ false) → IsOk result }
        ensures fits { IfOk result (Fits self.now.copies.limits) }
    {
        // A look at a field tells the prover what holds of every client.
        let _known = &self.core.no;
        let txn = self.present_txn();
        let writes = written_so_far(alloc, &self.core.copies)?;
        Ok(Frame {
            client: self.core.no,
            incarnation: self.core.incarnation,
            body: Body::Commit { txn, writes },
        })
    }

    /// Commits the open transaction by the frame that [`Client::commit_frame`] made of it; nothing
    /// may have been written since. As `finish`, but it takes no memory.
    pub fn finish_with(&mut self, commit: &Frame) -> Result<(), ClientFault>
        requires says { self.old.stage ≢ Idle → SaysCommit self.old commit.now }
        ensures by_table { FinishesWith self.old commit.now result self.new }
    {
        self.check_finish()?;
        self.core.stage = Stage::Committing;
        Ok(())
    }
}
