//! The calls of an application: what each is refused for, and what it does.
ghost use Rattle.std.specs.Prelude.{◌≡◌, ◌≢◌, ◌+◌, ◌<◌, List, ◌∷◌, ◌++◌, [], Ok, Some, None};
ghost use Rattle.std.specs.Prelude.{IfOk, IfSome, IsOk, IsTrue, option_to_list, length, nat_le};
ghost use Rattle.std.specs.Prelude.{false, true, unwrap_or, ⊤};
ghost use Rattle.std.specs.Borrow.{sem};
ghost use Rattle.std.specs.Option.{is_some, option_copied, option_map};
ghost use Rattle.cb_client.specs.ByTable.{Called, Calls, IsDecided, IsFirst, as_before, limits_at};
ghost use Rattle.cb_client.specs.CallAnswers.{AnswersRead, Begins, after_read, after_read_here};
ghost use Rattle.cb_client.specs.CallAnswers.{bytes_at, page_read, reads_here, sees};
ghost use Rattle.cb_client.specs.CallAnswers.{ShortFrameFits, WantFits, Wants, Writes};
ghost use Rattle.cb_frame.specs.Grammar.{Fits};
ghost use Rattle.cb_client.specs.Lending.{client_ends_as};
ghost use Rattle.cb_client_core.specs.declared.stage.PendingAsk.TheVariants.{Nothing};
ghost use Rattle.cb_client_core.specs.declared.stage.Stage.TheVariants.{Idle, Open};
ghost use Rattle.cb_cache.specs.CacheState.{content_at, copy_at};
ghost use Rattle.cb_outbox.specs.Messages.{message_of};
ghost use Rattle.cb_protocol.specs.Answers.{AnsweredBytes, AnsweredOk};
ghost use Rattle.cb_protocol.specs.ClientCalls.{CallBegin, CallFinish, CallHello, CallPeek};
ghost use Rattle.cb_protocol.specs.ClientCalls.{CallRead, CallWrite, open_causes};
ghost use Rattle.cb_protocol.specs.ClientCalls.{page_causes, peek_word, read_causes, say_ask};
ghost use Rattle.cb_protocol.specs.Client.{bodies_said};
ghost use Rattle.cb_protocol.specs.Serial.{Operation};
ghost use Rattle.cb_client_core.specs.ClientState.{client_of};
ghost use Rattle.cb_client.specs.ByTable.{messages_from};
ghost use Rattle.cb_client.specs.CallAnswers.{short_message};

use crate::answers::{ReadAnswer, WantAnswer};
use crate::client::Client;
use crate::client_fault::ClientFault;
use cb_client_core::{PendingAsk, Stage};
use cb_frame::{Frame, ShortBody, ShortFrame};
use cb_page::{GrantNo, PageNo, TxnNo};
use cb_twoq::Chooser;

impl<Q: Chooser> Client<Q> {
    /// The transaction that has begun and not ended.
    pub(super) fn present_txn(&self) -> TxnNo
        requires { self.now.stage ≢ Idle }
        ensures { self.now.txn ≡ Some result }
    {
        let Some(txn) = self.core.txn else {
            unreachable!()
        };
        txn
    }

    /// Greets the server. It is never refused.
    #[tactic(auto, using(crate::proofs::CallSteps::greets))]
    pub fn hello(&self) -> Frame
        ensures by_table { Calls self.now CallHello AnsweredOk (message_of result ∷ []) as_before
            self.now }
        ensures fits { Fits self.now.copies.limits result }
    {
        // A look at a field tells the prover what holds of every client.
        let _known = &self.core.no;
        Frame::from(self.core.say(ShortBody::Hello))
    }

    /// The bytes of the client's copy of a page, in a transaction or not. `None` if it has none, or
    /// there is no such page. It doesn't count as a reference to the page.
    pub fn peek(&self, page: PageNo) -> Option<&[u8]>
        ensures { Calls self.now (CallPeek page) (peek_word (option_copied result)) [] as_before
            self.now }
    {
        self.core.copies.peek(page)
    }

    /// The number of the next transaction, if none is under way and one is left.
    #[tactic(auto, using(cb_protocol::proofs::Cases::fault_of_begin))]
    fn next_txn(&self) -> Result<TxnNo, ClientFault>
        ensures decided { IsDecided self.now CallBegin result }
        ensures next { IfOk result (λ next. next ≡ unwrap_or self.now.txn 0 + 1) }
    {
        if !self.core.welcomed {
            return Err(ClientFault::NotWelcome);
        }
        if self.core.stage != Stage::Idle {
            return Err(ClientFault::TransactionOpen);
        }
        let next = match self.core.txn {
            None => Some(TxnNo::new(1)),
            Some(txn) => txn.next(),
        };
        next.ok_or(ClientFault::Exhausted)
    }

    /// Begins a transaction, and returns its number.
    pub fn begin(&mut self) -> Result<TxnNo, ClientFault>
        ensures { Begins self.old result self.new }
    {
        let txn = self.next_txn()?;
        self.core.txn = Some(txn);
        self.core.stage = Stage::Open;
        self.core.locks.begin(txn);
        Ok(txn)
    }

    /// That a transaction is open.
    pub(super) fn check_open(&self) -> Result<(), ClientFault>
        ensures causes { IsFirst self.now (λ client. open_causes client) result }
        ensures open { IsOk result → self.now.stage ≡ Open }
    {
        // A transaction that has begun did so after the Welcome.
        match self.core.stage {
            Stage::Open => Ok(()),
            Stage::Committing => Err(ClientFault::Committing),
            Stage::Idle if self.core.welcomed => Err(ClientFault::NoTransaction),
            Stage::Idle => Err(ClientFault::NotWelcome),
        }
    }

    /// Whether there is no such page.
    fn is_past(&self, page: PageNo) -> bool
        ensures value { result ≡ nat_le self.now.copies.limits.pages page }
        ensures within { result ≡ false → page < self.now.copies.limits.pages }
    {
        !self.limits().has_page(page.get())
    }

    /// That a transaction is open which waits for nothing, and that there is such a page.
    fn check_page(&self, page: PageNo) -> Result<(), ClientFault>
        ensures causes { IsFirst self.now
            (λ client. page_causes (limits_at self.now) client page) result }
        ensures open { IsOk result → self.now.stage ≡ Open }
        ensures no_ask { IsOk result → self.now.ask ≡ Nothing }
        ensures page { IsOk result → page < self.now.copies.limits.pages }
    {
        self.check_finish()?;
        if self.is_past(page) {
            return Err(ClientFault::PageRange);
        }
        Ok(())
    }

    /// Whether the page's bytes are in the pool: there is such a page then.
    fn is_here(&self, page: PageNo) -> bool
        ensures here { result ≡ is_some (content_at self.now.copies page) }
        ensures within { IsTrue result → page < self.now.copies.limits.pages }
    {
        let bytes = self.core.copies.peek(page);
        bytes.is_some()
    }

    /// That besides the transaction has read the page, and its bytes are in the pool: what `want`
    /// asks.
    fn check_read(&self, page: PageNo) -> Result<(), ClientFault>
        ensures causes { IsFirst self.now
            (λ client. page_causes (limits_at self.now) client page ++ read_causes client page)
            result }
        ensures open { IsOk result → self.now.stage ≡ Open }
        ensures no_ask { IsOk result → self.now.ask ≡ Nothing }
        ensures page { IsOk result → page < self.now.copies.limits.pages }
        ensures here { IsOk result → is_some (content_at self.now.copies page) ≡ true }
    {
        self.check_page(page)?;
        if !self.core.locks.is_locked(page) {
            return Err(ClientFault::NotRead);
        }
        if !self.is_here(page) {
            return Err(ClientFault::NotHere);
        }
        Ok(())
    }

    /// That besides the client may write the page, and these are the bytes of one.
    fn check_write(&self, page: PageNo, bytes: &[u8]) -> Result<(), ClientFault>
        ensures decided { IsDecided self.now (CallWrite page bytes.now) result }
        ensures no_ask { IsOk result → self.now.ask ≡ Nothing }
        ensures here { IsOk result → is_some (content_at self.now.copies page) ≡ true }
        ensures size { IsOk result → length bytes.now ≡ self.now.copies.limits.page_size }
    {
        self.check_read(page)?;
        if !self.core.copies.may_write(page) {
            return Err(ClientFault::NotWritable);
        }
        if bytes.len() != self.limits().page_size() {
            return Err(ClientFault::WrongLength);
        }
        Ok(())
    }

    /// Locks the page if its bytes are in the pool, which counts as a reference to it, and says
    /// whether they are: a transaction is open, and waits for nothing.
    fn lock_here(&mut self, page: PageNo) -> bool
        requires free { IsDecided {X = ⊤} self.old CallFinish (Ok tt) }
        ensures here { result ≡ is_some (content_at self.old.copies page) }
        ensures read { IsTrue result → self.new ≡ page_read self.old page }
        ensures away { result ≡ false → self.new ≡ self.old }
        ensures page { IsTrue result → page < self.old.copies.limits.pages }
        ensures locks { IsTrue result → page < length self.old.locks.locked }
    {
        if !self.core.copies.reference(page) {
            return false;
        }
        self.core.locks.lock(page);
        true
    }

    /// Reads a page in the open transaction if its bytes are in the pool, and says whether it did.
    /// This does what `read` does when it answers Bytes, and counts as a reference to the page.
    /// Otherwise nothing changes, and the page isn't asked for.
    pub fn read_here(&mut self, page: PageNo) -> bool
        ensures here { result ≡ reads_here self.old page }
        ensures after { self.new ≡ after_read_here self.old page }
        ensures by_table { IsTrue result
            → Calls self.old (CallRead page) (AnsweredBytes (bytes_at self.old page)) []
            (sees page (bytes_at self.old page)) self.new }
    {
        match self.check_finish() {
            Ok(()) => self.lock_here(page),
            Err(_) => false,
        }
    }

    /// Asks for a page whose bytes aren't in the pool, if there is room for them: a transaction is
    /// open, and waits for nothing.
    fn ask_to_read(&mut self, page: PageNo) -> Result<(), ClientFault>
        requires free { IsDecided {X = ⊤} self.old CallFinish (Ok tt) }
        requires away { is_some (content_at self.old.copies page) ≡ false }
        ensures decided { IsDecided self.old (CallRead page) result }
        ensures after { self.new ≡ after_read self.old page }
        ensures called { Called self.old (CallRead page) self.new }
        ensures kept { self.new.copies ≡ self.old.copies }
    {
        if self.is_past(page) {
            return Err(ClientFault::PageRange);
        }
        if !self.core.copies.has_room() {
            return Err(ClientFault::PoolFull);
        }
        self.core.ask = PendingAsk::Read(page);
        Ok(())
    }

    /// Reads the page if its bytes are in the pool, and says whether they are; else an ask for it
    /// is out, if there is room for them.
    fn read_or_ask(&mut self, page: PageNo) -> Result<bool, ClientFault>
        ensures decided { IsDecided self.old (CallRead page) result }
        ensures after { self.new ≡ after_read self.old page }
        ensures called { Called self.old (CallRead page) self.new }
        ensures here { IfOk result (λ here. here ≡ is_some (content_at self.new.copies page)) }
        ensures page { IfOk result (λ here. IsTrue here → page < length self.old.locks.locked) }
    {
        self.check_finish()?;
        if self.lock_here(page) {
            return Ok(true);
        }
        self.ask_to_read(page)?;
        Ok(false)
    }

    /// Reads a page in the open transaction and lends its bytes, which counts as a reference to the
    /// page. If the bytes aren't in the pool, it asks for the page.
    pub fn read(&mut self, page: PageNo) -> Result<ReadAnswer<'_>, ClientFault>
        ensures* ends { sem 𝓛 (client_ends_as Q.row Q.Chooser self.entry
            (after_read self.old page)) }
        ensures by_table { Called self.old (CallRead page) (after_read self.old page) }
        ensures answer { AnswersRead self.old page result }
    {
        let here = self.read_or_ask(page)?;
        if here {
            Ok(ReadAnswer::Bytes(self.core.copies.bytes(page)))
        } else {
            Ok(ReadAnswer::Asked)
        }
    }

    /// The grant of a page whose bytes are in the pool.
    fn grant_of(&self, page: PageNo) -> GrantNo
        requires here { is_some (content_at self.now.copies page) ≡ true }
        requires page { page < self.now.copies.limits.pages }
        ensures { (copy_at self.now.copies page).held ≡ Some result }
    {
        let Some(grant) = self.core.copies.at(page).held else {
            unreachable!()
        };
        grant
    }

    /// Asks to write a page in the open transaction. The pool keeps the page until the transaction
    /// ends.
    pub fn want(&mut self, page: PageNo) -> Result<WantAnswer, ClientFault>
        ensures by_table { Wants self.old page result self.new }
        ensures fits { IfOk result (WantFits self.old.copies.limits) }
    {
        self.check_read(page)?;
        if self.core.copies.may_write(page) {
            self.core.copies.want(page);
            return Ok(WantAnswer::Permitted);
        }
        let txn = self.present_txn();
        let grant = self.grant_of(page);
        let ask = self.core.say(ShortBody::AskWrite { txn, page, grant });
        self.core.copies.want(page);
        self.core.ask = PendingAsk::Write(page);
        Ok(WantAnswer::Asked(ask))
    }

    /// Writes a page in the open transaction: its bytes in the pool become these.
    pub fn write(&mut self, page: PageNo, bytes: &[u8]) -> Result<(), ClientFault>
        ensures { Writes self.old page bytes.now result self.new }
    {
        self.check_write(page, bytes)?;
        self.core.copies.write(page, bytes);
        Ok(())
    }

    /// The frame of the ask that has no answer yet, if there is one.
    pub fn ask(&self) -> Option<ShortFrame>
        ensures by_table { (operations : List Operation)
            → messages_from self.now (bodies_said (say_ask (client_of self.now operations)
            (client_of self.now operations).ask))
            ≡ option_to_list (option_map short_message result) }
        ensures fits { IfSome result (ShortFrameFits self.now.copies.limits) }
    {
        match self.core.ask {
            PendingAsk::Nothing => None,
            PendingAsk::Read(page) => {
                let txn = self.present_txn();
                Some(self.core.say(ShortBody::AskRead { txn, page }))
            }
            PendingAsk::Write(page) => {
                let txn = self.present_txn();
                let grant = self.core.copies.at(page).held?;
                Some(self.core.say(ShortBody::AskWrite { txn, page, grant }))
            }
        }
    }
}
