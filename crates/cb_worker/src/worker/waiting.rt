//! The calls that take the office's lock, and may wait. No thread makes one while it has a guard of
//! that lock: it would wait for itself.
ghost use Rattle.std.specs.Prelude.{◌≡◌, ◌↔◌, [], false, true, IfErr, IfOk, IfSome, IsTrue};
ghost use Rattle.std.specs.Prelude.{MatchBool, Ok, Err, OnOk};
ghost use Rattle.std.specs.Borrow.{sem};
ghost use Rattle.cb_client.specs.CallAnswers.{SaysCommit};
ghost use Rattle.cb_client_core.specs.ClientState.{IsClient};
ghost use Rattle.cb_protocol.specs.Client as protocol;
ghost use Rattle.cb_protocol.specs.ClientCalls.{CallDrop, CallWant};
ghost use Rattle.cb_worker.specs.Asking.{AsksFor, AsksToWrite};
ghost use Rattle.cb_worker.specs.Lending.{worker_ends};
ghost use Rattle.cb_station.specs.Moves.{IsKnown};
ghost use Rattle.cb_station.specs.Stations.{IsStation};
ghost use Rattle.cb_station.specs.Telling.{IsTold};
ghost use Rattle.cb_worker.specs.Dropping.{Drops, IsDropped, SaysDrop};
ghost use Rattle.cb_worker.specs.Handing.{HasCommitted};
ghost use Rattle.cb_worker.specs.Keeping.{KeepsUsed, OpenOrAborted};
ghost use Rattle.cb_worker.specs.Moving.{IsStill};
ghost use Rattle.cb_worker.specs.Refusals.{RefusesAsk, RefusesCall, RefusesDrop, RefusesFetch};
ghost use Rattle.cb_worker.specs.Refusals.{RefusesCommit, RefusesFinish, RefusesToDrop};
ghost use Rattle.cb_worker.specs.Refusals.{RefusesWant, StopsAt, StopsFetch, StopsServing};
ghost use Rattle.cb_worker.specs.Serving.{HandsAllIn, HandsInAndTells, HandsOne, Serves};
ghost use Rattle.cb_worker.specs.Serving.{ServesAndTells, ServesSome};
ghost use Rattle.cb_worker.specs.Steps.{Begun, Comes, RefusesToBegin, StopsOr};
ghost use Rattle.cb_worker.specs.Waiting.{Fetches, Finishes, HasRead, IsServed, Wants};
ghost use Rattle.cb_worker.specs.Workers.{Ended, Ends, HasTransaction, ReadsAtHand, WasAborted};
ghost use Rattle.cb_worker.specs.Workers.{WorkerState, after_hit, may_hit, seen_by};

use crate::answers::{Fetched, Finished, Wanted};
use crate::awaited::{Awaited, Came};
use crate::said::Said;
use crate::worker::Worker;
use crate::worker_fault::WorkerFault;
use cb_client::{ReadAnswer, WantAnswer};
use cb_frame::Frame;
use cb_page::PageNo;
use cb_station::{Office, OfficeFault, Station};
use cb_twoq::Chooser;
use std::alloc::Global;
use std::sync::{MutexGuard, Wait};

impl<Q: Chooser> Worker<Q> {
    /// Hands in and takes all that there is.
    pub fn serve<R: Wait>(
        &mut self,
        rt: &R,
        alloc: Global,
        office: &Office,
    ) -> Result<(), WorkerFault>
        ensures serves { ServesSome self.old result self.new }
        ensures served { OnOk result (IsServed self.new) }
        ensures still { IsStill self.old self.new }
        ensures used { KeepsUsed (seen_by self.old) (seen_by self.new) }
        ensures goes { OpenOrAborted (seen_by self.old) (seen_by self.new) }
        ensures refused { IfErr result (StopsServing self.new) }
    {
        let mut station = office.lock(rt);
        self.serve_at(rt, alloc, office, &mut station)
    }

    /// Makes turns until there is nothing to do, and tells all who are to be told.
    pub(super) fn serve_at<R: Wait>(
        &mut self,
        rt: &R,
        alloc: Global,
        office: &Office,
        station: &mut Station,
    ) -> Result<(), WorkerFault>
        ensures serves { ServesAndTells self.old station.old result self.new station.new }
        ensures served { OnOk result (IsServed self.new) }
        ensures still { IsStill self.old self.new }
        ensures used { KeepsUsed (seen_by self.old) (seen_by self.new) }
        ensures goes { OpenOrAborted (seen_by self.old) (seen_by self.new) }
        ensures halted { (result ≡ Err WorkerFault.Halted) ↔ (station.old.flags.halted ≡ true) }
        ensures told { IsTold station.new }
        ensures sound { IsStation station.old }
        ensures refused { IfErr result (StopsServing self.new) }
    {
        let known = station.knows(&self.hand);
        self.serve_knowing(rt, alloc, office, station, known)
    }

    /// The same, told whether the station knows the hand. A call that serves more than once under
    /// one lock asks for that once.
    fn serve_knowing<R: Wait>(
        &mut self,
        rt: &R,
        alloc: Global,
        office: &Office,
        station: &mut Station,
        known: bool,
    ) -> Result<(), WorkerFault>
        requires { IsKnown known station.old self.old.hand }
        ensures serves { ServesAndTells self.old station.old result self.new station.new }
        ensures served { OnOk result (IsServed self.new) }
        ensures still { IsStill self.old self.new }
        ensures used { KeepsUsed (seen_by self.old) (seen_by self.new) }
        ensures goes { OpenOrAborted (seen_by self.old) (seen_by self.new) }
        ensures halted { (result ≡ Err WorkerFault.Halted) ↔ (station.old.flags.halted ≡ true) }
        ensures told { IsTold station.new }
        ensures sound { IsStation station.old }
        ensures refused { IfErr result (StopsServing self.new) }
        ensures known { IsKnown known station.new self.new.hand }
    {
        let served = self.make_turns(rt, alloc, station, known);
        office.tell(station);
        served
    }

    /// Makes turns until there is nothing to do.
    fn make_turns<R: Wait>(
        &mut self,
        rt: &R,
        alloc: Global,
        station: &mut Station,
        known: bool,
    ) -> Result<(), WorkerFault>
        requires { IsKnown known station.old self.old.hand }
        ensures known { IsKnown known station.new self.new.hand }
        ensures serves { Serves self.old station.old result self.new station.new }
        ensures served { OnOk result (IsServed self.new) }
        ensures still { IsStill self.old self.new }
        ensures used { KeepsUsed (seen_by self.old) (seen_by self.new) }
        ensures goes { OpenOrAborted (seen_by self.old) (seen_by self.new) }
        ensures halted { (result ≡ Err WorkerFault.Halted) ↔ (station.old.flags.halted ≡ true) }
        ensures sound { IsStation station.old }
        ensures refused { IfErr result (StopsServing self.new) }
    {
        // What holds of every station, its history says.
        let _known = station.history();
        for _ in rt.forever() {
            if station.is_halted() {
                return Err(WorkerFault::Halted);
            }
            let turned = self.turn_knowing(alloc, station, known)?;
            if !turned {
                return Ok(());
            }
        }
        unreachable!()
    }

    /// Serves first, as each call does. Returns whether that aborted the transaction, if there was
    /// one.
    fn serve_first<R: Wait>(
        &mut self,
        rt: &R,
        alloc: Global,
        office: &Office,
        station: &mut Station,
        known: bool,
    ) -> Result<bool, WorkerFault>
        requires { IsKnown known station.old self.old.hand }
        ensures known { IsKnown known station.new self.new.hand }
        ensures aborted { IfOk result (λ aborted. IsTrue aborted ↔ WasAborted self.new) }
        ensures served { OnOk result (IsServed self.new) }
        ensures still { IsStill self.old self.new }
        ensures used { KeepsUsed (seen_by self.old) (seen_by self.new) }
        ensures told { IsTold station.new }
        ensures refused { IfErr result (StopsServing self.new) }
    {
        self.serve_knowing(rt, alloc, office, station, known)?;
        Ok(self.is_aborted())
    }

    /// Reads a page in the open transaction, and lends its bytes: at once if it holds them,
    /// otherwise once they came. If no transaction is open or committing, the client's own fault
    /// refuses it.
    pub fn fetch<R: Wait>(
        &mut self,
        rt: &R,
        alloc: Global,
        office: &Office,
        page: PageNo,
    ) -> Result<Fetched<'_>, WorkerFault>
        ensures* ends { sem 𝓛 (worker_ends Q.row Q.Chooser self.entry
            (λ worker. IsStill self.old worker × IfOk result (Fetches self.old worker page)
            × IfErr result (RefusesFetch self.old worker page))) }
        ensures at_hand { IfErr result (λ fault. may_hit self.old page ≡ false) }
        ensures refused { IfErr result (StopsFetch self.old page) }
    {
        if !self.fetch_copy(rt, alloc, office, page)? {
            return Ok(Fetched::Aborted);
        }
        // What holds of every client, its limits say.
        let _known = self.client.limits();
        let Some(bytes) = self.client.peek(page) else {
            unreachable!()
        };
        Ok(Fetched::Bytes(bytes))
    }

    /// Reads a page; `false` if the transaction was aborted.
    fn fetch_copy<R: Wait>(
        &mut self,
        rt: &R,
        alloc: Global,
        office: &Office,
        page: PageNo,
    ) -> Result<bool, WorkerFault>
        ensures reads { IfOk result (λ fetched.
            MatchBool fetched (HasRead self.new page) (Ends self.old self.new protocol.Aborted)) }
        ensures at_once { may_hit self.old page ≡ true
            → (result ≡ Ok true) × (self.new ≡ after_hit self.old page) }
        ensures had { OnOk result (HasTransaction self.old) }
        ensures still { IsStill self.old self.new }
        ensures refused { IfErr result (RefusesFetch self.old self.new page) }
    {
        if self.read_here(page) {
            return Ok(true);
        }
        self.needs_transaction()?;
        let mut station = office.lock_to_wait(rt);
        let first = self.begin_fetch(rt, alloc, office, page, &mut station);
        match self.wait_on(rt, alloc, office, &Awaited::Page(page), station, first)? {
            Came::There => Ok(true),
            Came::Ended(_) => Ok(false),
        }
    }

    /// Serves, and reads the page, or asks for it if it isn't here. `None` if it has to be waited
    /// for.
    fn begin_fetch<R: Wait>(
        &mut self,
        rt: &R,
        alloc: Global,
        office: &Office,
        page: PageNo,
        station: &mut Station,
    ) -> Result<Option<Came>, WorkerFault>
        ensures comes { IfOk result (λ came. IfSome came (Comes (Awaited.Page page) self.new)) }
        ensures served { OnOk result (IsServed self.new) }
        ensures still { IsStill self.old self.new }
        ensures told { IsTold station.new }
        ensures refused { IfErr result (StopsOr self.new (RefusesAsk self.new page)) }
    {
        let known = station.knows(&self.hand);
        let aborted = self.serve_first(rt, alloc, office, station, known)?;
        if aborted {
            return Ok(Some(Came::Ended(Finished::Aborted)));
        }
        if self.read_or_ask(page)? {
            return Ok(Some(Came::There));
        }
        self.go_on(rt, alloc, office, &Awaited::Page(page), station, known)
    }

    /// Reads the page if its bytes and the hand's copy of it are here, and says whether it did.
    /// Otherwise the client asks for it.
    fn read_or_ask(&mut self, page: PageNo) -> Result<bool, WorkerFault>
        requires silent { self.old.said ≡ [] }
        requires going { ¬ WasAborted self.old }
        ensures still { IsStill self.old self.new }
        ensures hand { self.new.hand ≡ self.old.hand }
        ensures reads { IfOk result (λ read. MatchBool read (ReadsAtHand self.old page self.new)
            (AsksFor self.old page self.new)) }
        ensures refused { IfErr result (RefusesAsk self.new page) }
    {
        let shown = self.shows_copy(page);
        match self.client.read(page)? {
            ReadAnswer::Bytes(_) => {
                if shown {
                    return Ok(true);
                }
                return Err(WorkerFault::Office(OfficeFault::NotHeld));
            }
            ReadAnswer::Asked => {}
        }
        if let Some(ask) = self.client.ask() {
            self.said.keep(ask);
        }
        Ok(false)
    }

    /// Asks to write a page that the open transaction has read, and waits until it may. The page's
    /// bytes are then as they were. If no transaction is open or committing, the client's own fault
    /// refuses it.
    pub fn want<R: Wait>(
        &mut self,
        rt: &R,
        alloc: Global,
        office: &Office,
        page: PageNo,
    ) -> Result<Wanted, WorkerFault>
        ensures wants { IfOk result (Wants self.old self.new page) }
        ensures served { OnOk result (IsServed self.new) }
        ensures still { IsStill self.old self.new }
        ensures refused { IfErr result (RefusesWant self.old self.new page) }
    {
        self.needs_transaction()?;
        let mut station = office.lock_to_wait(rt);
        let first = self.begin_want(rt, alloc, office, page, &mut station);
        match self.wait_on(
            rt,
            alloc,
            office,
            &Awaited::Permission(page),
            station,
            first,
        )? {
            Came::There => Ok(Wanted::Permitted),
            Came::Ended(_) => Ok(Wanted::Aborted),
        }
    }

    /// Serves, and asks for the permission. `None` if it has to be waited for.
    fn begin_want<R: Wait>(
        &mut self,
        rt: &R,
        alloc: Global,
        office: &Office,
        page: PageNo,
        station: &mut Station,
    ) -> Result<Option<Came>, WorkerFault>
        ensures comes { IfOk result
            (λ came. IfSome came (Comes (Awaited.Permission page) self.new)) }
        ensures served { OnOk result (IsServed self.new) }
        ensures still { IsStill self.old self.new }
        ensures begun { OnOk result (Begun (Awaited.Permission page) self.old self.new) }
        ensures told { IsTold station.new }
        ensures refused { IfErr result (StopsOr self.new (RefusesCall self.new (CallWant page))) }
    {
        let known = station.knows(&self.hand);
        let aborted = self.serve_first(rt, alloc, office, station, known)?;
        if aborted {
            return Ok(Some(Came::Ended(Finished::Aborted)));
        }
        self.ask_to_write(page)?;
        self.go_on(
            rt,
            alloc,
            office,
            &Awaited::Permission(page),
            station,
            known,
        )
    }

    /// The client asks to write the page, and for the permission if it hasn't got it.
    fn ask_to_write(&mut self, page: PageNo) -> Result<(), WorkerFault>
        requires silent { self.old.said ≡ [] }
        requires going { ¬ WasAborted self.old }
        ensures still { IsStill self.old self.new }
        ensures hand { self.new.hand ≡ self.old.hand }
        ensures asks { OnOk result (AsksToWrite self.old page self.new) }
        ensures refused { IfErr result (RefusesCall self.new (CallWant page)) }
    {
        match self.client.want(page)? {
            WantAnswer::Permitted => {}
            WantAnswer::Asked(ask) => self.said.keep(ask),
        }
        Ok(())
    }

    /// Ends the open transaction without a commit. Nothing is open or committing then, and the Drop
    /// was handed in, unless the transaction was aborted. If nothing is open or committing before,
    /// the client's own fault refuses the call.
    ///
    /// After a fault of the office the Drop is kept, and a later call hands it in.
    pub fn drop_txn<R: Wait>(
        &mut self,
        rt: &R,
        alloc: Global,
        office: &Office,
    ) -> Result<(), WorkerFault>
        ensures drops { OnOk result (Drops self.old self.new) }
        ensures said { OnOk result (self.new.said ≡ []) }
        ensures still { IsStill self.old self.new }
        ensures refused { IfErr result (RefusesDrop self.old self.new) }
    {
        self.needs_transaction()?;
        let mut station = office.lock(rt);
        self.drop_at(rt, alloc, office, &mut station)
    }

    /// The same at the locked station.
    fn drop_at<R: Wait>(
        &mut self,
        rt: &R,
        alloc: Global,
        office: &Office,
        station: &mut Station,
    ) -> Result<(), WorkerFault>
        ensures dropped { OnOk result (IsDropped self.old self.new) }
        ensures said { OnOk result (self.new.said ≡ []) }
        ensures still { IsStill self.old self.new }
        ensures told { IsTold station.new }
        ensures refused { IfErr result (RefusesDrop self.old self.new) }
    {
        let known = station.knows(&self.hand);
        if self.serve_first(rt, alloc, office, station, known)? {
            return Ok(());
        }
        self.drop_open(alloc)?;
        self.hand_all_in(alloc, office, station, known)
    }

    /// The client drops its transaction. The frames that it sends are kept.
    fn drop_open(&mut self, alloc: Global) -> Result<(), WorkerFault>
        requires silent { self.old.said ≡ [] }
        requires going { ¬ WasAborted self.old }
        ensures dropped { OnOk result (Ended self.new protocol.Dropped) }
        ensures says { OnOk result (SaysDrop self.old self.new) }
        ensures still { IsStill self.old self.new }
        ensures hand { self.new.hand ≡ self.old.hand }
        ensures refused { IfErr result (RefusesToDrop self.new) }
    {
        let said = self.client.drop_txn(alloc)?;
        self.said = Said::of(said);
        Ok(())
    }

    /// Hands in all frames of the client, takes nothing, and tells all who are to be told.
    fn hand_all_in(
        &mut self,
        alloc: Global,
        office: &Office,
        station: &mut Station,
        known: bool,
    ) -> Result<(), WorkerFault>
        requires { IsKnown known station.old self.old.hand }
        ensures hands { HandsInAndTells self.old station.old result self.new station.new }
        ensures client { self.new.client ≡ self.old.client }
        ensures all { OnOk result (self.new.said ≡ []) }
        ensures still { IsStill self.old self.new }
        ensures told { IsTold station.new }
        ensures sound { IsStation station.old }
        ensures refused { IfErr result (StopsAt HandsOne self.old self.new) }
    {
        let handed = self.hand_kept_in(alloc, station, known);
        office.tell(station);
        handed
    }

    /// Hands in all frames of the client, and takes nothing.
    fn hand_kept_in(
        &mut self,
        alloc: Global,
        station: &mut Station,
        known: bool,
    ) -> Result<(), WorkerFault>
        requires { IsKnown known station.old self.old.hand }
        ensures hands { HandsAllIn self.old station.old result self.new station.new }
        ensures client { self.new.client ≡ self.old.client }
        ensures all { OnOk result (self.new.said ≡ []) }
        ensures still { IsStill self.old self.new }
        ensures sound { IsStation station.old }
        ensures refused { IfErr result (StopsAt HandsOne self.old self.new) }
    {
        // What holds of every station, its history says.
        let _known = station.history();
        while !self.said.is_empty() {
            let _handed = self.hand_in(alloc, station, known)?;
        }
        Ok(())
    }

    /// Commits the open transaction, and waits until the commit is on disk. What is committed is
    /// exactly what the transaction wrote. If no transaction is open or committing, the client's
    /// own fault refuses the call.
    ///
    /// Its clauses say that the commit was handed in, at some station, unless the client was
    /// committing before. They don't say that the commit is on disk, or that the number is its own.
    /// Both are what the Done says.
    ///
    /// The written pages are copied before the lock is taken, and none under it. The client's
    /// `Memory` comes only if memory was refused for that copy, or for what the call serves.
    ///
    /// After a fault of the office the client is committing, and a later call goes on.
    pub fn finish<R: Wait>(
        &mut self,
        rt: &R,
        alloc: Global,
        office: &Office,
    ) -> Result<Finished, WorkerFault>
        ensures finishes { IfOk result (Finishes self.old self.new) }
        ensures served { OnOk result (IsServed self.new) }
        ensures still { IsStill self.old self.new }
        ensures commits { IfOk result (HasCommitted self.old) }
        ensures refused { IfErr result (RefusesFinish self.old self.new) }
    {
        self.needs_transaction()?;
        let frame = self.frame_to_commit(alloc)?;
        let mut station = office.lock_to_wait(rt);
        let first = self.begin_finish(rt, alloc, office, frame, &mut station);
        match self.wait_on(rt, alloc, office, &Awaited::End, station, first)? {
            Came::Ended(finished) => Ok(finished),
            Came::There => unreachable!(),
        }
    }

    /// Serves, and commits by that frame unless the transaction is over; then the frame is dropped.
    /// `None` if the end has to be waited for.
    fn begin_finish<R: Wait>(
        &mut self,
        rt: &R,
        alloc: Global,
        office: &Office,
        frame: Frame,
        station: &mut Station,
    ) -> Result<Option<Came>, WorkerFault>
        requires says { SaysCommit self.old.client frame }
        requires arose { IsClient self.old.client }
        ensures comes { IfOk result (λ came. IfSome came (Comes Awaited.End self.new)) }
        ensures served { OnOk result (IsServed self.new) }
        ensures still { IsStill self.old self.new }
        ensures begun { OnOk result (Begun Awaited.End self.old self.new) }
        ensures told { IsTold station.new }
        ensures refused { IfErr result (StopsOr self.new (RefusesCommit self.new)) }
    {
        let known = station.knows(&self.hand);
        self.serve_knowing(rt, alloc, office, station, known)?;
        if let Some(ended) = self.ended() {
            return Ok(Some(Came::Ended(ended)));
        }
        // What holds of every station, its history says.
        let _known = station.history();
        let _number = self.commit_by(alloc, frame, station, known)?;
        // Serving tells all who are to be told of the commit.
        self.go_on(rt, alloc, office, &Awaited::End, station, known)
    }

    /// Waits, and serves meanwhile, until there is an answer. It returns at once if the step that
    /// began the wait has one.
    pub(super) fn wait_on<'a, R: Wait>(
        &mut self,
        rt: &R,
        alloc: Global,
        office: &'a Office,
        awaited: &Awaited,
        locked: MutexGuard<'a, Station>,
        first: Result<Option<Came>, WorkerFault>,
    ) -> Result<Came, WorkerFault>
        requires comes { IfOk first (λ came. IfSome came (Comes awaited.now self.old)) }
        requires served { OnOk first (IsServed self.old) }
        requires refused { IfErr first (StopsOr self.old (RefusesToBegin awaited.now self.old)) }
        ensures comes { IfOk result (Comes awaited.now self.new) }
        ensures served { OnOk result (IsServed self.new) }
        ensures still { IsStill self.old self.new }
        ensures begun { (before : WorkerState) → OnOk first (Begun awaited.now before self.old)
            → OnOk result (Begun awaited.now before self.new) }
        ensures refused { IfErr result (StopsOr self.new (RefusesToBegin awaited.now self.new)) }
    {
        let mut station = locked;
        let mut came = first;
        for _ in rt.forever() {
            if let Some(answer) = came.transpose() {
                return answer;
            }
            station = office.wait_for_frame(rt, station, self.hand.client());
            let known = station.knows(&self.hand);
            came = self.go_on(rt, alloc, office, awaited, &mut station, known);
        }
        unreachable!()
    }

    /// Serves, told whether the station knows the hand, and looks at what has come. `None` if
    /// nothing has.
    pub(super) fn go_on<R: Wait>(
        &mut self,
        rt: &R,
        alloc: Global,
        office: &Office,
        awaited: &Awaited,
        station: &mut Station,
        known: bool,
    ) -> Result<Option<Came>, WorkerFault>
        requires { IsKnown known station.old self.old.hand }
        ensures comes { IfOk result (λ came. IfSome came (Comes awaited.now self.new)) }
        ensures served { OnOk result (IsServed self.new) }
        ensures still { IsStill self.old self.new }
        ensures goes { OpenOrAborted (seen_by self.old) (seen_by self.new) }
        ensures told { IsTold station.new }
        ensures refused { IfErr result (StopsServing self.new) }
    {
        self.serve_knowing(rt, alloc, office, station, known)?;
        Ok(self.come(awaited))
    }

    /// What has come. If it is a page, the page is read.
    fn come(&mut self, awaited: &Awaited) -> Option<Came>
        ensures comes { IfSome result (Comes awaited.now self.new) }
        ensures served { IsServed self.old → IsServed self.new }
        ensures still { IsStill self.old self.new }
        ensures goes { OpenOrAborted (seen_by self.old) (seen_by self.new) }
    {
        match awaited {
            Awaited::Welcome => {
                if self.is_welcomed() {
                    return Some(Came::There);
                }
                None
            }
            Awaited::Page(page) => {
                if self.read_here(*page) {
                    return Some(Came::There);
                }
                self.aborted()
            }
            Awaited::Permission(page) => {
                if self.client.may_write(*page) {
                    return Some(Came::There);
                }
                self.aborted()
            }
            Awaited::End => Some(Came::Ended(self.ended()?)),
        }
    }
}
