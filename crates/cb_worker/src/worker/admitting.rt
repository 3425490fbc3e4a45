//! Tries are let in, and a worker waits a moment.
ghost use Rattle.std.specs.Prelude.{IfErr, IfOk, IfSome, OnOk};
ghost use Rattle.cb_station.specs.Telling.{IsTold};
ghost use Rattle.cb_worker.specs.Admitting.{AsksAgainAndTells, AsksAndTells, EntersAgainAt};
ghost use Rattle.cb_worker.specs.Admitting.{EntersAt, StopsAndTells, WasLetIn};
ghost use Rattle.cb_worker.specs.Moving.{IsStill};
ghost use Rattle.cb_worker.specs.Refusals.{StopsServing};
ghost use Rattle.cb_worker.specs.Waiting.{IsServed};

use crate::worker::Worker;
use crate::worker_fault::WorkerFault;
use cb_page::ClientNo;
use cb_station::{EndedTry, Office, Station, Ticket};
use cb_twoq::Chooser;
use std::alloc::Global;
use std::sync::{MutexGuard, Wait};
use std::time::{Clock, Duration};

impl<Q: Chooser> Worker<Q> {
    /// Waits until a try of the client's is let in, and serves meanwhile. The ticket goes back by
    /// [`Ticket::ended`], and `Office::end_try` or [`Worker::enter_again`] of the same office,
    /// whatever becomes of the try.
    pub fn enter<R: Wait>(
        &mut self,
        rt: &R,
        alloc: Global,
        office: &Office,
    ) -> Result<Ticket, WorkerFault>
        ensures let_in { IfOk result (WasLetIn self.new) }
        ensures served { OnOk result (IsServed self.new) }
        ensures still { IsStill self.old self.new }
        ensures refused { IfErr result (StopsServing self.new) }
    {
        let mut station = office.lock_to_wait(rt);
        let first = self.enter_at(rt, alloc, office, &mut station);
        self.wait_to_enter(rt, alloc, office, station, first)
    }

    /// Ends a try, gives its ticket back, and waits as [`Worker::enter`] does until the client's
    /// next try is let in. Both happen under one lock. If the client goes on at once, nobody else
    /// is told, unless there is room for one more.
    pub fn enter_again<R: Wait>(
        &mut self,
        rt: &R,
        alloc: Global,
        office: &Office,
        ended: EndedTry,
    ) -> Result<Ticket, WorkerFault>
        ensures let_in { IfOk result (WasLetIn self.new) }
        ensures served { OnOk result (IsServed self.new) }
        ensures still { IsStill self.old self.new }
        ensures refused { IfErr result (StopsServing self.new) }
    {
        let mut station = office.lock_to_wait(rt);
        let first = self.enter_again_at(rt, alloc, office, &mut station, ended);
        self.wait_to_enter(rt, alloc, office, station, first)
    }

    /// Waits, and serves meanwhile, until the client is let in. It returns at once if the client
    /// was let in already, or if that was refused.
    fn wait_to_enter<'a, R: Wait>(
        &mut self,
        rt: &R,
        alloc: Global,
        office: &'a Office,
        locked: MutexGuard<'a, Station>,
        first: Result<Option<Ticket>, WorkerFault>,
    ) -> Result<Ticket, WorkerFault>
        requires let_in { IfOk first (λ ticket. IfSome ticket (WasLetIn self.old)) }
        requires served { OnOk first (IsServed self.old) }
        requires refused { IfErr first (StopsServing self.old) }
        ensures let_in { IfOk result (WasLetIn self.new) }
        ensures served { OnOk result (IsServed self.new) }
        ensures still { IsStill self.old self.new }
        ensures refused { IfErr result (StopsServing self.new) }
    {
        let mut station = locked;
        let mut entered = first;
        for _ in rt.forever() {
            if let Some(answer) = entered.transpose() {
                return answer;
            }
            station = office.wait_for_frame(rt, station, self.hand.client());
            entered = self.enter_at(rt, alloc, office, &mut station);
        }
        unreachable!()
    }

    /// Serves, and asks for a ticket. `None` if it has to be waited for.
    fn enter_at<R: Wait>(
        &mut self,
        rt: &R,
        alloc: Global,
        office: &Office,
        station: &mut Station,
    ) -> Result<Option<Ticket>, WorkerFault>
        ensures enters { EntersAt self.old station.old result self.new station.new }
        ensures let_in { IfOk result (λ ticket. IfSome ticket (WasLetIn self.new)) }
        ensures served { OnOk result (IsServed self.new) }
        ensures still { IsStill self.old self.new }
        ensures told { IsTold station.new }
        ensures refused { IfErr result (StopsServing self.new) }
    {
        let client = self.hand.client();
        if let Err(fault) = self.serve_at(rt, alloc, office, station) {
            // Who was told that it is to be let in next hands that on.
            stop_at(office, station, client);
            return Err(fault);
        }
        Ok(ask_at(office, station, client))
    }

    /// Serves, ends the try, and asks for another one. `None` if that has to be waited for.
    fn enter_again_at<R: Wait>(
        &mut self,
        rt: &R,
        alloc: Global,
        office: &Office,
        station: &mut Station,
        ended: EndedTry,
    ) -> Result<Option<Ticket>, WorkerFault>
        ensures enters { EntersAgainAt self.old station.old ended result self.new station.new }
        ensures let_in { IfOk result (λ ticket. IfSome ticket (WasLetIn self.new)) }
        ensures served { OnOk result (IsServed self.new) }
        ensures still { IsStill self.old self.new }
        ensures told { IsTold station.new }
        ensures refused { IfErr result (StopsServing self.new) }
    {
        let client = self.hand.client();
        if let Err(fault) = self.serve_at(rt, alloc, office, station) {
            office.end_try_at(station, ended);
            return Err(fault);
        }
        Ok(ask_again_at(office, station, client, ended))
    }

    /// Serves, and waits until there may be a frame, but no longer than this.
    pub fn serve_and_wait<R: Wait + Clock>(
        &mut self,
        rt: &R,
        alloc: Global,
        office: &Office,
        limit: Duration,
    ) -> Result<(), WorkerFault>
        ensures served { OnOk result (IsServed self.new) }
        ensures still { IsStill self.old self.new }
        ensures refused { IfErr result (StopsServing self.new) }
    {
        let mut station = office.lock_to_wait(rt);
        self.serve_at(rt, alloc, office, &mut station)?;
        let _station = office.wait_for_frame_at_most(rt, station, self.hand.client(), limit);
        Ok(())
    }
}

/// The client asks to be let in, and all who are to be told are told.
fn ask_at(office: &Office, station: &mut Station, client: ClientNo) -> Option<Ticket>
    ensures { AsksAndTells station.old client result station.new }
{
    let ticket = station.admit(client);
    office.tell(station);
    ticket
}

/// The same as its last try ends.
fn ask_again_at(
    office: &Office,
    station: &mut Station,
    client: ClientNo,
    ended: EndedTry,
) -> Option<Ticket>
    ensures { AsksAgainAndTells station.old ended client result station.new }
{
    let again = station.try_again(ended, client);
    office.tell(station);
    again
}

/// The client no longer waits to be let in, and whoever is next is told.
fn stop_at(office: &Office, station: &mut Station, client: ClientNo)
    ensures { StopsAndTells station.old client station.new }
{
    station.stop_waiting(client);
    office.tell(station);
}
