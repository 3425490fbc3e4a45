//! Workers join, begin another incarnation, and end.
ghost use Rattle.std.specs.Prelude.{◌≡◌, ◌≤◌, ◌<◌, ◌⊎◌, [], true, Err, IfErr, IfOk, None, Ok, OnOk};
ghost use Rattle.cb_client_core.specs.ClientState.{new_state};
ghost use Rattle.cb_worker.specs.Entering.{LeavesSome};
ghost use Rattle.cb_worker.specs.Moving.{HasJoined, HasRestarted, IsStill};
ghost use Rattle.cb_worker.specs.Refusals.{RefusesJoin, RefusesLeave, RefusesRestart, RefusesStart};
ghost use Rattle.cb_worker.specs.Refusals.{StopsServing};
ghost use Rattle.cb_worker.specs.Waiting.{IsServed};
ghost use Rattle.cb_worker.specs.Workers.{IsOf, last_txn};

use crate::awaited::Awaited;
use crate::said::Said;
use crate::worker::{Left, Worker, joining, leaving};
use crate::worker_fault::WorkerFault;
use cb_client::{Client, ClientFault};
use cb_hands::Hand;
use cb_page::{ClientNo, Incarnation, Limits};
use cb_station::{Office, OfficeFault};
use cb_twoq::Chooser;
use std::alloc::Global;
use std::sync::Wait;

impl<Q: Chooser> Worker<Q> {
    /// The client joins the office, with an empty chooser, and is welcomed. Its incarnation is the
    /// one that the station gave its hand. `Foreign` if these limits have no such client, or aren't
    /// the station's.
    ///
    /// If there is no memory for the client, or its Welcome doesn't come, it leaves again. Of a
    /// call of `work` that the office expects nothing changes: whoever gives that up calls
    /// `Office::skip_work`.
    pub fn join<R: Wait>(
        rt: &R,
        alloc: Global,
        office: &Office,
        limits: &Limits,
        client: ClientNo,
        chooser: Q,
    ) -> Result<Worker<Q>, WorkerFault>
        requires members { Q.members chooser ≡ [] }
        requires slots { Q.slots chooser ≡ limits.now.slots }
        ensures welcomed { IfOk result (λ worker. worker.client.welcomed ≡ true) }
        ensures of { IfOk result (λ worker. IsOf worker client worker.hand.incarnation) }
        ensures same_limits { IfOk result (λ worker. worker.client.copies.limits ≡ limits.now) }
        ensures unbegun { IfOk result (λ worker. last_txn worker.client ≡ 0) }
        ensures served { IfOk result IsServed }
        ensures joins { IfOk result (HasJoined limits.now client) }
        ensures foreign { limits.now.clients ≤ client
            → result ≡ Err (WorkerFault.Office OfficeFault.Foreign) }
        ensures why { IfErr result (RefusesJoin limits.now client) }
    {
        if !limits.has_client(client.get()) {
            return Err(WorkerFault::Office(OfficeFault::Foreign));
        }
        let hand = joining::join(rt, alloc, office, limits, client)?;
        let made = Client::new(alloc, client, hand.incarnation(), limits, chooser);
        let Ok(client) = made else {
            joining::unjoin(rt, alloc, office, hand);
            return Err(WorkerFault::Client(ClientFault::Memory));
        };
        match Worker::new(alloc, client, hand).welcomed(rt, alloc, office) {
            Ok(worker) => Ok(worker),
            Err((fault, worker)) => {
                joining::unjoin(rt, alloc, office, worker.into_hand());
                Err(fault)
            }
        }
    }

    /// The client begins another incarnation, with a chooser that `Q::make` makes, and is welcomed.
    ///
    /// The worker comes back with each fault, as it was. If only the Welcome didn't come, it is in
    /// the new incarnation.
    pub fn restart<R: Wait>(
        self,
        rt: &R,
        alloc: Global,
        office: &Office,
        incarnation: Incarnation,
    ) -> Result<Worker<Q>, (WorkerFault, Worker<Q>)>
        ensures welcomed { IfOk result (λ worker. worker.client.welcomed ≡ true) }
        ensures of { IfOk result (λ worker. IsOf worker self.hand.client incarnation) }
        ensures same_limits { IfOk result (λ worker.
            worker.client.copies.limits ≡ self.client.copies.limits) }
        ensures unbegun { IfOk result (λ worker. last_txn worker.client ≡ 0) }
        ensures served { IfOk result IsServed }
        ensures restarts { IfOk result (HasRestarted self incarnation) }
        ensures later { OnOk result (self.hand.incarnation < incarnation) }
        ensures refused { IfErr result (λ refused.
            (refused.1 ≡ self) ⊎ HasRestarted self incarnation refused.1) }
        ensures why { IfErr result (λ refused.
            RefusesRestart self refused.1 incarnation refused.0) }
    {
        let renewed = match self.renewed(alloc, incarnation) {
            Ok(renewed) => renewed,
            Err(fault) => return Err((fault, self)),
        };
        let Worker {
            client,
            hand,
            collected,
            said,
        } = self;
        match joining::restart(rt, alloc, office, hand, incarnation) {
            Ok(hand) => Worker::new(alloc, renewed, hand).welcomed(rt, alloc, office),
            Err((fault, hand)) => {
                let worker = Worker {
                    client,
                    hand,
                    collected,
                    said,
                };
                Err((WorkerFault::Office(fault), worker))
            }
        }
    }

    /// The client leaves the office; its number may join again.
    ///
    /// The worker comes back with each fault, as it was.
    pub fn leave<R: Wait>(
        self,
        rt: &R,
        alloc: Global,
        office: &Office,
    ) -> Result<(), (WorkerFault, Worker<Q>)>
        ensures left { OnOk result (LeavesSome self.hand (Ok tt)) }
        ensures refused { IfErr result (λ refused. refused.1 ≡ self) }
        ensures why { IfErr result (λ refused. RefusesLeave self refused.0) }
    {
        match self.take_leave(rt, alloc, office) {
            Ok(_) => Ok(()),
            Err(refused) => Err(refused),
        }
    }

    /// As [`Worker::leave`], but Ok has a value which says that the client left this office.
    pub fn take_leave<'a, R: Wait>(
        self,
        rt: &R,
        alloc: Global,
        office: &'a Office,
    ) -> Result<Left<'a>, (WorkerFault, Worker<Q>)>
        ensures office { IfOk result (λ left. left.office ≡ office.entry.ref_ptr) }
        ensures client { IfOk result (λ left. left.client ≡ self.hand.client) }
        ensures left { OnOk result (LeavesSome self.hand (Ok tt)) }
        ensures refused { IfErr result (λ refused. refused.1 ≡ self) }
        ensures why { IfErr result (λ refused. RefusesLeave self refused.0) }
    {
        let Worker {
            client,
            hand,
            collected,
            said,
        } = self;
        match leaving::leave(rt, alloc, office, hand) {
            Ok(left) => Ok(left),
            Err((fault, hand)) => {
                let worker = Worker {
                    client,
                    hand,
                    collected,
                    said,
                };
                Err((WorkerFault::Office(fault), worker))
            }
        }
    }

    /// Ends the worker without the lock; its client stays joined.
    pub fn abandon(self) {
        self.into_hand().abandon();
    }

    /// A worker that has collected and sent nothing.
    fn new(alloc: Global, client: Client<Q>, hand: Hand) -> Worker<Q>
        ensures { result ≡ record {
          client = client;
          hand = hand;
          collected = None;
          said = [];
        } }
    {
        Worker {
            client,
            hand,
            collected: None,
            said: Said::nothing(alloc),
        }
    }

    /// A client like the worker's, at the start of an incarnation.
    fn renewed(&self, alloc: Global, incarnation: Incarnation) -> Result<Client<Q>, WorkerFault>
        ensures made { IfOk result (λ client. client
            ≡ new_state self.now.hand.client incarnation self.now.client.copies.limits) }
        ensures refused { IfErr result (RefusesStart self.now incarnation) }
    {
        let limits = self.client.limits();
        let client = self.hand.client();
        if !limits.has_client(client.get()) {
            return Err(WorkerFault::Office(OfficeFault::Foreign));
        }
        let chooser = Q::make(alloc, limits)?;
        Ok(Client::new(alloc, client, incarnation, limits, chooser)?)
    }

    /// The worker, once its client is welcomed.
    fn welcomed<R: Wait>(
        mut self,
        rt: &R,
        alloc: Global,
        office: &Office,
    ) -> Result<Worker<Q>, (WorkerFault, Worker<Q>)>
        ensures welcomed { IfOk result (λ worker. worker.client.welcomed ≡ true) }
        ensures still { IfOk result (λ worker. IsStill self worker) }
        ensures served { IfOk result IsServed }
        ensures refused { IfErr result (λ refused. IsStill self refused.1) }
        ensures why { IfErr result (λ refused. StopsServing refused.1 refused.0) }
    {
        let mut station = office.lock_to_wait(rt);
        let known = station.knows(&self.hand);
        let first = self.go_on(rt, alloc, office, &Awaited::Welcome, &mut station, known);
        match self.wait_on(rt, alloc, office, &Awaited::Welcome, station, first) {
            Ok(_) => Ok(self),
            Err(fault) => Err((fault, self)),
        }
    }

    /// Its hand; all else is dropped.
    fn into_hand(self) -> Hand
        ensures { result ≡ self.hand }
    {
        let Worker {
            client: _,
            hand,
            collected: _,
            said: _,
        } = self;
        hand
    }
}
