//! Clients join, begin another incarnation, and leave.
ghost use Rattle.std.specs.Prelude.{◌≡◌, ◌+◌, ◌<◌, ◌≤◌, IfErr, IfOk, OnOk};
ghost use Rattle.cb_station.specs.Entering.{Joined, Left, Restarted};
ghost use Rattle.cb_station.specs.Stations.{server_of};
ghost use Rattle.cb_station.specs.declared.office_fault.OfficeFault.TheVariants as office;
ghost use Rattle.cb_page.specs.Numbers.{max_number};

use crate::office_fault::OfficeFault;
use crate::station::Station;
use cb_hands::Hand;
use cb_page::{ClientNo, Incarnation};
use std::alloc::Global;

impl Station {
    /// The client joins, in its next incarnation, which is 1 at first. `Foreign` if the limits have
    /// no such client, `Joined` if it has joined, `Exhausted` if no incarnation is left, `Memory`
    /// only if a growth was refused.
    pub fn join(&mut self, alloc: Global, client: ClientNo) -> Result<Hand, OfficeFault>
        ensures { Joined self.old client result self.new }
    {
        let limits = self.dispatcher.server().limits();
        if !limits.has_client(client.get()) {
            return Err(OfficeFault::Foreign);
        }
        if self.hands.has(client) {
            return Err(OfficeFault::Joined);
        }
        let pages = limits.pages() as usize;
        let incarnation = self.next_incarnation(client)?;
        let hand = self.hands.join(alloc, client, incarnation, pages)?;
        if self.dispatcher.greet(alloc, client, incarnation).is_err() {
            self.hands.leave(hand);
            return Err(OfficeFault::Memory);
        }
        Ok(hand)
    }

    /// The incarnation after the client's current one, 1 at first.
    fn next_incarnation(&self, client: ClientNo) -> Result<Incarnation, OfficeFault>
        requires { client < self.now.dispatcher.server.limits.clients }
        ensures ok { IfOk result (λ incarnation.
            incarnation ≡ ((server_of self.now).session client).current + 1) }
        ensures left { OnOk result (((server_of self.now).session client).current < max_number) }
        ensures err { IfErr result (λ fault. (fault ≡ office.Exhausted)
            × (max_number ≤ ((server_of self.now).session client).current)) }
    {
        match self
            .dispatcher
            .server()
            .state()
            .sessions
            .session(client)
            .incarnation
        {
            None => Ok(Incarnation::new(1)),
            Some(last) => match last.next() {
                Some(next) => Ok(next),
                None => Err(OfficeFault::Exhausted),
            },
        }
    }

    /// The client begins another incarnation, whose hand holds nothing. The hand comes back with
    /// each fault, as it was. `Foreign` if it isn't the one stored, `Old` if the incarnation isn't
    /// greater than the hand's, `Memory` only if a growth was refused.
    pub fn restart(
        &mut self,
        alloc: Global,
        hand: Hand,
        incarnation: Incarnation,
    ) -> Result<Hand, (OfficeFault, Hand)>
        ensures { Restarted self.old hand incarnation result self.new }
    {
        if !self.hands.knows(&hand) {
            return Err((OfficeFault::Foreign, hand));
        }
        if incarnation <= hand.incarnation() {
            return Err((OfficeFault::Old, hand));
        }
        if self
            .dispatcher
            .greet(alloc, hand.client(), incarnation)
            .is_err()
        {
            return Err((OfficeFault::Memory, hand));
        }
        let mut hand = hand;
        self.hands.renew(&mut hand, incarnation);
        Ok(hand)
    }

    /// The client leaves. At the server its next incarnation begins, which belongs to nobody. Its
    /// number may join again. The hand comes back with each fault, as it was. `Foreign` if it isn't
    /// the one stored, `Exhausted` if no incarnation is left, `Memory` only if a growth was
    /// refused.
    pub fn leave(&mut self, alloc: Global, hand: Hand) -> Result<(), (OfficeFault, Hand)>
        ensures { Left self.old hand result self.new }
    {
        if !self.hands.knows(&hand) {
            return Err((OfficeFault::Foreign, hand));
        }
        let Some(incarnation) = hand.incarnation().next() else {
            return Err((OfficeFault::Exhausted, hand));
        };
        let client = hand.client();
        if self.dispatcher.dismiss(alloc, client, incarnation).is_err() {
            return Err((OfficeFault::Memory, hand));
        }
        self.hands.leave(hand);
        Ok(())
    }
}
