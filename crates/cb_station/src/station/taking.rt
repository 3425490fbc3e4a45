//! The frames of a client, and what is flushed.
ghost use Rattle.std.specs.Prelude.{◌≡◌, false};
ghost use Rattle.cb_hands.specs.Joined.{Follow, IsHeld};
ghost use Rattle.cb_station.specs.Calls.{Took};
ghost use Rattle.cb_station.specs.Moves.{IsKnown, ended_if_over, given_back, is_plain, is_stray};
ghost use Rattle.cb_station.specs.Reporting.{Flushed};
ghost use Rattle.cb_server_state.specs.States.{HasClient, PartsAgree};
ghost use Rattle.cb_server_state.specs.States.{server_of as server_in};

use crate::office_fault::OfficeFault;
use crate::station::Station;
use cb_frame::{Body, Frame, ShortBody};
use cb_hands::{Hand, JoinedHands};
use cb_links::Standing;
use cb_server::ServerFault;
use cb_server_state::ServerState;
use cb_shelf::Written;
use std::alloc::Global;

impl Station {
    /// The server takes a frame of the client's, other than Hello and Commit. A copy that a
    /// GiveBack names goes from the hand; if the hand doesn't hold it by that grant, nothing
    /// changes. If the frame ends the hand's transaction, the hand loses its permissions to write.
    ///
    /// `Foreign` exactly if the frame isn't the hand's or isn't taken here, or the hand isn't the
    /// one stored. Otherwise `Exhausted` exactly if the server has no number left for the frame.
    /// Otherwise `Memory`, only if a growth was refused.
    pub fn take(&mut self, alloc: Global, frame: &Frame, hand: &mut Hand) -> Result<(), OfficeFault>
        ensures { Took self.old frame.now hand.old result self.new hand.new }
    {
        let known = self.knows(hand);
        self.take_if_known(alloc, frame, hand, known)
    }

    /// As `take`, told what [`Station::knows`] answers of the hand, which isn't compared then.
    pub fn take_if_known(
        &mut self,
        alloc: Global,
        frame: &Frame,
        hand: &mut Hand,
        known: bool,
    ) -> Result<(), OfficeFault>
        requires known { IsKnown known self.old hand.old }
        ensures { Took self.old frame.now hand.old result self.new hand.new }
    {
        if !is_plain(&frame.body) || !self.is_own(frame, hand, known) {
            return Err(OfficeFault::Foreign);
        }
        if is_stray(hand, &frame.body) {
            return Ok(());
        }
        match self.dispatcher.take(alloc, frame) {
            Ok(()) => {}
            Err(ServerFault::Exhausted) => return Err(OfficeFault::Exhausted),
            Err(ServerFault::Memory) => return Err(OfficeFault::Memory),
        }
        give_back(&mut self.hands, hand, &frame.body);
        end_if_over(self.dispatcher.server().state(), &mut self.hands, hand);
        Ok(())
    }

    /// The commits up to a batch that was written are on disk. Nothing changes if there is no such
    /// commit, or it was on disk already. `Memory` only if a growth was refused; the same batch may
    /// be reported again then.
    pub fn flushed(&mut self, alloc: Global, written: &Written) -> Result<(), OfficeFault>
        ensures { Flushed self.old written.now result self.new }
    {
        let number = written.number();
        if !self.dispatcher.server().can_flush(number) {
            return Ok(());
        }
        self.dispatcher.flushed(alloc, number)?;
        Ok(())
    }
}

/// Whether `take` takes such a frame: any but Hello and Commit.
fn is_plain(body: &Body) -> bool
    ensures { result ≡ is_plain body.now }
{
    match body {
        Body::Short(ShortBody::Hello) => false,
        Body::Short(_) => true,
        Body::Commit { .. } => false,
        Body::Granted { .. } => true,
    }
}

/// Whether it is a GiveBack of what the hand doesn't hold by that grant.
fn is_stray(hand: &Hand, body: &Body) -> bool
    ensures { result ≡ is_stray hand.now body.now }
{
    match body {
        Body::Short(ShortBody::GiveBack { page, grant }) => match hand.held(*page) {
            Some(held) => held.grant != *grant,
            None => true,
        },
        _ => false,
    }
}

/// What the frame gives back goes from the hand.
fn give_back(hands: &mut JoinedHands, hand: &mut Hand, body: &Body)
    requires held { IsHeld hands.old hand.old }
    requires there { is_stray hand.old body.now ≡ false }
    ensures hand { hand.new ≡ given_back hand.old body.now }
    ensures stored { Follow hands.old hands.new hand.old hand.new }
{
    match body {
        Body::Short(ShortBody::GiveBack { page, .. }) => hands.give_back(hand, *page),
        _ => {}
    }
}

/// Takes the permissions to write from a hand whose transaction has ended.
fn end_if_over(state: &ServerState, hands: &mut JoinedHands, hand: &mut Hand)
    requires held { IsHeld hands.old hand.old }
    requires agree { PartsAgree state.now }
    requires client { HasClient state.now hand.old.client }
    ensures hand { hand.new ≡ ended_if_over (server_in state.now) hand.old }
    ensures stored { Follow hands.old hands.new hand.old hand.new }
{
    if let Some(txn) = hand.txn() {
        match state.standing(hand.client(), txn) {
            Standing::Ended => hands.end_permissions(hand),
            Standing::Later | Standing::Live | Standing::Doomed => {}
        }
    }
}
