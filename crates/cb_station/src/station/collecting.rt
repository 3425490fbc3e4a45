//! A client collects what was sent to it.
ghost use Rattle.std.specs.Prelude.{◌≡◌, ◌<◌, ◌&&◌, ℕ, length};
ghost use Rattle.cb_hands.specs.Joined.{Follow, IsHeld};
ghost use Rattle.cb_station.specs.Calls.{Collected};
ghost use Rattle.cb_station.specs.Moves.{IsKnown, is_lasting, received, received_of, told};
ghost use Rattle.cb_protocol.specs.Server.{is_write_holder};
ghost use Rattle.cb_server_state.specs.States.{HasClient, HasPage, PartsAgree};
ghost use Rattle.cb_server_state.specs.States.{server_of as server_in};

use crate::office_fault::OfficeFault;
use crate::station::Station;
use cb_frame::{Body, Frame, ShortBody};
use cb_hands::{Hand, JoinedHands};
use cb_links::Standing;
use cb_page::{ClientNo, GrantNo, PageNo, TxnNo};
use cb_server_state::ServerState;

impl Station {
    /// Takes the oldest frame to the client; `None` exactly if its mailbox is empty. A grant that
    /// comes makes the hand hold the page, if its row stands. A permission to write marks the page,
    /// if the transaction has it. A copy that the hand comes to hold has the store's bytes and
    /// version.
    ///
    /// `Foreign` exactly if the hand isn't the one stored; `Memory` only if a growth was refused.
    pub fn collect(&mut self, hand: &mut Hand) -> Result<Option<Frame>, OfficeFault>
        ensures { Collected self.old hand.old result self.new hand.new }
    {
        let known = self.knows(hand);
        self.collect_if_known(hand, known)
    }

    /// As `collect`, told what [`Station::knows`] answers of the hand, which isn't compared then.
    pub fn collect_if_known(
        &mut self,
        hand: &mut Hand,
        known: bool,
    ) -> Result<Option<Frame>, OfficeFault>
        requires known { IsKnown known self.old hand.old }
        ensures { Collected self.old hand.old result self.new hand.new }
    {
        if !known {
            return Err(OfficeFault::Foreign);
        }
        let Some(frame) = self.dispatcher.collect(hand.client())? else {
            return Ok(None);
        };
        let state = self.dispatcher.server().state();
        take_in(state, &mut self.hands, hand, &frame.body);
        Ok(Some(frame))
    }
}

/// What such a frame makes of the hand.
fn take_in(state: &ServerState, hands: &mut JoinedHands, hand: &mut Hand, body: &Body)
    requires held { IsHeld hands.old hand.old }
    requires agree { PartsAgree state.now }
    requires client { HasClient state.now hand.old.client }
    requires pages { (k : ℕ) → k < length hand.old.held → HasPage state.now k }
    ensures hand { hand.new ≡ received_of (server_in state.now) hand.old body.now }
    ensures stored { Follow hands.old hands.new hand.old hand.new }
{
    match body {
        Body::Granted { page, grant, .. } => receive(state, hands, hand, *page, *grant),
        Body::Short(ShortBody::MayWrite { txn, page, grant }) => {
            permit(state, hands, hand, *txn, *page, *grant);
        }
        Body::Short(_) => {}
        Body::Commit { .. } => {}
    }
}

/// The hand holds the page, if its row stands and it doesn't yet.
fn receive(
    state: &ServerState,
    hands: &mut JoinedHands,
    hand: &mut Hand,
    page: PageNo,
    grant: GrantNo,
)
    requires held { IsHeld hands.old hand.old }
    requires agree { PartsAgree state.now }
    requires client { HasClient state.now hand.old.client }
    requires pages { (k : ℕ) → k < length hand.old.held → HasPage state.now k }
    ensures hand { hand.new ≡ received (server_in state.now) hand.old page grant }
    ensures stored { Follow hands.old hands.new hand.old hand.new }
{
    if page.index() < hand.pages() && hand.held(page).is_none() {
        if state.has_row(hand.client(), page, grant) {
            let version = state.commits.store().version(page);
            hands.receive(hand, page, grant, version);
        }
    }
}

/// The hand may write the page, if it holds it by that grant and the transaction has the
/// permission.
fn permit(
    state: &ServerState,
    hands: &mut JoinedHands,
    hand: &mut Hand,
    txn: TxnNo,
    page: PageNo,
    grant: GrantNo,
)
    requires held { IsHeld hands.old hand.old }
    requires agree { PartsAgree state.now }
    requires client { HasClient state.now hand.old.client }
    requires pages { (k : ℕ) → k < length hand.old.held → HasPage state.now k }
    ensures hand { hand.new ≡ told (server_in state.now) hand.old txn page grant }
    ensures stored { Follow hands.old hands.new hand.old hand.new }
{
    if let Some(held) = hand.held(page) {
        if held.grant == grant && has_permission(state, hand.client(), txn, page) {
            hands.permit(hand, page, txn);
        }
    }
}

/// Whether that transaction of the client lasts and has the permission to write the page.
fn has_permission(state: &ServerState, client: ClientNo, txn: TxnNo, page: PageNo) -> bool
    requires agree { PartsAgree state.now }
    requires client { HasClient state.now client }
    requires page { HasPage state.now page }
    ensures { result ≡ (is_lasting (server_in state.now) client txn
        && is_write_holder (server_in state.now) client page) }
{
    match state.standing(client, txn) {
        Standing::Live | Standing::Doomed => state.is_write_holder(client, page),
        Standing::Ended | Standing::Later => false,
    }
}
