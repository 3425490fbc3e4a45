//! What may be lost is sent again.
ghost use Rattle.std.specs.Prelude.{◌≡◌, ◌≤◌, ◌+◌, ◌*◌, length};
ghost use Rattle.cb_asks.specs.Asks.{asks_below};
ghost use Rattle.cb_outbox.specs.Saying.{HasRoomFor, OutboxState, Says};
ghost use Rattle.cb_protocol.specs.Numbers.{messages_for_pages};
ghost use Rattle.cb_protocol.specs.Resend.{server_again};
ghost use Rattle.cb_server_state.specs.Asking.{sends_any};
ghost use Rattle.cb_server_state.specs.States.{AreOf, server_of};

use crate::Callbacks;
use cb_outbox::Outbox;
use cb_page::Limits;

impl Callbacks {
    /// Whether anything is to be resent. It looks no further than the first message that it finds.
    pub fn sends_again(&self, limits: &Limits) -> bool
        requires of { AreOf limits.now self.now.state }
        ensures { result ≡ sends_any (server_again (server_of self.now.state)) }
    {
        self.state.sends_again(limits.clients())
    }

    /// Resends what may be lost: for the first ask of each page, Callbacks or a Downgrade to those
    /// that haven't said InUse, and AbortNow to each client whose transaction is doomed.
    pub fn again(&self, limits: &Limits, outbox: &mut Outbox)
        requires of { AreOf limits.now self.now.state }
        requires room { HasRoomFor (server_again (server_of self.now.state)) outbox.old }
        ensures { Says (server_of self.now.state) server_again (server_of self.now.state)
            outbox.old outbox.new }
    {
        self.state.again_pages(outbox);
        self.state.again_doomed(limits.clients(), outbox);
    }

    /// A law, for whoever resends and has to make room first. Resending takes at most as many
    /// messages as settling may, so at most 33 for each ask that waits, an AbortNow to each client,
    /// and no copy.
    pub fn resending_is_bounded(&self)
        ensures by_kind { (outbox : OutboxState) → length outbox.sent
            + (messages_for_pages (server_of self.now.state) (server_of self.now.state).pages
            + (server_of self.now.state).clients) ≤ outbox.room
            → HasRoomFor (server_again (server_of self.now.state)) outbox }
        ensures room { (outbox : OutboxState) → length outbox.sent
            + (33 * asks_below (server_of self.now.state) (server_of self.now.state).pages
            + (server_of self.now.state).clients) ≤ outbox.room
            → HasRoomFor (server_again (server_of self.now.state)) outbox }
    {
        // To look at a field shows the invariant.
        let _known = &self.state;
    }
}
