//! Who holds up the first ask of a page.
ghost use Rattle.std.specs.Prelude.{◌≡◌, ◌&&◌, ◌||◌, ◌∷◌, [], ℕ, List, false};
ghost use Rattle.cb_asks.specs.Asks.{queue_at};
ghost use Rattle.cb_asks.specs.Marks.{is_in_use};
ghost use Rattle.cb_page.specs.Clients.{has};
ghost use Rattle.cb_protocol.specs.Basics.{is_exactly};
ghost use Rattle.cb_protocol.specs.Server.{WaitingAsk, is_live_permission};
ghost use Rattle.cb_protocol.specs.WaitsFor.{holds_up};
ghost use Rattle.cb_server_state.specs.States.{HasPage, PartsAgree, server_of};

use crate::ServerState;
use cb_page::{ClientNo, ClientSet, PageNo};

impl ServerState {
    /// The clients that hold up the first ask of the page; nobody if none waits.
    pub fn held_up_by(&self, page: PageNo) -> ClientSet
        requires agree { PartsAgree self.now }
        requires page { HasPage self.now page }
        ensures none { queue_at self.now.asks page ≡ []
            → (client : ℕ) → has result client ≡ false }
        ensures first { (first : WaitingAsk) (others : List WaitingAsk)
            → queue_at self.now.asks page ≡ first ∷ others
            → (client : ℕ) → has result client ≡ holds_up (server_of self.now) page first client }
    {
        let Some(first) = self.asks.queue(page).first() else {
            return ClientSet::empty();
        };
        let mut clients = self.users_if(first.write_grant.is_some(), page);
        if let Some(holder) = self.holder_in_use(page) {
            clients.insert(holder);
        }
        clients
    }

    /// If the ask is to write, the clients that use the page.
    fn users_if(&self, writes: bool, page: PageNo) -> ClientSet
        requires agree { PartsAgree self.now }
        requires page { HasPage self.now page }
        ensures { (client : ℕ)
            → has result client ≡ (writes && is_in_use self.now.marks client page) }
    {
        if writes {
            self.marks.users(page)
        } else {
            ClientSet::empty()
        }
    }

    /// The page's write holder, if its permission isn't merely kept or it uses the page.
    fn holder_in_use(&self, page: PageNo) -> Option<ClientNo>
        requires agree { PartsAgree self.now }
        requires page { HasPage self.now page }
        ensures { (client : ℕ) → is_exactly result client
            ≡ (is_exactly ((server_of self.now).store.holder page) client
            && (is_live_permission (server_of self.now) client page
            || is_in_use self.now.marks client page)) }
    {
        let holder = self.directory.holder(page)?;
        let is_live = self.is_live_permission(holder, page);
        let uses = self.marks.users(page).contains(holder);
        if is_live || uses { Some(holder) } else { None }
    }
}
