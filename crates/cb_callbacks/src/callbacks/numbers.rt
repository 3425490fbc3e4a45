//! What is asked before a message's transaction begins.
ghost use Rattle.std.specs.Prelude.{◌≡◌, ◌+◌, ◌==◌, ◌&&◌, ℕ, nat_lt};
ghost use Rattle.std.specs.Option.{is_some};
ghost use Rattle.cb_callbacks.specs.Numbers.{IsStanding, LacksNumber};
ghost use Rattle.cb_protocol.specs.Basics.{max_number};
ghost use Rattle.cb_protocol.specs.Messages.{AskRead};
ghost use Rattle.cb_protocol.specs.Server.{has_row, is_write_holder};
ghost use Rattle.cb_server_state.specs.States.{HasClient, HasPage, server_of};

use crate::Callbacks;
use cb_links::Standing;
use cb_page::{ClientNo, GrantNo, MAX_NUMBER, PageNo, TxnNo};

impl Callbacks {
    /// Whether an ask to read would enter a queue, although no grant number is left for it beyond
    /// those for the asks that wait. Its transaction stands so, and the client has a row of its
    /// page or none.
    pub fn lacks_grant(&self, client: ClientNo, standing: Standing, has_row: bool) -> bool
        requires client { HasClient self.now.state client }
        ensures { (txn page : ℕ) → IsStanding (server_of self.now.state) client txn standing
            → has_row ≡ is_some (((server_of self.now.state).session client).row page)
            → LacksNumber (server_of self.now.state) client (AskRead txn page) result }
    {
        if has_row {
            return false;
        }
        match standing {
            Standing::Later => self.lacks_grant_after(self.read_asks_of_others(client)),
            Standing::Live => !self.waits(client) && self.lacks_grant_after(self.read_asks()),
            Standing::Doomed => false,
            Standing::Ended => false,
        }
    }

    /// Whether no grant number is left after so many more grants.
    fn lacks_grant_after(&self, grants: usize) -> bool
        ensures { result ≡ nat_lt max_number ((server_of self.now.state).next_grant + grants) }
    {
        match self.state.directory.next_grant() {
            None => true,
            Some(next) => MAX_NUMBER - next.get() < grants as u64,
        }
    }

    /// Whether permissions are kept and the client has this one, by that grant and with that tag.
    pub fn has_kept_permission(
        &self,
        client: ClientNo,
        page: PageNo,
        grant: GrantNo,
        tag: TxnNo,
    ) -> bool
        requires client { HasClient self.now.state client }
        requires page { HasPage self.now.state page }
        ensures { result ≡ ((server_of self.now.state).store.keep_write
            && has_row (server_of self.now.state) client page grant
            && is_write_holder (server_of self.now.state) client page
            && ((server_of self.now.state).store.tag page == tag)) }
    {
        let state = &self.state;
        state.keep_write
            && state.has_row(client, page, grant)
            && state.is_write_holder(client, page)
            && state.directory.tag(page) == Some(tag)
    }
}
