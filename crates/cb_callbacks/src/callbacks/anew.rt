//! Who waits for whom, built anew.
ghost use Rattle.cb_server_state.specs.States.{server_of};
ghost use Rattle.cb_waits.specs.Follows.{Follows};

use crate::Callbacks;
use crate::callbacks::ends::follow_pages;
use cb_waits::View;

impl Callbacks {
    /// Who waits for whom, built anew from the queues of asks. It is slow, and there to be compared
    /// with [`Callbacks::kept_view`], which has the same rows.
    pub fn view(&self) -> View
        ensures { Follows result (server_of self.now.state) }
    {
        let mut view = View::nobody();
        follow_pages(&mut view, &self.state);
        view
    }
}
