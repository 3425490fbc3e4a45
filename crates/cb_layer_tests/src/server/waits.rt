//! Who waits for whom.

ghost use Rattle.std.specs.Prelude.{◌<◌};

use cb_page::{ClientNo, ClientSet};
use cb_waits::{View, closes_cycle};

/// The set of one client.
fn only(client: u16) -> ClientSet
    requires { client < 32 }
{
    let mut set = ClientSet::empty();
    set.insert(ClientNo::new(client));
    set
}

/// Three clients that wait in a ring lie on a cycle, and one that waits for the ring doesn't.
#[test]
fn cycle_of_three(rt: HostRuntime) {
    let mut view = View::nobody();
    view.put_row(ClientNo::new(0), only(5));
    view.put_row(ClientNo::new(5), only(31));
    let open = closes_cycle(&view, ClientNo::new(0));
    view.put_row(ClientNo::new(31), only(0).union(only(31)));
    view.put_row(ClientNo::new(7), only(5));
    let ring = closes_cycle(&view, ClientNo::new(0));
    let beside = closes_cycle(&view, ClientNo::new(7));
    assert!(rt; !open && ring && !beside);
}
