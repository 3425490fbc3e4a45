//! How each client's transaction stands.

use cb_links::{Admission, Sessions, Standing};
use cb_page::{ClientNo, CommitNo, Incarnation, Limits, TxnNo};
use std::test::Fail;

/// A transaction begins, is doomed and ends, as its client's frames tell.
#[test]
fn transaction_of_a_session(rt: HostRuntime) -> Result<(), Fail> {
    let limits = Limits::new(2, 8, 16, 4, 1, 2)?;
    let mut sessions = Sessions::new(rt.alloc(), &limits)?;
    let client = ClientNo::new(1);
    let txn = TxnNo::new(2);
    sessions.hello(client, Incarnation::new(3));
    let stale = sessions.admit(client, Incarnation::new(2)) == Admission::Stale;
    sessions.begin(client, txn);
    let live = sessions.standing(client, txn) == Standing::Live;
    sessions.doom(client);
    let doomed = sessions.standing(client, txn) == Standing::Doomed;
    sessions.end(client, Some(CommitNo::new(5)));
    let ended = sessions.standing(client, txn) == Standing::Ended;
    assert!(rt; stale && live && doomed && ended);
    Ok(())
}
