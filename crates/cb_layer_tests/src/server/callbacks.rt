//! Who waits and who is called back, by the calls that a server makes of them.
ghost use Rattle.std.specs.Prelude.{◌<◌};
ghost use Rattle.cb_server_state.specs.States.{AreOf};

use cb_callbacks::{Callbacks, an_ask_sends_at_most_one};
use cb_commit::Store;
use cb_frame::Frame;
use cb_links::{Admission, Standing};
use cb_outbox::Outbox;
use cb_page::{ClientNo, GrantNo, Incarnation, Limits, PageNo, TxnNo};
use std::alloc::{AllocError, Global};
use std::test::Fail;

/// The client greets, and begins its first transaction.
fn greet(limits: &Limits, callbacks: &mut Callbacks, client: ClientNo)
    requires client { client < limits.now.clients }
    requires of { AreOf limits.now callbacks.old.state }
    ensures { AreOf limits.now callbacks.new.state }
{
    let first = Incarnation::new(1);
    match callbacks.state().admission(client, first) {
        Admission::Unknown => callbacks.admit(client, first),
        Admission::Current | Admission::Stale => {}
    }
    match callbacks.state().standing(client, TxnNo::new(1)) {
        Standing::Later => callbacks.begin(client, TxnNo::new(1)),
        Standing::Live | Standing::Doomed | Standing::Ended => {}
    }
}

/// The client's copy is given back.
fn give_back(limits: &Limits, callbacks: &mut Callbacks, client: ClientNo, page: PageNo)
    requires client { client < limits.now.clients }
    requires page { page < limits.now.pages }
    requires of { AreOf limits.now callbacks.old.state }
    ensures { AreOf limits.now callbacks.new.state }
{
    callbacks.give_back(client, page);
}

/// The client, whose transaction has to live, asks for the page: nothing where an ask of it waits.
fn ask(
    alloc: Global,
    limits: &Limits,
    callbacks: &mut Callbacks,
    client: ClientNo,
    page: PageNo,
    write_grant: Option<GrantNo>,
) -> Result<Vec<Frame>, AllocError>
    requires client { client < limits.now.clients }
    requires page { page < limits.now.pages }
    requires of { AreOf limits.now callbacks.old.state }
    ensures { AreOf limits.now callbacks.new.state }
{
    let mut outbox = Outbox::new(alloc, limits);
    callbacks.reserve_ask(page)?;
    outbox.reserve(alloc, 1, 0)?;
    an_ask_sends_at_most_one();
    let Some(incarnation) = callbacks.state().sessions.session(client).incarnation else {
        return Ok(outbox.take(alloc));
    };
    let Some(txn) = callbacks.state().sessions.session(client).transaction.txn() else {
        return Ok(outbox.take(alloc));
    };
    // It isn't 0, which stands for a client that never greeted.
    let _known = incarnation.get();
    let lives = callbacks.state().standing(client, txn) == Standing::Live;
    if lives && !callbacks.waits(client) {
        callbacks.enter(client, page, write_grant, &mut outbox);
    }
    Ok(outbox.take(alloc))
}

/// All pages are settled; what is sent.
fn settle(
    alloc: Global,
    limits: &Limits,
    callbacks: &mut Callbacks,
) -> Result<Vec<Frame>, AllocError>
    requires of { AreOf limits.now callbacks.old.state }
    ensures { AreOf limits.now callbacks.new.state }
{
    let mut outbox = Outbox::new(alloc, limits);
    let reads = callbacks.read_asks();
    outbox.reserve(alloc, 33 * callbacks.waiting_asks(), reads)?;
    let Some(next) = callbacks.state().directory.next_grant() else {
        return Ok(outbox.take(alloc));
    };
    if reads > 32 || next.get() > 1_000_000 {
        return Ok(outbox.take(alloc));
    }
    callbacks.settling_is_bounded();
    callbacks.settle(&mut outbox);
    Ok(outbox.take(alloc))
}

/// Two clients greet, and read a page; what is sent for that.
fn read_by_both(
    alloc: Global,
    limits: &Limits,
    callbacks: &mut Callbacks,
    first: ClientNo,
    second: ClientNo,
    page: PageNo,
) -> Result<Vec<Frame>, AllocError>
    requires first { first < limits.now.clients }
    requires second { second < limits.now.clients }
    requires page { page < limits.now.pages }
    requires of { AreOf limits.now callbacks.old.state }
    ensures { AreOf limits.now callbacks.new.state }
{
    greet(limits, callbacks, first);
    greet(limits, callbacks, second);
    ask(alloc, limits, callbacks, first, page, None)?;
    ask(alloc, limits, callbacks, second, page, None)?;
    settle(alloc, limits, callbacks)
}

/// Whether two frames are sent as two clients read a page, and one each as one of them asks to
/// write it and as the other has given its copy back.
fn writes_after_callback(
    alloc: Global,
    limits: &Limits,
    callbacks: &mut Callbacks,
) -> Result<bool, AllocError>
    requires clients { 1 < limits.now.clients }
    requires page { 3 < limits.now.pages }
    requires of { AreOf limits.now callbacks.old.state }
    ensures { AreOf limits.now callbacks.new.state }
{
    let (reader, writer, page) = (ClientNo::new(0), ClientNo::new(1), PageNo::new(3));
    let granted = read_by_both(alloc, limits, callbacks, reader, writer, page)?.len();
    let held = callbacks.state().directory.row(writer, page);
    ask(alloc, limits, callbacks, writer, page, held)?;
    let called = settle(alloc, limits, callbacks)?.len();
    give_back(limits, callbacks, reader, page);
    let permitted = settle(alloc, limits, callbacks)?.len();
    Ok(granted == 2 && called == 1 && permitted == 1)
}

/// The same over a server of zeros.
fn anew(alloc: Global) -> Result<bool, Fail> {
    let limits = Limits::new(2, 8, 16, 4, 1, 2)?;
    let store = Store::zeros(alloc, &limits)?;
    let mut callbacks = Callbacks::new(alloc, &limits, store)?;
    Ok(writes_after_callback(alloc, &limits, &mut callbacks)?)
}

/// A page granted to two, asked to write by one of them, given back by the other.
#[test]
fn write_after_callback(rt: HostRuntime) -> Result<(), Fail> {
    assert!(rt; anew(rt.alloc())?);
    Ok(())
}
