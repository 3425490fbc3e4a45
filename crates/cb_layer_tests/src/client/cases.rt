//! Clients over choosers: what they refer to and let go, and many pages that they write.

ghost use Rattle.std.specs.Prelude.{◌≡◌, ◌<◌, ◌≤◌, [], IfOk, IfSome};

use crate::client::laws::{called, gives_back_once};
use crate::pool::{Called, Fifo, Recorder};
use cb_client::{Client, ClientFault, ReadAnswer};
use cb_frame::{Body, Frame, ShortBody};
use cb_page::{ClientNo, CommitNo, GrantNo, Incarnation, Limits, PageNo, TxnNo, Version};
use cb_test_parts::stores::page_of;
use cb_twoq::{Chooser, PlainTwoQ, TwoQ};
use std::alloc::{AllocError, Global};
use std::test::Fail;

/// A frame for client 0 at incarnation 2.
pub(crate) fn frame(body: Body) -> Frame
    ensures { result ≡ record { client = 0; incarnation = 2; body = body } }
{
    Frame {
        client: ClientNo::new(0),
        incarnation: Incarnation::new(2),
        body,
    }
}

/// Client 0 at that incarnation over this chooser; None where memory is refused.
fn client_over<Q: Chooser>(
    alloc: Global,
    limits: &Limits,
    incarnation: Incarnation,
    chooser: Q,
) -> Option<Client<Q>>
    requires members { Q.members chooser ≡ [] }
    requires slots { Q.slots chooser ≡ limits.now.slots }
    ensures { IfSome result (λ client. client.copies.limits ≡ limits.now) }
{
    // There is one client at least: `clients` says so.
    let _known = limits.clients();
    match Client::new(alloc, ClientNo::new(0), incarnation, limits, chooser) {
        Ok(client) => Some(client),
        Err(_) => None,
    }
}

/// The same over a new chooser.
fn new_client<Q: Chooser>(
    alloc: Global,
    limits: &Limits,
    incarnation: Incarnation,
) -> Option<Client<Q>>
    ensures { IfSome result (λ client. client.copies.limits ≡ limits.now) }
{
    match Q::make(alloc, limits) {
        Ok(chooser) => client_over(alloc, limits, incarnation, chooser),
        Err(_) => None,
    }
}

/// A chooser that keeps the list of its calls, and has one on it.
fn recorder<Q: Chooser>(alloc: Global, limits: &Limits) -> Result<Recorder<Q>, AllocError>
    ensures members { IfOk result (λ recorder. Q.members recorder ≡ []) }
    ensures slots { IfOk result (λ recorder. Q.slots recorder ≡ limits.now.slots) }
{
    let mut recorder = Recorder::<Q>::make(alloc, limits)?;
    recorder.note(Called::Reference(PageNo::new(7)));
    Ok(recorder)
}

/// A new client over such a chooser.
fn recorded<Q: Chooser>(alloc: Global, limits: &Limits) -> Option<Client<Recorder<Q>>> {
    match recorder(alloc, limits) {
        Ok(recorder) => client_over(alloc, limits, Incarnation::new(2), recorder),
        Err(_) => None,
    }
}

/// A client that restarted over such a chooser, at incarnation 2.
fn restarted<Q: Chooser>(alloc: Global, limits: &Limits) -> Option<Client<Recorder<Q>>> {
    let mut client = new_client(alloc, limits, Incarnation::new(1))?;
    let next = client.incarnation().next()?;
    match recorder(alloc, limits) {
        Ok(recorder) => {
            client.restart(next, recorder);
            Some(client)
        }
        Err(_) => None,
    }
}

/// What the client says to that frame; nothing where it doesn't fit, or memory is refused.
fn taken<Q: Chooser>(alloc: Global, client: &mut Client<Q>, body: Body) -> Vec<Frame> {
    let frame = frame(body);
    if !frame.fits(client.limits()) {
        return Vec::new(alloc);
    }
    match client.take(alloc, &frame) {
        Ok(frames) => frames,
        Err(_) => Vec::new(alloc),
    }
}

/// Whether the client says these bodies, and no others, to that one.
fn says<Q: Chooser>(
    alloc: Global,
    client: &mut Client<Q>,
    body: ShortBody,
    bodies: &[ShortBody],
) -> bool {
    are(taken(alloc, client, Body::Short(body)).as_slice(), bodies)
}

/// Whether the frames have these bodies, one after another.
fn are(frames: &[Frame], bodies: &[ShortBody]) -> bool {
    frames.len() == bodies.len()
        && frames
            .iter()
            .zip(bodies.iter())
            .all(|(frame, body)| is(frame, *body))
}

/// Whether the frame is client 0's of incarnation 2 and says this.
fn is(frame: &Frame, body: ShortBody) -> bool {
    match &frame.body {
        Body::Short(said) => {
            frame.client == ClientNo::new(0)
                && frame.incarnation == Incarnation::new(2)
                && *said == body
        }
        _ => false,
    }
}

/// Whether the client says these bodies to a copy of a page, of 16 bytes.
fn granted<Q: Chooser>(
    alloc: Global,
    client: &mut Client<Q>,
    (page, grant): (PageNo, GrantNo),
    bodies: &[ShortBody],
) -> bool {
    let Ok(bytes) = page_of(alloc, 7, 16) else {
        return false;
    };
    let body = Body::Granted {
        page,
        grant,
        version: Version::new(0),
        bytes,
    };
    are(taken(alloc, client, body).as_slice(), bodies)
}

/// Whether a page is asked for.
fn asks<Q: Chooser>(client: &mut Client<Q>, txn: TxnNo, page: PageNo) -> bool {
    let asked = matches!(client.read(page), Ok(ReadAnswer::Asked));
    let ask = match client.ask() {
        Some(ask) => ask.body == ShortBody::AskRead { txn, page },
        None => false,
    };
    asked && ask
}

/// Whether a page is read without a message.
fn reads<Q: Chooser>(client: &mut Client<Q>, page: PageNo) -> bool {
    matches!(client.read(page), Ok(ReadAnswer::Bytes(_)))
}

/// Whether a read is refused for this.
fn refuses<Q: Chooser>(client: &mut Client<Q>, page: PageNo, fault: ClientFault) -> bool {
    match client.read(page) {
        Err(refused) => refused == fault,
        Ok(_) => false,
    }
}

/// Whether a transaction of that number begins.
fn begins<Q: Chooser>(client: &mut Client<Q>, txn: TxnNo) -> bool {
    match client.begin() {
        Ok(begun) => begun == txn,
        Err(_) => false,
    }
}

/// Whether the chooser that was handed in was called for these, in order: a transaction asks for a
/// page and reads it, and the copy is called back after its end.
fn refers_as_wanted<Q: Chooser>(alloc: Global, client: &mut Client<Recorder<Q>>) -> bool {
    let (page, grant, txn) = (PageNo::new(0), GrantNo::new(1), TxnNo::new(1));
    gives_back_once(client);
    let played = refuses(client, page, ClientFault::NotWelcome)
        && says(alloc, client, ShortBody::Welcome, &[])
        && begins(client, txn)
        && asks(client, txn, page)
        && refuses(client, page, ClientFault::Waiting)
        && granted(alloc, client, (page, grant), &[])
        && granted(alloc, client, (page, grant), &[])
        && reads(client, page)
        && client.peek(page).is_some()
        && drops(alloc, client, txn);
    let given = match called(alloc, client, page, grant) {
        Some(said) => are(said.as_slice(), &[ShortBody::GiveBack { page, grant }]),
        None => false,
    };
    let calls = [
        Called::Reference(PageNo::new(7)),
        Called::Reference(page),
        Called::Reference(page),
        Called::Forget(page),
    ];
    played && given && client.chooser().calls() == calls.as_slice()
}

/// The same of a new client, where there is one.
fn new_one_refers<Q: Chooser>(alloc: Global, client: Option<Client<Recorder<Q>>>) -> bool {
    match client {
        Some(mut client) => refers_as_wanted(alloc, &mut client),
        None => false,
    }
}

/// A hit and an install are references; a refused read, an ask and a repeated Granted are not. A
/// page is forgotten as its copy goes. So it is from a client's begin on, and from its restart on.
#[test]
fn references_of_a_client(rt: HostRuntime) -> Result<(), Fail> {
    let limits = Limits::new(2, 8, 16, 4, 1, 2)?;
    let new = recorded::<TwoQ>(rt.alloc(), &limits);
    assert!(rt; new_one_refers(rt.alloc(), new));
    let restarted = restarted::<TwoQ>(rt.alloc(), &limits);
    assert!(rt; new_one_refers(rt.alloc(), restarted));
    Ok(())
}

/// Whether a transaction of its own asks for the page and drops, and the client says these bodies
/// as the copy comes.
fn is_read_alone<Q: Chooser>(
    alloc: Global,
    client: &mut Client<Q>,
    txn: TxnNo,
    copy: (PageNo, GrantNo),
    bodies: &[ShortBody],
) -> bool {
    begins(client, txn)
        && asks(client, txn, copy.0)
        && granted(alloc, client, copy, bodies)
        && drops(alloc, client, txn)
}

/// Whether a client of two slots lets the page go that came first, though it was read again, and
/// gives it back.
fn lets_the_first_go<Q: Chooser>(alloc: Global, client: &mut Client<Q>) -> bool {
    let (page, grant) = (PageNo::new(0), GrantNo::new(1));
    let second = (PageNo::new(3), GrantNo::new(2));
    let third = (PageNo::new(2), GrantNo::new(3));
    let give_back = [ShortBody::GiveBack { page, grant }];
    let again = TxnNo::new(3);
    says(alloc, client, ShortBody::Welcome, &[])
        && is_read_alone(alloc, client, TxnNo::new(1), (page, grant), &[])
        && is_read_alone(alloc, client, TxnNo::new(2), second, &[])
        && begins(client, again)
        && reads(client, page)
        && drops(alloc, client, again)
        && is_read_alone(alloc, client, TxnNo::new(4), third, &give_back)
        && client.peek(page).is_none()
}

/// Whether a new client over a new chooser does.
fn new_one_lets_go<Q: Chooser>(alloc: Global, limits: &Limits) -> bool {
    match new_client::<Q>(alloc, limits, Incarnation::new(2)) {
        Some(mut client) => lets_the_first_go(alloc, &mut client),
        None => false,
    }
}

/// A client over 2Q in either form, and over a caller's own chooser.
#[test]
fn client_over_any_chooser(rt: HostRuntime) -> Result<(), Fail> {
    let limits = Limits::new(2, 8, 16, 2, 1, 1)?;
    assert!(rt; new_one_lets_go::<TwoQ>(rt.alloc(), &limits));
    assert!(rt; new_one_lets_go::<PlainTwoQ>(rt.alloc(), &limits));
    assert!(rt; new_one_lets_go::<Fifo>(rt.alloc(), &limits));
    Ok(())
}

/// Whether the page, of the greatest size that comes here, is read, permitted and written.
fn is_written<Q: Chooser>(alloc: Global, client: &mut Client<Q>, txn: TxnNo, number: u32) -> bool
    requires { number < 4096 }
{
    let page = PageNo::new(number);
    let grant = GrantNo::new(u64::from(number) + 1);
    let Ok(bytes) = page_of(alloc, 7, 4096) else {
        return false;
    };
    let read = client.read(page).is_ok();
    let body = Body::Granted {
        page,
        grant,
        version: Version::new(0),
        bytes,
    };
    let held = taken(alloc, client, body).is_empty() && reads(client, page);
    let wanted = client.want(page).is_ok();
    let permitted = says(alloc, client, ShortBody::MayWrite { txn, page, grant }, &[]);
    let callback = ShortBody::Callback { page, grant };
    let called = says(
        alloc,
        client,
        callback,
        &[ShortBody::InUse { txn, page, grant }],
    );
    let wrote = client.write(page, &[9u8; 4096]).is_ok();
    read && held && wanted && permitted && called && wrote
}

/// Whether so many pages are written.
fn are_written<Q: Chooser>(alloc: Global, client: &mut Client<Q>, txn: TxnNo, count: u32) -> bool
    requires { count ≤ 4096 }
{
    for number in 0..count {
        if !is_written(alloc, client, txn, number) {
            return false;
        }
    }
    true
}

/// Whether 300 pages are written and committed, and the next transaction dropped.
fn has_memory<Q: Chooser>(alloc: Global, client: &mut Client<Q>) -> bool {
    let txn = TxnNo::new(1);
    let number = CommitNo::new(1);
    let began = says(alloc, client, ShortBody::Welcome, &[]) && begins(client, txn);
    if !(began && are_written(alloc, client, txn, 300)) {
        return false;
    }
    let finished = client.finish(alloc).is_ok();
    let again = match client.again(alloc) {
        Ok(frames) => frames.len(),
        Err(_) => 0,
    };
    let done = Body::Short(ShortBody::Done { txn, number });
    let given = taken(alloc, client, done).len();
    let next = TxnNo::new(2);
    finished && again == 1 && given == 300 && begins(client, next) && drops(alloc, client, next)
}

/// Whether the transaction is dropped, and no page is given back.
fn drops<Q: Chooser>(alloc: Global, client: &mut Client<Q>, txn: TxnNo) -> bool {
    match client.drop_txn(alloc) {
        Ok(frames) => are(frames.as_slice(), &[ShortBody::Drop { txn }]),
        Err(_) => false,
    }
}

/// The same of a new client over a new chooser.
fn new_one_has_memory<Q: Chooser>(alloc: Global, limits: &Limits) -> bool {
    match new_client::<Q>(alloc, limits, Incarnation::new(2)) {
        Some(mut client) => has_memory(alloc, &mut client),
        None => false,
    }
}

/// At the greatest limits but the pages' size, with 300 pages of 4,096 bytes written: each call
/// that can answer Memory has it.
#[test]
fn greatest_client(rt: HostRuntime) -> Result<(), Fail> {
    let limits = Limits::new(32, 4096, 4096, 1024, 256, 512)?;
    assert!(rt; new_one_has_memory::<TwoQ>(rt.alloc(), &limits));
    Ok(())
}
