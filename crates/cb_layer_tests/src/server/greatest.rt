//! The calls of a server that can answer want of memory, with 32 clients and 4,096 pages, and with
//! pages of 65,536 bytes: one that gives up from some number of clients, of pages or of bytes on is
//! refused here, which no clause can say.
use cb_commit::Store;
use cb_frame::{Body, Frame, ShortBody, Write, Writes, encode};
use cb_page::{ClientNo, CommitNo, GrantNo, Incarnation, Limits, PageNo, TxnNo};
use cb_server::Server;
use cb_test_parts::stores::page_of;
use std::alloc::Global;

/// How many frames are answered to a frame without page bytes; `None` where it doesn't fit or is
/// refused.
fn said(alloc: Global, server: &mut Server, client: ClientNo, body: ShortBody) -> Option<usize> {
    let frame = Frame {
        client,
        incarnation: Incarnation::new(1),
        body: Body::Short(body),
    };
    if !frame.fits(server.limits()) {
        return None;
    }
    Some(server.take(alloc, &frame).ok()?.len())
}

/// The same of the bytes of a commit.
fn committed(
    alloc: Global,
    server: &mut Server,
    client: ClientNo,
    txn: TxnNo,
    writes: Writes,
) -> Option<usize> {
    let frame = Frame {
        client,
        incarnation: Incarnation::new(1),
        body: Body::Commit { txn, writes },
    };
    if !frame.fits(server.limits()) {
        return None;
    }
    let bytes = encode(alloc, &frame).ok()?;
    let (said, _used) = server.take_bytes(alloc, bytes.as_slice()).ok()?;
    Some(said.len())
}

/// How many frames are answered as 31 clients greet and ask to read the page.
fn all_read(alloc: Global, limits: &Limits, server: &mut Server, page: PageNo) -> Option<usize> {
    let mut frames = 0usize;
    for number in 0..31 {
        let client = ClientNo::in_store(limits, number)?;
        let txn = TxnNo::new(1);
        let greeted = said(alloc, server, client, ShortBody::Hello)?;
        let read = said(alloc, server, client, ShortBody::AskRead { txn, page })?;
        frames = frames.wrapping_add(greeted).wrapping_add(read);
    }
    Some(frames)
}

/// What the client writes to each page, once it has read all and may write them.
fn all_permitted(
    alloc: Global,
    limits: &Limits,
    server: &mut Server,
    client: ClientNo,
) -> Option<Vec<Write>> {
    let mut writes = Vec::new(alloc);
    for number in 0..u64::from(limits.pages()) {
        let page = PageNo::in_store(limits, number)?;
        let grant = GrantNo::checked(number.wrapping_add(1))?;
        let txn = TxnNo::new(1);
        let read = said(alloc, server, client, ShortBody::AskRead { txn, page })?;
        let asked = ShortBody::AskWrite { txn, page, grant };
        if read != 1 || said(alloc, server, client, asked)? != 1 {
            return None;
        }
        let bytes = page_of(alloc, 7, limits.page_size()).ok()?;
        writes.push(Write { page, grant, bytes }).ok()?;
    }
    Some(writes)
}

/// How many pages reach the disk with the commits up to a number, and how many frames that says.
fn flushed(alloc: Global, server: &mut Server, number: CommitNo) -> Option<[usize; 2]> {
    let written = server.batch(alloc).ok()??.pages().len();
    if !server.can_flush(number) {
        return None;
    }
    Some([written, server.flushed(alloc, number).ok()?.len()])
}

/// How many frames are answered as 31 clients wait for the last page, as the last client commits
/// all pages, and as it asks to write that page again; and how many call it back once more.
fn commits_all(alloc: Global, limits: &Limits, server: &mut Server) -> Option<[usize; 4]> {
    let last = ClientNo::in_store(limits, 31)?;
    said(alloc, server, last, ShortBody::Hello)?;
    let writes = Writes::from_vec(all_permitted(alloc, limits, server, last)?);
    let count = u64::from(limits.pages());
    let page = PageNo::in_store(limits, count.wrapping_sub(1))?;
    let grant = GrantNo::checked(count)?;
    let waiting = all_read(alloc, limits, server, page)?;
    let granted = committed(alloc, server, last, TxnNo::new(1), writes)?;
    let txn = TxnNo::new(2);
    let called = said(
        alloc,
        server,
        last,
        ShortBody::AskWrite { txn, page, grant },
    )?;
    Some([waiting, granted, called, server.again(alloc).ok()?.len()])
}

/// How many frames are answered as 31 clients commit, which wrote nothing.
fn all_finish(alloc: Global, limits: &Limits, server: &mut Server) -> Option<usize> {
    let mut frames = 0usize;
    for number in 0..31 {
        let client = ClientNo::in_store(limits, number)?;
        let nothing = Writes::from_vec(Vec::new(alloc));
        let answered = committed(alloc, server, client, TxnNo::new(1), nothing)?;
        frames = frames.wrapping_add(answered);
    }
    Some(frames)
}

/// Both at a server of zeros, of 32 clients and so many pages; and how many frames are answered as
/// the other clients commit, before all 32 commits reach the disk.
fn all_are_committed(
    alloc: Global,
    pages: u64,
    page_size: u64,
) -> Option<([usize; 4], usize, [usize; 2])> {
    let limits = Limits::new(32, pages, page_size, 1024, 1, 4096).ok()?;
    let store = Store::zeros(alloc, &limits).ok()?;
    let mut server = Server::new(alloc, &limits, store).ok()?;
    let frames = commits_all(alloc, &limits, &mut server)?;
    let finished = all_finish(alloc, &limits, &mut server)?;
    let number = CommitNo::new(32);
    Some((frames, finished, flushed(alloc, &mut server, number)?))
}

#[test]
fn all_pages_are_committed(rt: HostRuntime) {
    let frames = [31, 31, 31, 31];
    assert!(rt; all_are_committed(rt.alloc(), 4096, 16) == Some((frames, 0, [4096, 32])));
    assert!(rt; all_are_committed(rt.alloc(), 16, 65_536) == Some((frames, 0, [16, 32])));
}
