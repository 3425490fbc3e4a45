//! A service of frames over disks in memory: what it puts out, what it keeps, and how it ends.
//! The bytes were spelled by hand from the table of frames.

ghost use Rattle.std.specs.Prelude.{◌≡◌};

use crate::batches::{SEVENS, ZEROS};
use crate::disks::{TwoPages, held_by, new_database};
use cb_page::Limits;
use cb_serve::{print_served, serve};
use cb_shelf::Shelf;
use sqlite::{Alter, Connection};
use std::alloc::{AllocError, Global};
use std::io;
use std::io::{ErrorKind, Read, Write};
use std::test::Fail;

/// Client 0 begins as incarnation 1, reads page 0 in transaction 1, asks to write it, and commits
/// sevens.
static HELLO: [u8; 16] = [2, 1, 0, 0, 0, 0, 0, 0, 0, 0, 0, 1, 0, 0, 0, 0];

static ASK_READ: [u8; 28] = [
    2, 2, 0, 0, 0, 0, 0, 0, 0, 0, 0, 1, 0, 0, 0, 12, 0, 0, 0, 0, 0, 0, 0, 1, 0, 0, 0, 0,
];

static ASK_WRITE: [u8; 36] = [
    2, 3, 0, 0, 0, 0, 0, 0, 0, 0, 0, 1, 0, 0, 0, 20, 0, 0, 0, 0, 0, 0, 0, 1, 0, 0, 0, 0, 0, 0, 0,
    0, 0, 0, 0, 1,
];

static COMMIT: [u8; 58] = [
    2, 6, 0, 0, 0, 0, 0, 0, 0, 0, 0, 1, 0, 0, 0, 42, 0, 0, 0, 0, 0, 0, 0, 1, 0, 1, 0, 0, 0, 0, 0,
    0, 0, 0, 0, 0, 0, 1, 0, 0, 0, 16, 7, 7, 7, 7, 7, 7, 7, 7, 7, 7, 7, 7, 7, 7, 7, 7,
];

/// Client 1 begins.
static OTHER_HELLO: [u8; 16] = [2, 1, 0, 1, 0, 0, 0, 0, 0, 0, 0, 1, 0, 0, 0, 0];

/// Client 0 begins as an incarnation for which no life is given room: 2^61 + 2^60.
static LATE_HELLO: [u8; 16] = [2, 1, 0, 0, 48, 0, 0, 0, 0, 0, 0, 0, 0, 0, 0, 0];

/// What is said to each of these.
static WELCOME: [u8; 16] = [2, 65, 0, 0, 0, 0, 0, 0, 0, 0, 0, 1, 0, 0, 0, 0];

static GRANTED: [u8; 56] = [
    2, 66, 0, 0, 0, 0, 0, 0, 0, 0, 0, 1, 0, 0, 0, 40, 0, 0, 0, 0, 0, 0, 0, 0, 0, 0, 0, 1, 0, 0, 0,
    0, 0, 0, 0, 0, 0, 0, 0, 16, 0, 0, 0, 0, 0, 0, 0, 0, 0, 0, 0, 0, 0, 0, 0, 0,
];

static MAY_WRITE: [u8; 36] = [
    2, 67, 0, 0, 0, 0, 0, 0, 0, 0, 0, 1, 0, 0, 0, 20, 0, 0, 0, 0, 0, 0, 0, 1, 0, 0, 0, 0, 0, 0, 0,
    0, 0, 0, 0, 1,
];

static DONE: [u8; 32] = [
    2, 69, 0, 0, 0, 0, 0, 0, 0, 0, 0, 1, 0, 0, 0, 16, 0, 0, 0, 0, 0, 0, 0, 1, 0, 0, 0, 0, 0, 0, 0,
    1,
];

static OTHER_WELCOME: [u8; 16] = [2, 65, 0, 1, 0, 0, 0, 0, 0, 0, 0, 1, 0, 0, 0, 0];

/// In the life after that client 0 begins as that life's floor, 2^20 + 1, and reads page 0.
static LATER_HELLO: [u8; 16] = [2, 1, 0, 0, 0, 0, 0, 0, 0, 16, 0, 1, 0, 0, 0, 0];

static LATER_READ: [u8; 28] = [
    2, 2, 0, 0, 0, 0, 0, 0, 0, 16, 0, 1, 0, 0, 0, 12, 0, 0, 0, 0, 0, 0, 0, 1, 0, 0, 0, 0,
];

/// What is said to these: once the commit is in the store, version 1 of the page, sevens.
static LATER_WELCOME: [u8; 16] = [2, 65, 0, 0, 0, 0, 0, 0, 0, 16, 0, 1, 0, 0, 0, 0];

static SEVENS_GRANTED: [u8; 56] = [
    2, 66, 0, 0, 0, 0, 0, 0, 0, 16, 0, 1, 0, 0, 0, 40, 0, 0, 0, 0, 0, 0, 0, 0, 0, 0, 0, 1, 0, 0, 0,
    0, 0, 0, 0, 1, 0, 0, 0, 16, 7, 7, 7, 7, 7, 7, 7, 7, 7, 7, 7, 7, 7, 7, 7, 7,
];

/// A read of page 2, which isn't there.
static UNREAD: [u8; 28] = [
    2, 2, 0, 0, 0, 0, 0, 0, 0, 0, 0, 1, 0, 0, 0, 12, 0, 0, 0, 0, 0, 0, 0, 1, 0, 0, 0, 2,
];

/// A header of version 3.
static NO_FRAME: [u8; 16] = [3, 1, 0, 0, 0, 0, 0, 0, 0, 0, 0, 1, 0, 0, 0, 0];

/// How a service ended: what it said, its status (none where the output was refused), and what the
/// store holds then.
type ServiceEnd<'a> = (&'a str, Option<u8>, TwoPages);

/// The pieces, one after another.
fn joined(alloc: Global, pieces: &[&[u8]]) -> Result<Vec<u8>, AllocError> {
    let mut all = Vec::new(alloc);
    for piece in pieces {
        all.extend_from_slice(piece)?;
    }
    Ok(all)
}

/// Whether a service over the store in a shelf ends so.
fn ends_so<S: Alter, R: Read, W: Write>(
    alloc: Global,
    limits: &Limits,
    shelf: &mut Shelf<S>,
    input: &mut R,
    output: &mut W,
    ending: ServiceEnd<'_>,
) -> bool
    requires { shelf.old.limits ≡ limits.now }
{
    let Ok(life) = shelf.begin_life() else {
        return false;
    };
    let Ok(store) = shelf.load(alloc) else {
        return false;
    };
    let served = serve(alloc, limits, store, life, shelf, input, output);
    let mut said = Vec::new(alloc);
    let status = print_served(served, &mut said).ok();
    let ends = said.as_slice() == ending.0.as_bytes() && status == ending.1;
    match shelf.load(alloc) {
        Ok(store) => ends && held_by(limits, &store) == Some(ending.2),
        Err(_) => false,
    }
}

/// Whether a service of as many clients as there may be, over the store in a database, ends so. The
/// database comes back.
fn serves<S: Alter, R: Read, W: Write>(
    alloc: Global,
    conn: Connection<S>,
    input: &mut R,
    output: &mut W,
    ending: ServiceEnd<'_>,
) -> (bool, Connection<S>) {
    let Ok(limits) = Limits::new(32, 2, 16, 2, 1, 1) else {
        return (false, conn);
    };
    match Shelf::open(alloc, conn, &limits) {
        Ok(mut shelf) => {
            let ends = ends_so(alloc, &limits, &mut shelf, input, output, ending);
            (ends, shelf.close())
        }
        Err((_, conn)) => (false, conn),
    }
}

/// Whether a service over a new store puts these pieces out, and ends so.
fn puts_out<R: Read>(
    alloc: Global,
    input: &mut R,
    pieces: &[&[u8]],
    ending: ServiceEnd<'_>,
) -> Result<bool, AllocError> {
    let wanted = joined(alloc, pieces)?;
    let mut output = Vec::new(alloc);
    let conn = new_database(alloc)?;
    let (ends, _conn) = serves(alloc, conn, input, &mut output, ending);
    Ok(ends && output.as_slice() == wanted.as_slice())
}

/// Whether one of these pieces, which are read at once, does.
fn answers(
    alloc: Global,
    input: &[&[u8]],
    pieces: &[&[u8]],
    ending: ServiceEnd<'_>,
) -> Result<bool, AllocError> {
    let bytes = joined(alloc, input)?;
    let mut reader = bytes.as_slice();
    puts_out(alloc, &mut reader, pieces, ending)
}

/// What was said of frames that were read at once goes out in their order, and then the Dones.
#[test]
fn dones_come_last(rt: HostRuntime) -> Result<(), Fail> {
    let input = [
        HELLO.as_slice(),
        ASK_READ.as_slice(),
        ASK_WRITE.as_slice(),
        COMMIT.as_slice(),
        OTHER_HELLO.as_slice(),
    ];
    let pieces = [
        WELCOME.as_slice(),
        GRANTED.as_slice(),
        MAY_WRITE.as_slice(),
        OTHER_WELCOME.as_slice(),
        DONE.as_slice(),
    ];
    assert!(rt; answers(rt.alloc(), &input, &pieces, ("", Some(0), SEVENS))?);
    Ok(())
}

/// A commit that comes in two reads is written at the second, and its Done goes out before the
/// third is answered.
#[test]
fn frame_in_two_reads(rt: HostRuntime) -> Result<(), Fail> {
    let alloc = rt.alloc();
    let first = joined(alloc, &[&HELLO, &ASK_READ, &ASK_WRITE, &COMMIT[..20]])?;
    let pieces = joined(
        alloc,
        &[&WELCOME, &GRANTED, &MAY_WRITE, &DONE, &OTHER_WELCOME],
    )?;
    let mut input = first
        .as_slice()
        .chain(&COMMIT[20..])
        .chain(OTHER_HELLO.as_slice());
    let ending = ("", Some(0), SEVENS);
    assert!(rt; puts_out(alloc, &mut input, &[pieces.as_slice()], ending)?);
    Ok(())
}

/// What can't be read is passed over, and counted.
#[test]
fn unread_frames(rt: HostRuntime) -> Result<(), Fail> {
    let input = [
        UNREAD.as_slice(),
        HELLO.as_slice(),
        UNREAD.as_slice(),
        ASK_READ.as_slice(),
    ];
    let pieces = [WELCOME.as_slice(), GRANTED.as_slice()];
    let ending = ("passed over 2\n", Some(0), ZEROS);
    assert!(rt; answers(rt.alloc(), &input, &pieces, ending)?);
    Ok(())
}

/// A Hello for which no life has room is let go, and its client's incarnation goes on.
#[test]
fn hello_without_room(rt: HostRuntime) -> Result<(), Fail> {
    let input = [HELLO.as_slice(), LATE_HELLO.as_slice(), ASK_READ.as_slice()];
    let pieces = [WELCOME.as_slice(), GRANTED.as_slice()];
    assert!(rt; answers(rt.alloc(), &input, &pieces, ("", Some(0), ZEROS))?);
    Ok(())
}

/// A header that is none ends it: what came before is answered and written, and what comes behind
/// it isn't.
#[test]
fn no_frame(rt: HostRuntime) -> Result<(), Fail> {
    let alloc = rt.alloc();
    let before = joined(alloc, &[&HELLO, &ASK_READ, &ASK_WRITE, &COMMIT])?;
    let input = [
        before.as_slice(),
        NO_FRAME.as_slice(),
        OTHER_HELLO.as_slice(),
    ];
    let pieces = joined(alloc, &[&WELCOME, &GRANTED, &MAY_WRITE, &DONE])?;
    let ending = ("input: no frame\n", Some(3), SEVENS);
    assert!(rt; answers(alloc, &input, &[pieces.as_slice()], ending)?);
    Ok(())
}

/// An input that ends within a frame: what came before is answered, and the frame isn't taken.
#[test]
fn frame_cut(rt: HostRuntime) -> Result<(), Fail> {
    let alloc = rt.alloc();
    let before = joined(alloc, &[&HELLO, &ASK_READ, &ASK_WRITE])?;
    let pieces = joined(alloc, &[&WELCOME, &GRANTED, &MAY_WRITE])?;
    let ending = ("input: frame cut\n", Some(3), ZEROS);
    for count in [1usize, 15, 16, 57] {
        let input = [before.as_slice(), &COMMIT[..count.min(58)]];
        assert!(rt; answers(alloc, &input, &[pieces.as_slice()], ending)?);
    }
    Ok(())
}

/// An input whose first read is refused, by an error of that kind; those behind it read the bytes.
#[derive(Drop)]
struct RefusesOnce<'a> {
    kind: Option<ErrorKind>,
    bytes: &'a [u8],
}

impl Read for RefusesOnce<'_> {
    fn read(&mut self, buf: &mut [u8]) -> io::Result<usize> {
        if let Some(kind) = self.kind.take() {
            return Err(io::Error::from(kind));
        }
        self.bytes.read(buf)
    }
}

/// Whether a service whose first read is refused so puts these pieces out, and ends so.
fn refused_once(
    alloc: Global,
    kind: ErrorKind,
    pieces: &[&[u8]],
    ending: ServiceEnd<'_>,
) -> Result<bool, AllocError> {
    let mut input = RefusesOnce {
        kind: Some(kind),
        bytes: HELLO.as_slice(),
    };
    puts_out(alloc, &mut input, pieces, ending)
}

/// A read that is refused ends the service, though the next one would give a frame. One that a
/// signal interrupts is made again.
#[test]
fn input_refused_once(rt: HostRuntime) -> Result<(), Fail> {
    let alloc = rt.alloc();
    let unread = ("input: cannot read\n", Some(3), ZEROS);
    let unfit = ("memory\n", Some(4), ZEROS);
    let pieces = [WELCOME.as_slice()];
    assert!(rt; refused_once(alloc, ErrorKind::ConnectionReset, &[], unread)?);
    assert!(rt; refused_once(alloc, ErrorKind::WouldBlock, &[], unread)?);
    assert!(rt; refused_once(alloc, ErrorKind::OutOfMemory, &[], unfit)?);
    assert!(rt; refused_once(alloc, ErrorKind::Interrupted, &pieces, ("", Some(0), ZEROS))?);
    Ok(())
}

/// Whether an output with room for some bytes alone gets the first of these, and it ends so.
fn is_refused(
    alloc: Global,
    room: usize,
    pieces: &[&[u8]],
    held: TwoPages,
) -> Result<bool, AllocError> {
    let input = joined(alloc, &[&HELLO, &ASK_READ, &ASK_WRITE, &COMMIT])?;
    let wanted = joined(alloc, pieces)?;
    let mut bytes = vec![in alloc; 255u8; room.min(200)]?;
    let mut output = bytes.as_mut_slice();
    let mut reader = input.as_slice();
    let conn = new_database(alloc)?;
    let (ends, _conn) = serves(alloc, conn, &mut reader, &mut output, ("", None, held));
    Ok(ends && wanted.as_slice().starts_with(bytes.as_slice()))
}

/// Where an answer is refused nothing is written; where a Done is, the commit is written before.
#[test]
fn output_refused(rt: HostRuntime) -> Result<(), Fail> {
    let pieces = [
        WELCOME.as_slice(),
        GRANTED.as_slice(),
        MAY_WRITE.as_slice(),
        DONE.as_slice(),
    ];
    assert!(rt; is_refused(rt.alloc(), 0, &pieces, ZEROS)?);
    assert!(rt; is_refused(rt.alloc(), 20, &pieces, ZEROS)?);
    assert!(rt; is_refused(rt.alloc(), 107, &pieces, ZEROS)?);
    assert!(rt; is_refused(rt.alloc(), 108, &pieces, SEVENS)?);
    assert!(rt; is_refused(rt.alloc(), 139, &pieces, SEVENS)?);
    Ok(())
}

/// Whether a service that goes on where one ended holds what the former committed, and ignores an
/// incarnation that the former knew. One of its own life is granted what was committed.
fn goes_on(alloc: Global) -> Result<bool, AllocError> {
    let commits = joined(alloc, &[&HELLO, &ASK_READ, &ASK_WRITE, &COMMIT])?;
    let reads = joined(alloc, &[&HELLO, &ASK_READ, &LATER_HELLO, &LATER_READ])?;
    let wanted = joined(alloc, &[&LATER_WELCOME, &SEVENS_GRANTED])?;
    let ending = ("", Some(0), SEVENS);
    let (mut former, mut output) = (Vec::new(alloc), Vec::new(alloc));
    let (mut first, mut second) = (commits.as_slice(), reads.as_slice());
    let conn = new_database(alloc)?;
    let (began, conn) = serves(alloc, conn, &mut first, &mut former, ending);
    let (went_on, _conn) = serves(alloc, conn, &mut second, &mut output, ending);
    Ok(began && went_on && output.as_slice() == wanted.as_slice())
}

/// At the end of the input all is written, and the next service begins with it.
#[test]
fn end_writes_all(rt: HostRuntime) -> Result<(), Fail> {
    assert!(rt; goes_on(rt.alloc())?);
    Ok(())
}
