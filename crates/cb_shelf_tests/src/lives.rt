//! Lives of a server over a shelf: with which floors they begin.

use crate::disks::{SessionEnd, SessionTask, ShelfSession, session_of};
use crate::reopened::ends_of;
use crate::shapes::{NEW, OLD};
use cb_page::Limits;
use cb_shelf::ShelfFault;
use std::alloc::Global;
use std::test::Fail;

/// So many incarnations have room in a life that begins.
pub(crate) const RANGE: u64 = 1 << 20;

/// The first floor of tables that may have been served without lives.
pub(crate) const UNKEPT: u64 = 1 << 61;

/// Above the room of a life that begins with floor 1, by twice the range.
pub(crate) const HELLO: u64 = 1 << 22;

/// After this text a life begins, and gets room for this incarnation if it has none.
fn living<'a>(limits: &'a Limits, text: &'a str, incarnation: u64) -> ShelfSession<'a> {
    session_of(limits, text, SessionTask::Live(incarnation))
}

/// Whether the lives over these tables begin with this floor, then where that one's room ended, and
/// then above the incarnation that the second one got room for.
fn have_floors(alloc: Global, limits: &Limits, text: &str, floor: u64) -> bool {
    let second = floor.wrapping_add(RANGE);
    let hello = floor.wrapping_add(HELLO);
    let sessions = [
        living(limits, text, 0),
        living(limits, "", hello),
        living(limits, "", 0),
    ];
    let lived = [
        SessionEnd::Lived(floor, false),
        SessionEnd::Lived(second, true),
        SessionEnd::Lived(hello.wrapping_add(RANGE), false),
    ];
    ends_of(alloc, sessions) == lived
}

/// New tables begin with 1; those that a shelf copied, and those that kept no lives, with 2^61.
#[test]
fn first_floors(rt: HostRuntime) -> Result<(), Fail> {
    let limits = Limits::new(1, 2, 16, 2, 1, 1)?;
    for (text, floor) in [("", 1), (OLD, UNKEPT), (NEW, UNKEPT)] {
        assert!(rt; have_floors(rt.alloc(), &limits, text, floor));
    }
    Ok(())
}

/// What comes of a life over new tables whose row this text sets.
fn after_row(alloc: Global, limits: &Limits, text: &str) -> SessionEnd {
    let sessions = [
        living(limits, "", 0),
        living(limits, text, 0),
        living(limits, "", 0),
    ];
    let [_, end, _] = ends_of(alloc, sessions);
    end
}

/// The last row from which a life is left.
static LAST: &'static str = "UPDATE life SET below = 4611686018426339327";

/// Rows from which none is.
static ENDED: [&'static str; 4] = [
    "UPDATE life SET below = 4611686018426339328",
    "UPDATE life SET below = 0",
    "UPDATE life SET below = -1",
    "DELETE FROM life",
];

#[test]
fn rows_from_which_no_life_is_left(rt: HostRuntime) -> Result<(), Fail> {
    let limits = Limits::new(1, 2, 16, 2, 1, 1)?;
    let last = SessionEnd::Lived(4611686018426339327, false);
    assert!(rt; after_row(rt.alloc(), &limits, LAST) == last);
    for text in ENDED {
        let end = after_row(rt.alloc(), &limits, text);
        assert!(rt; end == SessionEnd::Unbegun(ShelfFault::Shape));
    }
    Ok(())
}
