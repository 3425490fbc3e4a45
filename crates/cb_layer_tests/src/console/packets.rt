//! The bytes of packets that worked schedules send. They were spelled by hand from the table of
//! frames.

use cb_commit::Store;
use cb_page::Limits;
use cb_schedule::World;
use cb_test_parts::stores::small_limits;
use cb_transcript::read_schedule;
use cb_twoq::TwoQ;
use std::alloc::Global;

/// A schedule of so many clients, in two texts of which the first may be that they greet; the
/// numbers of some packets that have the same bytes, with these; and how many it sends in all.
struct Case {
    clients: u64,
    texts: [&'static str; 2],
    sent: &'static [(&'static [u64], &'static [u8])],
    count: usize,
}

/// Two clients greet.
const GREETED: &str = "hello 0\ntake 0\ntake 1\nhello 1\ntake 2\ntake 3\n";

/// Client 0's grant of page 0 comes after its callback. It asks again, and reads what client 1
/// wrote.
const LATE_GRANT: &str = "begin 0\nread 0 0\ntake 4\nbegin 1\nread 1 0\ntake 6\ntake 7\nwant 1 0\n\
     take 8\ntake 9\ntake 10\ntake 5\npeek 0 0\nagain 0\ntake 13\ntake 11\nwrite 1 0 7\nfinish 1\n\
     take 14\ntake 15\nread 0 0\nflush\n";

/// The commit of client 0, the only one, comes twice before it is on disk and twice behind that.
const REPEATED: &str = "hello 0\ntake 0\ntake 1\nbegin 0\nread 0 0\ntake 2\ntake 3\nwant 0 0\n\
     take 4\ntake 5\nwrite 0 0 5\nfinish 0\ntake 6\ntake 6\nflush 2\nflush\ntake 6\ntake 6\n";

/// Both read page 5, and client 0's ask comes twice.
const TWO_READERS: &str = "begin 0\nbegin 1\nread 0 5\nread 1 5\ntake 5\ntake 4\ntake 4\ntake 7\n\
     take 8\npeek 0 5\npeek 1 5\ntake 6\nread 1 5\n";

/// Client 0 commits while page 0, which it read, is called back.
const IN_USE: &str = "begin 0\nread 0 0\ntake 4\ntake 5\nread 0 0\nbegin 1\nread 1 0\ntake 6\n\
     take 7\nwant 1 0\ntake 8\ntake 9\ntake 10\nfinish 0\ntake 11\nflush\ntake 12\ntake 13\n";

/// Client 0 reads page 5, which nobody wrote.
const FIRST_READ: &str = "hello 0\ntake 0\ntake 1\nbegin 0\nread 0 5\ntake 2\ntake 3\nread 0 5\n";

static CASES: [Case; 6] = [
    // No packet.
    Case {
        clients: 1,
        texts: ["", ""],
        sent: &[],
        count: 0,
    },
    // Client 0 is granted page 5 by grant 1: version 0, zeros.
    Case {
        clients: 1,
        texts: [FIRST_READ, ""],
        sent: &[(
            &[3],
            &[
                2, 66, 0, 0, 0, 0, 0, 0, 0, 0, 0, 1, 0, 0, 0, 40, 0, 0, 0, 5, 0, 0, 0, 0, 0, 0, 0,
                1, 0, 0, 0, 0, 0, 0, 0, 0, 0, 0, 0, 16, 0, 0, 0, 0, 0, 0, 0, 0, 0, 0, 0, 0, 0, 0,
                0, 0,
            ],
        )],
        count: 4,
    },
    // Client 0 is granted page 0 by grant 1: version 0, zeros; and by grant 3: version 1, sevens.
    Case {
        clients: 2,
        texts: [GREETED, LATE_GRANT],
        sent: &[
            (
                &[5],
                &[
                    2, 66, 0, 0, 0, 0, 0, 0, 0, 0, 0, 1, 0, 0, 0, 40, 0, 0, 0, 0, 0, 0, 0, 0, 0, 0,
                    0, 1, 0, 0, 0, 0, 0, 0, 0, 0, 0, 0, 0, 16, 0, 0, 0, 0, 0, 0, 0, 0, 0, 0, 0, 0,
                    0, 0, 0, 0,
                ],
            ),
            (
                &[15],
                &[
                    2, 66, 0, 0, 0, 0, 0, 0, 0, 0, 0, 1, 0, 0, 0, 40, 0, 0, 0, 0, 0, 0, 0, 0, 0, 0,
                    0, 3, 0, 0, 0, 0, 0, 0, 0, 1, 0, 0, 0, 16, 7, 7, 7, 7, 7, 7, 7, 7, 7, 7, 7, 7,
                    7, 7, 7, 7,
                ],
            ),
        ],
        count: 17,
    },
    // Transaction 1 of client 0 is commit 1.
    Case {
        clients: 1,
        texts: [REPEATED, ""],
        sent: &[(
            &[7, 8, 9],
            &[
                2, 69, 0, 0, 0, 0, 0, 0, 0, 0, 0, 1, 0, 0, 0, 16, 0, 0, 0, 0, 0, 0, 0, 1, 0, 0, 0,
                0, 0, 0, 0, 1,
            ],
        )],
        count: 10,
    },
    // Client 0 is granted page 5 by grant 2: version 0, zeros.
    Case {
        clients: 2,
        texts: [GREETED, TWO_READERS],
        sent: &[(
            &[7, 8],
            &[
                2, 66, 0, 0, 0, 0, 0, 0, 0, 0, 0, 1, 0, 0, 0, 40, 0, 0, 0, 5, 0, 0, 0, 0, 0, 0, 0,
                2, 0, 0, 0, 0, 0, 0, 0, 0, 0, 0, 0, 16, 0, 0, 0, 0, 0, 0, 0, 0, 0, 0, 0, 0, 0, 0,
                0, 0,
            ],
        )],
        count: 9,
    },
    // Client 0 commits transaction 1, which wrote nothing.
    Case {
        clients: 2,
        texts: [GREETED, IN_USE],
        sent: &[(
            &[11],
            &[
                2, 6, 0, 0, 0, 0, 0, 0, 0, 0, 0, 1, 0, 0, 0, 10, 0, 0, 0, 0, 0, 0, 0, 1, 0, 0,
            ],
        )],
        count: 15,
    },
];

/// Plays the lines of a schedule.
fn play(alloc: Global, limits: &Limits, world: &mut World<TwoQ>, lines: &str) -> Option<()> {
    let events = read_schedule(alloc, limits, lines.as_bytes()).ok()?;
    for event in events.as_slice() {
        world.step(event.copy(alloc).ok()?).ok()?;
    }
    Some(())
}

/// The world of such a schedule, at its end.
fn played(alloc: Global, case: &Case) -> Option<World<TwoQ>> {
    let limits = small_limits(case.clients)?;
    let store = Store::zeros(alloc, &limits).ok()?;
    let mut world = World::new(alloc, &limits, store).ok()?;
    play(alloc, &limits, &mut world, case.texts[0])?;
    play(alloc, &limits, &mut world, case.texts[1])?;
    Some(world)
}

/// Whether a world has these packets.
fn are_packets(world: &World<TwoQ>, numbers: &[u64], bytes: &[u8]) -> bool {
    for &number in numbers {
        if world.packet(number) != Some(bytes) {
            return false;
        }
    }
    true
}

/// Whether a world has those packets, and so many in all.
fn has_sent(world: &World<TwoQ>, case: &Case) -> bool {
    for (numbers, bytes) in case.sent {
        if !are_packets(world, numbers, bytes) {
            return false;
        }
    }
    world.packet_count() == case.count && world.packet(case.count as u64).is_none()
}

/// Whether each schedule sends what it should.
fn are_sent(alloc: Global, cases: &[Case]) -> bool {
    for case in cases {
        let sent = match played(alloc, case) {
            Some(world) => has_sent(&world, case),
            None => false,
        };
        if !sent {
            return false;
        }
    }
    true
}

#[test]
fn bytes_of_packets(rt: HostRuntime) {
    assert!(rt; are_sent(rt.alloc(), &CASES));
}
