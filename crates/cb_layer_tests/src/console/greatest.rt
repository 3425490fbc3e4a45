//! Worlds of 32 clients and 4,096 pages: a step that answers want of memory from some number of
//! clients or of pages on is refused here, which no clause can say. Of a play the stored run of
//! `cb_play` shows it (`every_client_reads_a_page`).

use cb_commit::Store;
use cb_page::{ClientNo, Limits, PageNo};
use cb_schedule::World;
use cb_transcript::{Call, Event};
use cb_twoq::TwoQ;
use std::alloc::Global;
use std::test::Fail;

/// So many packets are sent for each client.
const PACKETS: u64 = 6;

/// The client is called.
fn add_call(events: &mut Vec<Event>, client: ClientNo, call: Call) -> Option<()> {
    events.push(Event::Call { client, call }).ok()
}

/// The packets from one on, as far as another one, are taken.
fn add_takes(events: &mut Vec<Event>, first: u64, end: u64) -> Option<()> {
    for packet in first..end {
        events.push(Event::Take { packet }).ok()?;
    }
    Some(())
}

/// What a client does behind those before it: it greets, reads a page that no other one reads, and
/// commits. Whatever is sent is taken at once.
fn add_client(events: &mut Vec<Event>, limits: &Limits, number: u16) -> Option<()> {
    let client = ClientNo::in_store(limits, number.into())?;
    let page = PageNo::in_store(limits, 4095u64.wrapping_sub(number.into()))?;
    let first = u64::from(number) * PACKETS;
    add_call(events, client, Call::Hello)?;
    add_takes(events, first, first + 2)?;
    add_call(events, client, Call::Begin)?;
    add_call(events, client, Call::Read { page })?;
    add_takes(events, first + 2, first + 4)?;
    add_call(events, client, Call::Read { page })?;
    add_call(events, client, Call::Finish)?;
    add_takes(events, first + 4, first + 5)?;
    events.push(Event::Flush).ok()?;
    add_takes(events, first + 5, first + PACKETS)
}

/// What all clients do.
fn events_of_all(alloc: Global, limits: &Limits) -> Option<Vec<Event>> {
    let mut events = Vec::new(alloc);
    for number in 0..limits.clients() {
        add_client(&mut events, limits, number)?;
    }
    Some(events)
}

/// A world of zeros.
fn world_of(alloc: Global, limits: &Limits) -> Option<World<TwoQ>> {
    let store = Store::zeros(alloc, limits).ok()?;
    World::new(alloc, limits, store).ok()
}

/// Whether each event is played, one after another.
fn are_played(alloc: Global, world: &mut World<TwoQ>, events: &[Event]) -> bool {
    for event in events {
        let Ok(event) = event.copy(alloc) else {
            return false;
        };
        if world.step(event).is_err() {
            return false;
        }
    }
    true
}

/// How many commits there are once all clients have done that, event by event.
fn commits_by_step(alloc: Global, limits: &Limits) -> Option<usize> {
    let events = events_of_all(alloc, limits)?;
    let mut world = world_of(alloc, limits)?;
    let played = are_played(alloc, &mut world, events.as_slice());
    let commits = world.transcript().commits().len();
    if played { Some(commits) } else { None }
}

#[test]
fn all_clients_by_step(rt: HostRuntime) -> Result<(), Fail> {
    let limits = Limits::new(32, 4096, 16, 8, 1, 8)?;
    assert!(rt; commits_by_step(rt.alloc(), &limits) == Some(32));
    Ok(())
}
