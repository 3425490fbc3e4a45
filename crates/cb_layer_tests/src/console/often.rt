//! A client that restarts often, and one that commits often: a call that answers want of memory
//! from some number on is refused here, which no clause can say. `scripts/check limits` plays
//! 120,000 commits.

use cb_commit::Store;
use cb_page::{ClientNo, Limits};
use cb_schedule::World;
use cb_transcript::{Answer, Call, Event};
use cb_twoq::TwoQ;
use std::alloc::Global;

/// A world of zeros; `None` where there are no such limits, or memory is refused.
fn world_of(alloc: Global, limits: &Limits) -> Option<World<TwoQ>> {
    let store = Store::zeros(alloc, limits).ok()?;
    World::new(alloc, limits, store).ok()
}

/// The number of the first packet that was sent.
fn first_sent(answer: &Answer) -> Option<u64> {
    Some(answer.sent.as_slice().first()?.number)
}

/// A call of client 0.
fn call(call: Call) -> Event {
    Event::Call {
        client: ClientNo::new(0),
        call,
    }
}

/// The client greets, and takes the Welcome.
fn greet(world: &mut World<TwoQ>) -> Option<()> {
    let packet = first_sent(&world.step(call(Call::Hello)).ok()?)?;
    let packet = first_sent(&world.step(Event::Take { packet }).ok()?)?;
    world.step(Event::Take { packet }).ok()?;
    Some(())
}

/// A transaction of the client begins, commits and is done.
fn commit(world: &mut World<TwoQ>) -> Option<()> {
    world.step(call(Call::Begin)).ok()?;
    let packet = first_sent(&world.step(call(Call::Finish)).ok()?)?;
    world.step(Event::Take { packet }).ok()?;
    let packet = first_sent(&world.step(Event::Flush).ok()?)?;
    world.step(Event::Take { packet }).ok()?;
    Some(())
}

/// How many commits there are in a world of one client, which restarts so often and commits so many
/// times in each of its incarnations.
fn commits(alloc: Global, restarts: u32, each: u32) -> Option<usize> {
    let limits = Limits::new(1, 1, 16, 2, 1, 1).ok()?;
    let mut world = world_of(alloc, &limits)?;
    greet(&mut world)?;
    for _ in 0..restarts {
        for _ in 0..each {
            commit(&mut world)?;
        }
        let client = ClientNo::new(0);
        world.step(Event::Restart { client }).ok()?;
        greet(&mut world)?;
    }
    Some(world.transcript().commits().len())
}

#[test]
fn every_incarnation(rt: HostRuntime) {
    assert!(rt; commits(rt.alloc(), 100, 3) == Some(300));
}

#[test]
fn many_commits(rt: HostRuntime) {
    assert!(rt; commits(rt.alloc(), 1, 20_000) == Some(20_000));
}
