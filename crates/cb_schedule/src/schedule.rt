//! Drawn schedules: events at random, drawn in a world that plays them as they come.
ghost use Rattle.std.specs.Prelude.{◌≡◌, length, IfOk};
ghost use Rattle.cb_schedule.specs.Draws.{AreDrawn, AreNext, IsNext};

use crate::world::World;
use cb_commit::Store;
use cb_page::Limits;
use cb_transcript::{Drawing, Event};
use cb_twoq::TwoQ;
use std::alloc::{AllocError, Global};

/// Draws so many events by the words of a seed, in a world over a store of zeros with 2Q. The world
/// plays each event as it comes, so that an event which takes a packet takes one that was sent.
/// `AllocError` only if memory was refused.
pub fn draw(
    alloc: Global,
    limits: &Limits,
    seed: u64,
    count: usize,
) -> Result<Vec<Event>, AllocError>
    ensures { IfOk result (λ events. AreDrawn limits.now seed count events.items) }
{
    let store = Store::zeros(alloc, limits)?;
    let mut world: World<TwoQ> = World::new(alloc, limits, store)?;
    let mut drawing = Drawing::new(limits, seed);
    draw_all(alloc, &mut drawing, &mut world, count)
}

/// The next events, so many, which the world has played.
fn draw_all(
    alloc: Global,
    drawing: &mut Drawing,
    world: &mut World<TwoQ>,
    count: usize,
) -> Result<Vec<Event>, AllocError>
    ensures as_many { IfOk result (λ events. length events.items ≡ count) }
    ensures next { IfOk result (λ events. AreNext drawing.old world.old events.items) }
{
    let mut events = Vec::new(alloc);
    for _drawn in 0..count {
        let event = draw_next(alloc, drawing, world)?;
        events.push(event)?;
    }
    Ok(events)
}

/// The next event, which the world has played.
fn draw_next(
    alloc: Global,
    drawing: &mut Drawing,
    world: &mut World<TwoQ>,
) -> Result<Event, AllocError>
    ensures { IfOk result (λ event. IsNext drawing.old world.old event drawing.new world.new) }
{
    let sent = world.packet_count() as u64;
    let event = drawing.next_event(alloc, sent)?;
    world.step(event.copy(alloc)?)?;
    Ok(event)
}
