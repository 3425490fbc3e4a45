//! What happens next where the server restarts too.
ghost use Rattle.std.specs.Prelude.{◌≡◌, IfOk, OnErr};
ghost use Rattle.cb_transcript.specs.LivesEvents.{CarriesBytes};

use crate::event::Event;
use cb_page::Incarnation;
use std::alloc::{AllocError, Global};

/// What happens next in a world over all lives of its server: one line of a schedule of lives.
#[derive(Debug, Drop)]
pub enum LivesEvent {
    /// An event of the present life.
    Within(Event),
    /// The server restarts. In its new life it heeds no incarnation below the floor. The disk has
    /// the commits up to this number.
    ServerRestarts { floor: Incarnation, number: u64 },
}

impl LivesEvent {
    /// A copy of the event. It fails only if there is no memory for the bytes of a write.
    pub fn copy(&self, alloc: Global) -> Result<LivesEvent, AllocError>
        ensures same { IfOk result (λ event. event ≡ self.now) }
        ensures fails { OnErr result (CarriesBytes self.now) }
    {
        Ok(match self {
            LivesEvent::Within(event) => LivesEvent::Within(event.copy(alloc)?),
            LivesEvent::ServerRestarts { floor, number } => LivesEvent::ServerRestarts {
                floor: *floor,
                number: *number,
            },
        })
    }
}
