//! A schedule is played, and what there is to see is noted after each event.
ghost use Rattle.std.specs.Prelude.{◌≡◌, ◌≤◌, ◌<◌, ◌↔◌, ◌∷◌, ◌++◌, [], List, length};
ghost use Rattle.std.specs.Prelude.{IfOk, IfErr, OnOk};
ghost use Rattle.cb_chart.specs.Arrows.{is_again, is_taken};
ghost use Rattle.cb_chart.specs.Charts.{Shows};
ghost use Rattle.cb_transcript.specs.declared.event.Event.{Event as EventData};
ghost use Rattle.cb_page.specs.Bounds.{Bounds};
ghost use Rattle.cb_chart.specs.declared.chart.ChartFault.TheVariants as fault;

use crate::arrows::{Arrow, Sending, add_arrow, add_sendings};
use crate::bars::{Bar, go_on};
use crate::copies::copies_in;
use crate::marks::{Mark, at_work, ended};
use cb_commit::Store;
use cb_page::Limits;
use cb_schedule::World;
use cb_transcript::{Event, TranscriptEntry};
use cb_twoq::TwoQ;
use std::alloc::{AllocError, Global};

/// The most events of a chart.
pub const MOST_EVENTS: usize = 2_000;

/// Why there is no chart.
#[derive(Debug, Drop)]
pub enum ChartFault {
    /// There are more than 2,000 events.
    TooLong,
    Memory,
}

impl From<AllocError> for ChartFault {
    ghost from_gives = { λ _ e. e ≡ fault.Memory };

    fn from(_error: AllocError) -> ChartFault {
        ChartFault::Memory
    }
}

/// What there is to see of a run.
pub struct Chart {
    world: World<TwoQ>,
    sendings: Vec<Sending>,
    arrows: Vec<Arrow>,
    bars: Vec<Bar>,
    marks: Vec<Mark>,
}

// By hand: see docs/PROVING.md, "Drops".
impl Drop for Chart {
    fn drop(self) {
        let Chart {
            world: _,
            sendings: _,
            arrows: _,
            bars: _,
            marks: _,
        } = self;
    }
}

impl Chart {
    /// The chart of events that are played over a store of zeros. `Memory` only if memory was
    /// refused.
    pub fn new(alloc: Global, limits: &Limits, events: &[Event]) -> Result<Chart, ChartFault>
        ensures shows { IfOk result (Shows limits.now events.now) }
        ensures fits { IfOk result (λ _. length events.now ≤ 2000) }
        ensures long { IfErr result (λ e. e ≡ fault.TooLong ↔ (2000 < length events.now)) }
    {
        if events.len() > MOST_EVENTS {
            return Err(ChartFault::TooLong);
        }
        let mut chart = Chart::empty(alloc, limits)?;
        chart.follow(alloc, events)?;
        Ok(chart)
    }

    /// The chart of no event.
    fn empty(alloc: Global, limits: &Limits) -> Result<Chart, AllocError>
        ensures { IfOk result (Shows limits.now []) }
    {
        let store = Store::zeros(alloc, limits)?;
        Ok(Chart {
            world: World::new(alloc, limits, store)?,
            sendings: Vec::new(alloc),
            arrows: Vec::new(alloc),
            bars: Vec::new(alloc),
            marks: Vec::new(alloc),
        })
    }

    /// Plays events, and notes what there is to see after each.
    fn follow(&mut self, alloc: Global, events: &[Event]) -> Result<(), AllocError>
        requires { length events.now ≤ 2000 }
        ensures { OnOk result ((limits : Bounds) → Shows limits [] self.old
            → Shows limits events.now self.new) }
    {
        for (index, event) in events.iter().enumerate() {
            self.play_one(alloc, event, index as u16)?;
        }
        Ok(())
    }

    /// Plays the event of that number, and notes what there is to see after it.
    fn play_one(&mut self, alloc: Global, event: &Event, number: u16) -> Result<(), AllocError>
        ensures { OnOk result ((limits : Bounds) (before : List EventData) → length before ≡ number
            → Shows limits before self.old → Shows limits (before ++ event.now ∷ []) self.new) }
    {
        let at_work = at_work(&self.world);
        let answer = self.world.step(event.copy(alloc)?)?;
        add_sendings(&mut self.sendings, answer.sent.as_slice(), number)?;
        let sendings = self.sendings.as_slice();
        add_arrow(&mut self.arrows, sendings, event, &answer.word, number)?;
        self.marks.push(Mark {
            commits: self.world.transcript().commits().len(),
            ended: ended(&self.world, at_work),
        })?;
        let copies = copies_in(alloc, &self.world)?;
        self.bars = go_on(alloc, self.bars.as_slice(), copies.as_slice(), number)?;
        Ok(())
    }

    /// The limits under which it was played.
    pub fn limits(&self) -> &Limits
        ensures { result.now ≡ self.now.world.limits }
    {
        self.world.limits()
    }

    /// Each event with its answer, in order.
    pub fn entries(&self) -> &[TranscriptEntry]
        ensures { result.now ≡ self.now.world.transcript }
    {
        self.world.transcript().entries()
    }

    /// The packets that were sent, in order.
    pub fn sendings(&self) -> &[Sending]
        ensures { result.now ≡ self.now.sendings.items }
    {
        self.sendings.as_slice()
    }

    /// The packets that were taken, in the order in which they were.
    pub fn arrows(&self) -> &[Arrow]
        ensures { result.now ≡ self.now.arrows.items }
    {
        self.arrows.as_slice()
    }

    /// Whether an event took the packet of that number.
    pub fn is_taken(&self, number: u64) -> bool
        ensures { result ≡ is_taken self.now.arrows.items number }
    {
        self.arrows
            .iter()
            .any(|arrow| arrow.packet.number == number)
    }

    /// Whether an earlier event took the packet of that arrow, too.
    pub fn is_again(&self, arrow: &Arrow) -> bool
        ensures { result ≡ is_again self.now.arrows.items arrow.now }
    {
        self.arrows.iter().any(|other| {
            other.packet.number == arrow.packet.number && other.taken < arrow.taken
        })
    }

    /// The bars, in the order in which they begin.
    pub fn bars(&self) -> &[Bar]
        ensures { result.now ≡ self.now.bars.items }
    {
        self.bars.as_slice()
    }

    /// For each event, what it made of transactions.
    pub fn marks(&self) -> &[Mark]
        ensures { result.now ≡ self.now.marks.items }
    {
        self.marks.as_slice()
    }
}
