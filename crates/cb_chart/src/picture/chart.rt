//! Reads the texts of a configuration and of a schedule, and prints the picture of the run.
ghost use Rattle.std.specs.Prelude.{◌≡◌, codes, IfOk, IfErr, OnOk};
ghost use Rattle.std.specs.Io.KnownBytes.{Appends};
ghost use Rattle.cb_chart.specs.Pictures.{BecomesOfChartFault, BecomesOfConfigFault};
ghost use Rattle.cb_chart.specs.Pictures.{BecomesOfScheduleFault, EndsChart, HaveNoChart};
ghost use Rattle.cb_chart.specs.Pictures.{IsChartOf, IsRun, Prints};

use crate::picture::arrows::{put_arrows, put_kinds, put_stubs};
use crate::picture::bars::{put_bars, put_pages};
use crate::picture::frame::{put_head, put_lanes, put_names, put_rules};
use crate::picture::layout::Layout;
use crate::picture::marks::put_marks;
use crate::picture::rows::put_rows;
use crate::{Chart, ChartFault};
use cb_console::{ConfigFault, DONE, NO_MEMORY, ReadFault, WRONG_INPUT, print_fault, read_config};
use cb_transcript::{ScheduleFault, read_schedule};
use std::alloc::Global;
use std::io;
use std::io::Write;

/// Why there is no picture.
#[derive(Debug, Drop)]
pub enum PictureFault {
    /// The configuration or the schedule is refused, or memory is.
    Read(ReadFault),
    /// There are more events than a picture shows.
    TooLong,
}

impl From<ConfigFault> for PictureFault {
    ghost from_gives = { BecomesOfConfigFault };

    fn from(fault: ConfigFault) -> PictureFault {
        PictureFault::Read(ReadFault::from(fault))
    }
}

impl From<ScheduleFault> for PictureFault {
    ghost from_gives = { BecomesOfScheduleFault };

    fn from(fault: ScheduleFault) -> PictureFault {
        PictureFault::Read(ReadFault::from(fault))
    }
}

impl From<ChartFault> for PictureFault {
    ghost from_gives = { BecomesOfChartFault };

    fn from(fault: ChartFault) -> PictureFault {
        match fault {
            ChartFault::TooLong => PictureFault::TooLong,
            ChartFault::Memory => PictureFault::Read(ReadFault::Memory),
        }
    }
}

/// Plays a schedule's text under a configuration's text over a store of zeros, as `play` does, and
/// prints the picture of the run.
///
/// Returns the program's status. The configuration is checked first, then the schedule. A fault is
/// printed to `err`, and then nothing to `out`. It fails only if a writer does.
pub fn chart_to<O: Write, E: Write>(
    alloc: Global,
    config: &[u8],
    schedule: &[u8],
    out: &mut O,
    err: &mut E,
) -> io::Result<u8>
    ensures { IfOk result (λ status. IsRun config.now schedule.now status
        (O.contents out.old) (O.contents out.new) (E.contents err.old) (E.contents err.new)) }
{
    let outcome = read_chart(alloc, config, schedule);
    print_outcome(alloc, &outcome, out, err)
}

/// Reads the configuration, then the schedule, and makes the chart of it.
fn read_chart(alloc: Global, config: &[u8], schedule: &[u8]) -> Result<Chart, PictureFault>
    ensures ok { IfOk result (IsChartOf config.now schedule.now) }
    ensures fault { IfErr result (HaveNoChart config.now schedule.now) }
{
    let config = read_config(alloc, config)?;
    let events = read_schedule(alloc, &config.limits, schedule)?;
    Ok(Chart::new(alloc, &config.limits, events.as_slice())?)
}

/// Prints the picture of a chart, or says on `err` why there is none.
fn print_outcome<O: Write, E: Write>(
    alloc: Global,
    outcome: &Result<Chart, PictureFault>,
    out: &mut O,
    err: &mut E,
) -> io::Result<u8>
    ensures { IfOk result (λ status. Prints outcome.now status
        (O.contents out.old) (O.contents out.new) (E.contents err.old) (E.contents err.new)) }
{
    match outcome {
        Ok(chart) => put_chart(alloc, chart, out, err),
        Err(PictureFault::Read(fault)) => print_fault(fault, err),
        Err(PictureFault::TooLong) => say_too_long(err),
    }
}

/// Says that there are more events than a picture shows.
fn say_too_long<E: Write>(err: &mut E) -> io::Result<u8>
    ensures status { IfOk result (λ status. status ≡ 2) }
    ensures said { OnOk result (Appends (E.contents err.old) (E.contents err.new)
        (codes "schedule: a chart has at most 2000 events\n")) }
{
    err.write_all(b"schedule: a chart has at most 2000 events\n")?;
    Ok(WRONG_INPUT)
}

/// Prints the picture of a chart, if there is memory for its layout.
fn put_chart<O: Write, E: Write>(
    alloc: Global,
    chart: &Chart,
    out: &mut O,
    err: &mut E,
) -> io::Result<u8>
    ensures { IfOk result (λ status. EndsChart status
        (O.contents out.old) (O.contents out.new) (E.contents err.old) (E.contents err.new)) }
{
    match Layout::new(alloc, chart) {
        Ok(layout) => {
            put_picture(out, chart, &layout)?;
            Ok(DONE)
        }
        Err(_) => {
            writeln!(err, "memory")?;
            Ok(NO_MEMORY)
        }
    }
}

/// Prints a picture, what lies below first.
fn put_picture<O: Write>(out: &mut O, chart: &Chart, layout: &Layout) -> io::Result<()> {
    put_head(out, chart, layout)?;
    put_rules(out, chart, layout)?;
    put_lanes(out, chart, layout)?;
    put_bars(out, layout)?;
    put_pages(out, layout)?;
    put_arrows(out, chart, layout)?;
    put_stubs(out, chart, layout)?;
    put_names(out, chart, layout)?;
    put_kinds(out, chart, layout)?;
    put_marks(out, chart, layout)?;
    put_rows(out, chart, layout)?;
    out.write_all(b"</svg>\n")
}
