//! The bars.
ghost use Rattle.std.specs.Prelude.{◌≡◌, ◌+◌, ◌-◌, ◌*◌, OnOk};
ghost use Rattle.std.specs.List.{flat_map};
ghost use Rattle.std.specs.Io.KnownBytes.{Appends};
ghost use Rattle.cb_chart.specs.Signs.{bar_text, shade_of};

use crate::picture::columns::PlacedBar;
use crate::picture::layout::{Layout, ROW};
use std::io;
use std::io::Write;

/// After that many events a page's number stands in its bar again.
const AGAIN: u16 = 20;

/// Prints each bar.
pub(crate) fn put_bars<O: Write>(out: &mut O, layout: &Layout) -> io::Result<()>
    ensures { OnOk result (Appends (O.contents out.old) (O.contents out.new)
        (flat_map (bar_text layout.now) layout.now.bars.items)) }
{
    for placed in layout.bars() {
        put_bar(out, layout, placed)?;
    }
    Ok(())
}

fn put_bar<O: Write>(out: &mut O, layout: &Layout, placed: &PlacedBar) -> io::Result<()>
    ensures { OnOk result (Appends (O.contents out.old) (O.contents out.new)
        (bar_text layout.now placed.now)) }
{
    let class = shade_of(placed.bar.copy.may_write);
    let x = layout.bar(placed.bar.copy.client, placed.column);
    let y = layout.row(placed.bar.first);
    let height = height_of(placed.bar.first, placed.bar.last);
    write!(
        out,
        "<rect class=\"{class}\" x=\"{x}\" y=\"{y}\" width=\"12\" height=\"{height}\"/>\n"
    )
}

/// The class of a bar: a copy that its client may write is darker.
fn shade_of(may_write: bool) -> &'static str
    ensures { result.now ≡ shade_of may_write }
{
    if may_write { "writes" } else { "reads" }
}

/// How high a bar of these events is.
fn height_of(first: u16, last: u16) -> u32
    ensures { result ≡ 18 * (last + 1 - first) }
{
    let rows = (u32::from(last) + 1).saturating_sub(u32::from(first));
    rows * ROW
}

/// Prints the numbers of pages in all bars.
pub(crate) fn put_pages<O: Write>(out: &mut O, layout: &Layout) -> io::Result<()> {
    for placed in layout.bars() {
        put_numbers(out, layout, placed)?;
    }
    Ok(())
}

/// The number of the page, at the head of its bar and again further down.
fn put_numbers<O: Write>(out: &mut O, layout: &Layout, placed: &PlacedBar) -> io::Result<()> {
    let bar = placed.bar;
    put_number(out, layout, placed, bar.first)?;
    for event in bar.first..bar.last {
        if event > bar.first && (event - bar.first) % AGAIN == 0 {
            put_number(out, layout, placed, event)?;
        }
    }
    Ok(())
}

/// The number of the bar's page, below the middle of that event's row.
fn put_number<O: Write>(
    out: &mut O,
    layout: &Layout,
    placed: &PlacedBar,
    event: u16,
) -> io::Result<()> {
    let copy = placed.bar.copy;
    let x = layout.bar(copy.client, placed.column) + 6;
    let y = layout.row(event) + 12;
    let class = if copy.may_write { "on" } else { "off" };
    let page = copy.page.get();
    let squeezed = if page < 100 {
        ""
    } else {
        " textLength=\"11\" lengthAdjust=\"spacingAndGlyphs\""
    };
    write!(
        out,
        "<text class=\"page {class}\" x=\"{x}\" y=\"{y}\"{squeezed}>{page}</text>\n"
    )
}
