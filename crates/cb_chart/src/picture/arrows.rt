//! The arrows, and the stubs of packets that no event took.
ghost use Rattle.std.specs.Prelude.{◌≡◌, ◌≤◌, ◌^◌, OnOk};
ghost use Rattle.std.specs.List.{flat_map};
ghost use Rattle.std.specs.Io.KnownBytes.{Appends};
ghost use Rattle.cb_chart.specs.Signs.{again_text, arrow_text, class_text, cross_class_text};
ghost use Rattle.cb_chart.specs.Signs.{cross_text, lost_text, point_text, stub_class_text};
ghost use Rattle.cb_chart.specs.Signs.{stub_end, stub_text, stub_way_text, way_text};

use crate::picture::layout::{Layout, family};
use crate::{Arrow, Chart, Sending};
use cb_frame::Kind;
use std::io;
use std::io::Write;

/// Prints each arrow.
pub(crate) fn put_arrows<O: Write>(out: &mut O, chart: &Chart, layout: &Layout) -> io::Result<()>
    ensures { OnOk result (Appends (O.contents out.old) (O.contents out.new)
        (flat_map (arrow_text layout.now chart.now.arrows.items) chart.now.arrows.items)) }
{
    for arrow in chart.arrows() {
        put_arrow(out, chart, layout, arrow)?;
    }
    Ok(())
}

fn put_arrow<O: Write>(out: &mut O, chart: &Chart, layout: &Layout, arrow: &Arrow) -> io::Result<()>
    ensures { OnOk result (Appends (O.contents out.old) (O.contents out.new)
        (arrow_text layout.now chart.now.arrows.items arrow.now)) }
{
    put_class(out, arrow.packet.kind, chart.is_again(arrow))?;
    put_way(out, layout, arrow)?;
    put_point(out, arrow.packet.kind)?;
    Ok(())
}

/// How an arrow begins, with its colour.
fn put_class<O: Write>(out: &mut O, kind: Kind, again: bool) -> io::Result<()>
    ensures { OnOk result (Appends (O.contents out.old) (O.contents out.new)
        (class_text kind again)) }
{
    let class = family(kind);
    let again = again_text(again);
    write!(out, "<path class=\"arrow {class}{again}\"")
}

/// Where an arrow goes.
fn put_way<O: Write>(out: &mut O, layout: &Layout, arrow: &Arrow) -> io::Result<()>
    ensures { OnOk result (Appends (O.contents out.old) (O.contents out.new)
        (way_text layout.now arrow.now)) }
{
    let from = layout.source(&arrow.packet);
    let top = layout.row(arrow.sent);
    let to = layout.target(&arrow.packet);
    let bottom = layout.row(arrow.taken);
    write!(out, " d=\"M{from} {top}L{to} {bottom}\"")
}

/// The head of an arrow.
fn put_point<O: Write>(out: &mut O, kind: Kind) -> io::Result<()>
    ensures { OnOk result (Appends (O.contents out.old) (O.contents out.new) (point_text kind)) }
{
    let class = family(kind);
    write!(out, " marker-end=\"url(#{class})\"/>\n")
}

/// How an arrow is classed where an earlier event took its packet, too.
fn again_text(again: bool) -> &'static str
    ensures { result.now ≡ again_text again }
{
    if again { " again" } else { "" }
}

/// Prints the kind of packet at the head of each arrow.
pub(crate) fn put_kinds<O: Write>(out: &mut O, chart: &Chart, layout: &Layout) -> io::Result<()> {
    for arrow in chart.arrows() {
        put_kind(out, layout, arrow)?;
    }
    Ok(())
}

/// The kind of packet, where it was taken.
fn put_kind<O: Write>(out: &mut O, layout: &Layout, arrow: &Arrow) -> io::Result<()> {
    let kind = arrow.packet.kind;
    let class = family(kind);
    let y = layout.row(arrow.taken) - 3;
    let lane = layout.target(&arrow.packet);
    let (x, side) = if kind.goes_to_server() {
        (lane + 10, "")
    } else {
        (lane - 10, " left")
    };
    write!(
        out,
        "<text class=\"kind {class}{side}\" x=\"{x}\" y=\"{y}\">{kind}</text>\n"
    )
}

/// Prints a stub with a cross for each packet that no event took.
pub(crate) fn put_stubs<O: Write>(out: &mut O, chart: &Chart, layout: &Layout) -> io::Result<()>
    ensures { OnOk result (Appends (O.contents out.old) (O.contents out.new)
        (flat_map (lost_text layout.now chart.now.arrows.items) chart.now.sendings.items)) }
{
    for sending in chart.sendings() {
        put_lost(out, chart, layout, sending)?;
    }
    Ok(())
}

/// Prints the stub of a packet, if no event took it.
fn put_lost<O: Write>(
    out: &mut O,
    chart: &Chart,
    layout: &Layout,
    sending: &Sending,
) -> io::Result<()>
    ensures { OnOk result (Appends (O.contents out.old) (O.contents out.new)
        (lost_text layout.now chart.now.arrows.items sending.now)) }
{
    if chart.is_taken(sending.packet.number) {
        return Ok(());
    }
    put_stub(out, layout, sending)
}

fn put_stub<O: Write>(out: &mut O, layout: &Layout, sending: &Sending) -> io::Result<()>
    ensures { OnOk result (Appends (O.contents out.old) (O.contents out.new)
        (stub_text layout.now sending.now)) }
{
    put_stub_class(out, sending.packet.kind)?;
    put_stub_way(out, layout, sending)?;
    put_cross_class(out, sending.packet.kind)?;
    let x = stub_end(layout, sending);
    let row = layout.row(sending.event);
    put_cross(out, x, row + 7)?;
    Ok(())
}

/// How a stub begins, with its colour.
fn put_stub_class<O: Write>(out: &mut O, kind: Kind) -> io::Result<()>
    ensures { OnOk result (Appends (O.contents out.old) (O.contents out.new)
        (stub_class_text kind)) }
{
    let class = family(kind);
    write!(out, "<path class=\"arrow stub {class}\"")
}

/// Where a stub goes.
fn put_stub_way<O: Write>(out: &mut O, layout: &Layout, sending: &Sending) -> io::Result<()>
    ensures { OnOk result (Appends (O.contents out.old) (O.contents out.new)
        (stub_way_text layout.now sending.now)) }
{
    let from = layout.source(&sending.packet);
    let top = layout.row(sending.event);
    let to = stub_end(layout, sending);
    let end = top + 7;
    write!(out, " d=\"M{from} {top}L{to} {end}\"/>")
}

/// Where a stub ends, beside the lane that its packet comes from.
fn stub_end(layout: &Layout, sending: &Sending) -> u32
    ensures value { result ≡ stub_end layout.now sending.now }
    ensures least { 218 ≤ result }
    ensures most { result ≤ 2 ^ 27 }
{
    let from = layout.source(&sending.packet);
    if sending.packet.kind.goes_to_server() {
        from - 26
    } else {
        from + 26
    }
}

/// How a cross begins, with its colour.
fn put_cross_class<O: Write>(out: &mut O, kind: Kind) -> io::Result<()>
    ensures { OnOk result (Appends (O.contents out.old) (O.contents out.new)
        (cross_class_text kind)) }
{
    let class = family(kind);
    write!(out, "<path class=\"cross {class}\"")
}

/// A cross at that place.
fn put_cross<O: Write>(out: &mut O, x: u32, y: u32) -> io::Result<()>
    requires least { 3 ≤ x }
    requires below { 3 ≤ y }
    requires most { x ≤ 2 ^ 27 }
    requires lowest { y ≤ 2 ^ 27 }
    ensures { OnOk result (Appends (O.contents out.old) (O.contents out.new) (cross_text x y)) }
{
    let left = x - 3;
    let right = x + 3;
    let above = y - 3;
    let below = y + 3;
    write!(
        out,
        " d=\"M{left} {above}L{right} {below}M{right} {above}L{left} {below}\"/>\n"
    )
}
