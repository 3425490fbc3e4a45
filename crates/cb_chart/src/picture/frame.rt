//! The head of a picture, the lanes and their names.

use crate::Chart;
use crate::picture::layout::{Layout, ROW, SERVER, TOP, small};
use crate::picture::style::{FAMILIES, LEGEND, STYLE};
use cb_page::ClientNo;
use std::io;
use std::io::Write;

/// Prints what stands before everything else: the size, the style, and the legend.
pub(crate) fn put_head<O: Write>(out: &mut O, chart: &Chart, layout: &Layout) -> io::Result<()> {
    let width = layout.width();
    let height = layout.height();
    write!(
        out,
        "<svg xmlns=\"http://www.w3.org/2000/svg\" width=\"{width}\" height=\"{height}\" \
        viewBox=\"0 0 {width} {height}\">\n"
    )?;
    out.write_all(STYLE.as_bytes())?;
    put_points(out)?;
    put_title(out, chart)?;
    out.write_all(LEGEND.as_bytes())
}

/// Prints the heads of arrows.
fn put_points<O: Write>(out: &mut O) -> io::Result<()> {
    out.write_all(b"<defs>\n")?;
    for family in FAMILIES {
        write!(
            out,
            "<marker id=\"{family}\" viewBox=\"0 0 8 8\" refX=\"8\" refY=\"4\" \
            markerWidth=\"8\" markerHeight=\"8\"\n  \
            markerUnits=\"userSpaceOnUse\" orient=\"auto\">\
            <path class=\"point {family}\" d=\"M0 0.5L8 4L0 7.5z\"/></marker>\n"
        )?;
    }
    out.write_all(b"</defs>\n")
}

fn put_title<O: Write>(out: &mut O, chart: &Chart) -> io::Result<()> {
    let events = chart.entries().len();
    let clients = chart.limits().clients();
    let pages = chart.limits().pages();
    write!(
        out,
        "<rect class=\"paper\" width=\"100%\" height=\"100%\"/>\n\
        <text class=\"title\" x=\"14\" y=\"24\">events {events}, clients {clients}, \
        pages {pages}</text>\n"
    )
}

/// Prints a thin line below each fifth event.
pub(crate) fn put_rules<O: Write>(out: &mut O, chart: &Chart, layout: &Layout) -> io::Result<()> {
    let right = layout.width() - 10;
    for (index, _) in chart.entries().iter().enumerate() {
        if index % 5 == 4 {
            let y = layout.row(small(index)) + ROW / 2;
            write!(out, "<path class=\"rule\" d=\"M14 {y}H{right}\"/>\n")?;
        }
    }
    Ok(())
}

/// Prints the lane of the server, and that of each client.
pub(crate) fn put_lanes<O: Write>(out: &mut O, chart: &Chart, layout: &Layout) -> io::Result<()> {
    put_lane(out, layout, SERVER)?;
    for number in 0..chart.limits().clients() {
        put_lane(out, layout, layout.client(ClientNo::new(number)))?;
    }
    Ok(())
}

fn put_lane<O: Write>(out: &mut O, layout: &Layout, x: u32) -> io::Result<()> {
    let top = TOP - 4;
    let bottom = layout.bottom() + 8;
    write!(out, "<path class=\"lane\" d=\"M{x} {top}V{bottom}\"/>\n")
}

/// Prints the names of the lanes: above, below, and smaller after each 40 events.
pub(crate) fn put_names<O: Write>(out: &mut O, chart: &Chart, layout: &Layout) -> io::Result<()> {
    put_names_at(out, chart, layout, "head", TOP - 10)?;
    for (index, _) in chart.entries().iter().enumerate() {
        if index % 40 == 39 {
            put_names_at(out, chart, layout, "name", layout.row(small(index)) + 12)?;
        }
    }
    put_names_at(out, chart, layout, "head", layout.bottom() + 24)
}

fn put_names_at<O: Write>(
    out: &mut O,
    chart: &Chart,
    layout: &Layout,
    class: &str,
    y: u32,
) -> io::Result<()> {
    write!(
        out,
        "<text class=\"{class}\" x=\"{SERVER}\" y=\"{y}\">server</text>\n"
    )?;
    for number in 0..chart.limits().clients() {
        let x = layout.client(ClientNo::new(number));
        write!(
            out,
            "<text class=\"{class}\" x=\"{x}\" y=\"{y}\">client {number}</text>\n"
        )?;
    }
    Ok(())
}
