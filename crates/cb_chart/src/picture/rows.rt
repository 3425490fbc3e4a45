//! What stands beside the lanes: each event, and what became of it.

use crate::Chart;
use crate::picture::layout::{Layout, family, small};
use cb_console::{put_event, put_word};
use cb_transcript::{SentPacket, TranscriptEntry};
use std::io;
use std::io::Write;

/// Prints the texts of all rows.
pub(crate) fn put_rows<O: Write>(out: &mut O, chart: &Chart, layout: &Layout) -> io::Result<()> {
    for (index, entry) in chart.entries().iter().enumerate() {
        put_row(out, chart, layout, entry, small(index))?;
    }
    Ok(())
}

fn put_row<O: Write>(
    out: &mut O,
    chart: &Chart,
    layout: &Layout,
    entry: &TranscriptEntry,
    event: u16,
) -> io::Result<()> {
    let place = u32::from(event) + 1;
    let y = layout.row(event) + 4;
    let x = layout.answers();
    write!(
        out,
        "<text class=\"no\" x=\"38\" y=\"{y}\">{place}</text><text x=\"46\" y=\"{y}\">"
    )?;
    put_event(out, &entry.event)?;
    write!(out, "</text><text x=\"{x}\" y=\"{y}\">")?;
    put_word(out, &entry.answer.word)?;
    for packet in entry.answer.sent.as_slice() {
        put_packet(out, chart, packet)?;
    }
    out.write_all(b"</text>\n")
}

/// A packet that an event sent, as `play` prints it; struck through where none took it.
fn put_packet<O: Write>(out: &mut O, chart: &Chart, packet: &SentPacket) -> io::Result<()> {
    let number = packet.number;
    let kind = packet.kind;
    let client = packet.client.get();
    let class = family(kind);
    let lost = if chart.is_taken(number) { "" } else { " lost" };
    write!(
        out,
        " <tspan class=\"packet {class}{lost}\">{number}:{kind}:{client}</tspan>"
    )
}
