//! Where everything is, in pixels.
ghost use Rattle.std.specs.Prelude.{◌≡◌, ◌≤◌, ◌<◌, ◌*◌, ◌^◌, map, IfOk};
ghost use Rattle.cb_chart.specs.Layouts.{bar_line, client_line, columns_in, lane_width, row_line};
ghost use Rattle.cb_chart.specs.Layouts.{source_line, target_line};
ghost use Rattle.cb_chart.specs.Signs.{family_of};

use crate::Chart;
use crate::picture::columns::{PlacedBar, place_bars};
use cb_frame::Kind;
use cb_page::ClientNo;
use cb_transcript::SentPacket;
use std::alloc::{AllocError, Global};

/// The height of a row.
pub(crate) const ROW: u32 = 18;
/// Where the first row begins.
pub(crate) const TOP: u32 = 104;
/// The lane of the server.
pub(crate) const SERVER: u32 = 244;
/// The width of a bar, with the gap behind it.
const COLUMN: u32 = 14;
/// The lane of client 0.
const FIRST_CLIENT: u32 = 340;
/// The room on the right for an answer, and for each packet that it names.
const ANSWER: u32 = 110;

const PACKET: u32 = 92;
/// What the legend takes.
const LEGEND: u32 = 900;

/// The room for bars in a client's lane, by how many may stand side by side.
#[derive(Clone, Copy)]
pub(crate) enum Room {
    Two,
    Four,
    Eight,
    Sixteen,
    ThirtyTwo,
    SixtyFour,
}

impl Room {
    /// The room that this many columns take.
    fn of(columns: u16) -> Room {
        match columns {
            0..=2 => Room::Two,
            3..=4 => Room::Four,
            5..=8 => Room::Eight,
            9..=16 => Room::Sixteen,
            17..=32 => Room::ThirtyTwo,
            _ => Room::SixtyFour,
        }
    }

    /// How many columns fit.
    fn columns(self) -> u16
        ensures value { result ≡ columns_in self }
        ensures least { 0 < result }
        ensures most { result ≤ 64 }
    {
        match self {
            Room::Two => 2,
            Room::Four => 4,
            Room::Eight => 8,
            Room::Sixteen => 16,
            Room::ThirtyTwo => 32,
            Room::SixtyFour => 64,
        }
    }

    /// How wide it is.
    fn width(self) -> u32
        ensures { result ≤ 896 }
    {
        u32::from(self.columns()) * COLUMN
    }

    /// How wide this many lanes are, with the room for labels in each.
    fn lanes(self, count: u16) -> u32
        ensures value { result ≡ lane_width self * count }
        ensures most { result ≤ 988 * count }
    {
        let count = u32::from(count);
        match self {
            Room::Two => count * 120,
            Room::Four => count * 148,
            Room::Eight => count * 204,
            Room::Sixteen => count * 316,
            Room::ThirtyTwo => count * 540,
            Room::SixtyFour => count * 988,
        }
    }
}

/// The layout of one chart.
pub(crate) struct Layout {
    clients: u16,
    events: u16,
    room: Room,
    /// How many packets one event sent at most.
    most_sent: u16,
    /// Each bar, with its column in its client's lane.
    bars: Vec<PlacedBar>,
}

impl Drop for Layout {
    fn drop(self) {
        let Layout {
            clients: _,
            events: _,
            room: _,
            most_sent: _,
            bars: _,
        } = self;
    }
}

impl Layout {
    /// The layout of a chart. `AllocError` only if memory was refused.
    pub(crate) fn new(alloc: Global, chart: &Chart) -> Result<Layout, AllocError>
        ensures { IfOk result
            (λ layout. map (λ placed. placed.bar) layout.bars.items ≡ chart.now.bars.items) }
    {
        let bars = place_bars(alloc, chart.bars())?;
        let room = Room::of(most_of(bars.as_slice()));
        Ok(Layout {
            clients: chart.limits().clients(),
            events: small(chart.entries().len()),
            room,
            most_sent: most_sent(chart),
            bars,
        })
    }

    /// The line of a client's lane.
    pub(crate) fn client(&self, client: ClientNo) -> u32
        ensures value { result ≡ client_line self.now client }
        ensures least { 340 ≤ result }
        ensures most { result ≤ 2 ^ 26 }
    {
        FIRST_CLIENT + self.room.lanes(client.get())
    }

    /// The line of the lane that a packet comes from.
    pub(crate) fn source(&self, packet: &SentPacket) -> u32
        ensures value { result ≡ source_line self.now packet.now }
        ensures least { 244 ≤ result }
        ensures most { result ≤ 2 ^ 26 }
    {
        if packet.kind.goes_to_server() {
            self.client(packet.client)
        } else {
            SERVER
        }
    }

    /// The line of the lane that a packet goes to.
    pub(crate) fn target(&self, packet: &SentPacket) -> u32
        ensures value { result ≡ target_line self.now packet.now }
        ensures least { 244 ≤ result }
        ensures most { result ≤ 2 ^ 26 }
    {
        if packet.kind.goes_to_server() {
            SERVER
        } else {
            self.client(packet.client)
        }
    }

    /// The middle of an event's row.
    pub(crate) fn row(&self, event: u16) -> u32
        ensures value { result ≡ row_line event }
        ensures least { 104 ≤ result }
        ensures most { result ≤ 2 ^ 26 }
    {
        TOP + u32::from(event) * ROW + 9
    }

    /// Where the last row ends.
    pub(crate) fn bottom(&self) -> u32
        ensures { result ≤ 2 ^ 26 }
    {
        TOP + u32::from(self.events) * ROW
    }

    /// Where a bar begins that stands in that column of the client's lane. More columns than fit
    /// stand one on another.
    pub(crate) fn bar(&self, client: ClientNo, column: u16) -> u32
        ensures value { result ≡ bar_line self.now client column }
        ensures most { result ≤ 2 ^ 27 }
    {
        let place = column % self.room.columns();
        self.client(client) + 5 + u32::from(place) * COLUMN
    }

    /// Where the labels of a client's lane begin.
    pub(crate) fn label(&self, client: ClientNo) -> u32
        ensures { result ≤ 2 ^ 27 }
    {
        self.client(client) + self.room.width() + 9
    }

    /// Each bar with its column, in the order in which they begin.
    pub(crate) fn bars(&self) -> &[PlacedBar]
        ensures { result.now ≡ self.now.bars.items }
    {
        self.bars.as_slice()
    }

    /// Where answers begin.
    pub(crate) fn answers(&self) -> u32
        ensures { result ≤ 2 ^ 27 }
    {
        FIRST_CLIENT + self.room.lanes(self.clients) + 10
    }

    /// The room that the packets of one event take at most.
    fn packets(&self) -> u32
        ensures { result ≤ 2 ^ 23 }
    {
        u32::from(self.most_sent) * PACKET
    }

    /// How wide the picture is.
    pub(crate) fn width(&self) -> u32
        ensures least { 900 ≤ result }
        ensures most { result ≤ 2 ^ 28 }
    {
        let width = self.answers() + ANSWER + self.packets();
        if width < LEGEND { LEGEND } else { width }
    }

    /// How high it is.
    pub(crate) fn height(&self) -> u32 {
        self.bottom() + 34
    }
}

/// The number of an event, or of packets: there are fewer than 65,536.
pub(crate) fn small(number: usize) -> u16 {
    match u16::try_from(number) {
        Ok(number) => number,
        Err(_) => u16::MAX,
    }
}

/// How many columns there are, by their numbers.
fn most_of(bars: &[PlacedBar]) -> u16 {
    let mut most: u16 = 0;
    for placed in bars {
        if most <= placed.column {
            most = placed.column.saturating_add(1);
        }
    }
    most
}

/// How many packets one event sent at most.
fn most_sent(chart: &Chart) -> u16 {
    let mut most: u16 = 0;
    for entry in chart.entries() {
        let sent = small(entry.answer.sent.as_slice().len());
        if most < sent {
            most = sent;
        }
    }
    most
}

/// The class of a packet of that kind: its colour.
pub(crate) fn family(kind: Kind) -> &'static str
    ensures { result.now ≡ family_of kind }
{
    match kind {
        Kind::Hello | Kind::Welcome => "hello",
        Kind::AskRead | Kind::AskWrite => "ask",
        Kind::Granted | Kind::MayWrite => "grant",
        Kind::Callback | Kind::Downgrade => "call",
        Kind::GiveBack | Kind::InUse | Kind::Downgraded => "back",
        Kind::Commit | Kind::Done => "commit",
        Kind::Drop | Kind::AbortNow => "abort",
    }
}
