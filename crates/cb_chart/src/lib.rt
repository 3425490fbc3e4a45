//! The chart of a run: what is drawn of a schedule that is played over a store of zeros, as data
//! and as a picture.
//!
//! [`Chart::new`] plays a schedule event by event and notes what there is to see: each event with
//! its answer, the packets that it sent ([`Sending`]), which event took which packet ([`Arrow`]),
//! when each client had a copy of a page that it could read ([`Bar`]), and which transactions ended
//! ([`Mark`]). All of it is told by numbers of events, counted from 0.
//!
//! [`chart_to`] plays the text of a schedule, and prints the picture of its chart as an SVG that
//! stands alone (`picture`).
#![tactic(auto)]

mod arrows;
mod bars;
mod chart;
mod copies;
mod marks;
mod picture;

pub use arrows::{Arrow, Sending};
pub use bars::{Bar, ClientCopy};
pub use chart::{Chart, ChartFault, MOST_EVENTS};
pub use marks::{Mark, TransactionEnd};
pub use picture::{PictureFault, chart_to};
