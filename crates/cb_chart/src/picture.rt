//! The picture of a run: a chart as an SVG that stands alone, with texts that can be selected, in
//! light and dark by the viewer's setting.
//!
//! [`chart_to`] plays a schedule's text under a configuration's text, as `play` does, and prints
//! the picture of it. Time goes downwards, one row an event. Each row has the event on its left, as
//! the schedule spells it, and what became of it on its right, as `play` prints it.

mod arrows;
mod bars;
mod chart;
mod columns;
mod frame;
mod layout;
mod marks;
mod rows;
mod style;

pub use chart::{PictureFault, chart_to};
