//! A station.

mod batches;
pub(crate) mod case;
mod frames;
pub(crate) mod limits;
mod stations;
mod turns;
