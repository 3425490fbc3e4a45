//! 2Q and the pool, and two more choosers for their tests.

mod fifo;
#[cfg(test)]
mod recorder;

pub use fifo::Fifo;
#[cfg(test)]
pub(crate) use recorder::{Called, Recorder};

#[cfg(test)]
mod calls;
#[cfg(test)]
mod twoq;
