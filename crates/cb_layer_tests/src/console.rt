//! The console and the serial check.

mod greatest;
mod histories;
mod often;
mod packets;
mod plays;
