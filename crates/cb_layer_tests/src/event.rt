//! The text of schedules.

mod greatest;
mod refused;
