//! The statuses with which the program ends.

/// Everything was done, and the serial check said yes.
pub const DONE: u8 = 0;
/// The serial check said no.
pub const NOT_SERIAL: u8 = 1;
/// Wrong words, configuration or schedule.
pub const WRONG_INPUT: u8 = 2;
/// Memory was refused.
pub const NO_MEMORY: u8 = 4;
