//! What the crates of tests share: drawn numbers, small limits, pages of one byte, commits, runs
//! side by side, and whether a value is printed so.
#![tactic(auto)]

pub mod beside;
pub mod commits;
pub mod draw;
pub mod printed;
pub mod stores;
