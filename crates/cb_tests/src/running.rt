//! The shelf and the running program's parts, the office, workers, jobs and the flusher, and whole
//! runs.

mod alone;
mod balky;
mod chosen;
mod clocks;
mod commits;
mod contention;
mod counting;
mod cut_off;
pub(crate) mod disks;
mod flags;
mod gates;
mod giving_up;
mod hurried;
mod late;
mod lines;
mod looking;
mod numbers;
mod other_limits;
mod pacing;
mod refusals;
mod run;
mod sharing;
mod stops;
mod tickets;
pub(crate) mod trials;
mod unwatched;
mod visits;
mod wanting;
pub(crate) mod work;
