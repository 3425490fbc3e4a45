//! Laws of programs that run.
//!
//! The crate has no code. Lists of steps of threads that share a station are runs of the protocol's
//! world ([`runs_are_worlds`]). The records of their calls' contracts are such steps
//! ([`calls_are_steps`], [`workers_go_by_steps`]). A service and its clients are a world, too
//! ([`processes_are_worlds`]).
//! Its next life is above all that the last one knew ([`next_life_is_new`]), and each start is a
//! restart of the server ([`services_are_lives`]).
#![tactic(auto)]

mod services;
mod threads;

pub use services::{next_life_is_new, processes_are_worlds, services_are_lives};
pub use threads::{calls_are_steps, runs_are_worlds, workers_go_by_steps};
