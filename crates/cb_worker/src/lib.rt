//! A client of a running program, with its hand, over an office that it shares with others.
//!
//! A [`Worker`] reads pages that it holds without a lock, and takes the office for all else. While
//! one of its calls waits, it takes what is sent to it, so that others get their pages back.
#![tactic(auto)]

mod answers;
mod awaited;
mod laws;
mod said;
mod worker;
mod worker_fault;

pub use answers::{Fetched, Finished, Wanted};
pub use laws::what_was_written_is_committed;
pub use worker::{Left, Worker};
pub use worker_fault::WorkerFault;
