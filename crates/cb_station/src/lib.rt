//! The station is the server of a running program, which all its clients share, with what each
//! client holds, what is to be sent to each, and the history of commits. Threads share a station by
//! an office.
//!
//! A [`Station`] is one value, which its owner lends to one client at a time. Each call takes the
//! client's hand. A hand that isn't the one that the station stores is refused as `Foreign`.
//!
//! An [`Office`] is the station under one lock, with conditions on which threads wait until it has
//! changed: one for each client, for its frames, and one for everything else. `lock` says what
//! holds of the station whenever the lock is free. Its guard, a [`LockedStation`], tells them as it
//! goes.
#![tactic(auto)]

mod locked;
mod office;
mod office_fault;
mod reading;
mod station;

pub use locked::LockedStation;
pub use office::Office;
pub use office_fault::OfficeFault;
pub use station::{EndedTry, Reported, Station, Ticket};
