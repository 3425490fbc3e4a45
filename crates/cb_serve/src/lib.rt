//! A server over a store on disk, whose frames come in on one stream and go out on another.
//!
//! [`serve`] works in rounds. It reads what is there, takes each whole frame, puts out the answers,
//! writes all that was committed in one transaction, and then puts the Dones out. Many commits
//! therefore share a sync, and none is answered before the database has committed it.
#![tactic(auto)]

mod announcing;
mod calls;
mod fault;
mod front;
mod lives;
mod output;
mod printing;
mod round;
mod serving;
mod taking;

pub use announcing::announce;
pub use calls::RefusedCall;
pub use fault::{RoundFault, ServeFault};
pub use printing::print_served;
pub use serving::{Served, serve};
