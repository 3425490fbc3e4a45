//! The asks that wait at a server with callback locking, and the in-use marks.
//!
//! A client that wants a page asks the server for it, to read or to write, and waits in the page's
//! queue (Franklin, Carey and Livny, TODS 1997). A client has at most one ask at all. [`Asks`] has
//! the queues. Whoever takes an ask out gets an [`Ask`], and has to say its [`Fate`]. [`Marks`]
//! notes which clients said that their transaction uses a page that was called back.
#![tactic(auto)]

mod ask;
mod asks;
mod key;
mod marks;
mod places;
mod queue;
mod spare;

pub use ask::{Ask, Fate};
pub use asks::Asks;
pub use marks::Marks;
pub use queue::{Queue, Waiting};
