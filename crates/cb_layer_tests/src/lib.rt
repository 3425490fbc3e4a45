//! Tests by public calls of the layers that need no thread and no database, a module for each, and
//! a chooser of a caller's own with its proof. They stand apart from those of a store in a database
//! (`cb_shelf_tests`), and of a station and what runs (`cb_tests`), so that they are tried without
//! compiling a database.
#![tactic(auto)]

mod pool;

pub use pool::Fifo;

#[cfg(test)]
mod client;
#[cfg(test)]
mod console;
#[cfg(test)]
mod event;
#[cfg(test)]
mod example;
#[cfg(test)]
mod frame;
#[cfg(test)]
mod server;
#[cfg(test)]
mod texts;
