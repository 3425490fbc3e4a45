//! A store in the tables of an SQLite database.
//!
//! A [`Shelf`] stands over a connection and keeps one store: the pages in parts of 4,096 bytes, the
//! version of each page, and the number of the last commit. [`Shelf::write`] sets the pages and the
//! number of a batch in one transaction, so that a stop at any call leaves the batch whole or not
//! there at all. [`flush_once`] writes what a server committed and reports it; whoever shares the
//! server with others does so by [`write_and_report`].
//!
//! A shelf does all this by single statements within a transaction ([`run`], [`ask`],
//! [`is_there`]), of which [`put_mark`], [`put_page`] and [`put_pages`] are made. In contracts each
//! is a step (`Inside`), and changes the database as the statements do that ran (`MakesAll`).
#![tactic(auto)]

mod fault;
mod flush;
mod laws;
mod life;
mod opening;
mod reading;
mod rows;
mod shelf;
mod step;
mod writing;

pub use fault::ShelfFault;
pub use flush::{Reports, flush_once, write_and_report};
pub use laws::tables_follow_commits;
pub use life::Life;
pub use rows::{PART, PageRows, fits, part_count, put_mark, put_page, put_pages};
pub use shelf::Shelf;
pub use step::{ask, is_there, run};
pub use writing::Written;
