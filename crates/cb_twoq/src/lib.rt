//! The law of a chooser, which says which page may leave a pool, and two forms of 2Q that keep the
//! law.
#![tactic(auto)]

mod chooser;
mod laws;
mod lists;
mod page_hash;
mod plain;
mod runs;
mod slot;
mod twoq;

pub use chooser::{ChooseFault, Chooser, ChooserCall};
pub use laws::calls_make_the_lists;
pub use lists::Lists;
pub use page_hash::{PageCache, PageHash, PageHasher};
pub use plain::{PlainTwoQ, is_on, oldest_unfixed, take_off};
pub use runs::{Answer, run_refs};
pub use twoq::{Parts, TwoQ};
