//! A client's pool of pages. The pool is generic over its chooser, which picks the page that is let
//! go.
//!
//! Under every chooser that keeps its law, the pool answers what was last installed or written,
//! unless that page was let go or removed since, or the client restarted. An example that is run as
//! a test is `calls_of_a_pool` in `cb_layer_tests`.
#![tactic(auto)]

mod copies;
mod pool;

pub use pool::{Pool, PoolFault};
