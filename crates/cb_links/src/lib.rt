//! Which incarnation and which transaction of each client is current at the server.
//!
//! A client's frames name the incarnation that it speaks for, and most of them a transaction.
//! [`Sessions`] keeps the last of each that the server heard of. By these it tells the frames that
//! count from frames that come late, come again, or come from a client that has restarted since.
//!
//! Each call says exactly how it changes one client's session. The sessions of the others stay as
//! they were. An example that is run as a test is `transaction_of_a_session` in `cb_layer_tests`.
#![tactic(auto)]

mod sessions;

pub use sessions::{Admission, Session, Sessions, Standing, Transaction};
