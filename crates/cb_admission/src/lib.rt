//! Admission decides how many tries of transactions are let in at once.
//!
//! If clients fight for the same pages, each hand-over of a page aborts all others that wait for
//! it. Tries are therefore let in by an [`AdmissionWindow`], which counts those that are in, and
//! says how many may be. Each aborted try halves it, and clean commits widen it again. If nobody is
//! aborted, everybody is let in.
//!
//! A window is a count alone. The ticket of a try that is let in is a station's (`cb_station`).
#![tactic(auto)]

mod window;

pub use window::{AdmissionWindow, TryEnd};
