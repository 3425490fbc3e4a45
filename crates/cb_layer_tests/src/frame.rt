//! Pages and frames.

mod refused;
mod used;
