//! A client and its parts.

mod cases;
mod laws;
mod locks;
