//! A server and its parts.

mod callbacks;
mod commits;
mod directory;
mod greatest;
mod sessions;
mod waits;
