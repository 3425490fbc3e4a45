//! Tests by public calls of a store in the tables of a database, which no threads share, and of
//! services over it, and databases whose files lie on disks in memory.
#![tactic(auto)]

#[cfg(test)]
mod batches;
pub mod databases;
#[cfg(test)]
mod disks;
#[cfg(test)]
mod lives;
#[cfg(test)]
mod reopened;
#[cfg(test)]
mod served;
#[cfg(test)]
mod shapes;
#[cfg(test)]
mod stops;
#[cfg(test)]
mod texts;
