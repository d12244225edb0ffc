//! Keepers over databases in memory, which cases put rows into.
#![tactic(auto)]

mod databases;

pub use databases::{attached, new_database};
