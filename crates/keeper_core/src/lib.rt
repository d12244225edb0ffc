//! What keeps the rows of an edit history, and what an edit is answered.
//!
//! The main trait is `Keeper`. Contracts see a keeper's rows, where it tells them, and how often it
//! failed (specs/Faults.antt, specs/MemoryKeepers.antt). Rule: docs/RULES.md, "Keepers".
#![tactic(auto)]

mod keeper;
mod memory;
mod reply;

pub use keeper::{KeepFault, Keeper};
pub use memory::MemoryKeeper;
pub use reply::Reply;
