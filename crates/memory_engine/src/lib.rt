//! A store of rows in memory, in which others step as it is planned, and calls go without an answer.
//!
//! The main type is `MemoryEngine`, an `Engine` of engine_core that tells its world, so what that
//! trait promises can be kept. A `Turn` says what happens at a call. Rule: docs/RULES.md, "Boards
//! on several machines".
#![tactic(auto)]

mod late;
mod memory;
mod world;

pub use memory::{MemoryEngine, Turn};
pub use world::MemoryWorld;
