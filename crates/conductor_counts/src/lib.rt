//! How many conductors a project has, and would have after a change: net segments, buses, and the
//! net pins of components. What a project takes of memory and time goes by them.
//!
//! The main call is `conductors_after`. Rule: docs/RULES.md, "The budget of conductors".
//! Definitions: specs/Conductors.antt.
#![tactic(auto)]

mod changes;
mod objects;
mod projects;

pub use changes::conductors_after;
pub use projects::count_conductors;
