//! A keeper of rows on several machines, over a board that was taken.
//!
//! The main type is `EngineKeeper`, a `Keeper` of keeper_core over an `Engine` of engine_core. Its
//! rows are those that it vouches for (specs/Vouched.antt), which are told where the engine tells
//! its world. Rule: docs/RULES.md, "Boards on several machines".
#![tactic(auto)]

mod keeper;
mod steps;

pub use keeper::EngineKeeper;
