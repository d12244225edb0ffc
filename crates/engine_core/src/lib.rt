//! A store of rows on several machines, in which one key says who may write.
//!
//! The main trait is `Engine`. Contracts see its world, where it tells one: the owner's key, the
//! rows, and the transactions that were asked and not answered, of which each may still be done
//! (specs/Worlds.antt, specs/Calls.antt). Rule: docs/RULES.md, "Boards on several machines".
#![tactic(auto)]

mod engine;
mod txns;

pub use engine::{Engine, EngineFault, Owner, Taken};
pub use txns::{Act, Body, Event};
