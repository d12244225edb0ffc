//! Two owners of a board in one store: what the one does is an event that the other's rule allows,
//! and who takes the board vouches for all that the one before vouched for.
//!
//! There is no code here, but the laws that join two owners (specs/Pairs.antt). Rule:
//! docs/RULES.md, "Boards on several machines".
#![tactic(auto)]

mod laws;

pub use laws::{asked_law, sent_law, taken_law};
