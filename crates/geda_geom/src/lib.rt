//! Points and conductors on a sheet, when conductors touch, where points of symbols are placed, and
//! where points come that are turned.
//!
//! Coordinates are in mils (1/1000 inch), x to the right and y up. Rules: docs/RULES.md,
//! "Touching", "Placing" and "Moving and turning". Definitions: specs/Touch.antt, specs/Keys.antt,
//! specs/Placing.antt.
#![tactic(auto)]

mod conductor;
mod laws;
mod placing;
mod touching;

pub use conductor::{Conductor, Key, Point};
pub use laws::{crossing_is_no_touch, touching_turns};
pub use placing::{Placement, place, turn};
pub use touching::touches;
