//! Moving and turning one object of a sheet: each of its points is taken along, with those of its
//! attached texts and of its embedded symbol.
//!
//! Coordinates are in mils. Rule: docs/RULES.md, "Moving and turning". Definitions: specs/.
#![tactic(auto)]

mod components;
mod fault;
mod kinds;
mod motion;
mod moving;
mod points;
mod shapes;
mod texts;

pub use fault::MoveFault;
pub use moving::{moved, turned};
