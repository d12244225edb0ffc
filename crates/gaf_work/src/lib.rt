//! Work for a board: changes by numbers that are drawn, always the same from one start.
//!
//! `LiveIds` has the ids of a project's objects in order, which a deletion is drawn from, and
//! follows each change of the project.
//!
//! Coordinates are in mils (1/1000 inch). The main type is `Work`. Rule: docs/RULES.md, "Work".
//! Definitions: specs/DrawnSteps.antt, which stands on Draws.antt and Opening.antt.
#![tactic(auto)]

mod beginning;
mod live;
mod names;
mod objects;
mod steps;
mod symbol;
mod work;

pub use beginning::opening;
pub use live::LiveIds;
pub use work::Work;
