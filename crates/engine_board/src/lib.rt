//! The owner of a board in a store on several machines.
//!
//! `open` takes the board; what the owner then knows is a `Hold`, by which `put` adds a row and
//! `row` finds one. Contracts say which rows the owner vouches for, whatever others do meanwhile
//! (specs/Holding.antt, specs/Holds.antt, specs/Openings.antt). Rule: docs/RULES.md, "Boards on
//! several machines".
#![tactic(auto)]

mod calls;
mod hold;
mod opening;
mod rows;
mod tries;

pub use hold::Hold;
pub use opening::open;
pub use rows::row;
pub use tries::put;
