//! A project that changes, with the groups of conductors that touch on its sheets.
//!
//! A change takes away what the objects had that it has, or whose symbols it has, and puts in what
//! they have afterwards; the groups of the sheets that it touches follow, and no others. A sheet
//! whose groups were given up is grouped anew by the first change that touches it.
//! `apply_with_bound` answers what the change might have cost, and `bound` answers it without the
//! change.
//!
//! Coordinates are in mils (1/1000 inch). The main type is `Board`. Rules: docs/RULES.md,
//! "Touching" and "Groups". Definitions: specs/Boards.antt and those that it cites.
#![tactic(auto)]

mod board;
mod bound;
mod changed;
mod drawn;
mod grouped;
mod local;
mod put_in;
mod regroup;
mod renewing;
mod rows;
mod symbol_names;

pub use board::Board;
