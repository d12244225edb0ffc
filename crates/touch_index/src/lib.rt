//! The conductors of one sheet by key, and which of them touch a given one, found without looking
//! at all others.
//!
//! It is for conductors that come and go. Ends and straight wires are spans on rows and columns;
//! two conductors touch exactly where spans of theirs meet. It counts how often it was asked, takes
//! each conductor as an opaque one, and gives none back.
//!
//! Coordinates are in mils (1/1000 inch). Rule: docs/RULES.md, "Touching". Definitions:
//! specs/Index.antt.
#![tactic(auto)]

mod grid;
mod index;
mod neighbours;
mod sealed;
mod spans;
mod strips;

pub use index::TouchIndex;
pub use sealed::Sealed;
