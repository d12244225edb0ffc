//! What one line of a file says, and the lines that follow a shape.
//!
//! A line says a whole row, begins a shape whose lines follow, or is refused for the first cause.
//! Rules: docs/RULES.md, "Grammar", "Faults". Definitions: geda_grammar. What this crate promises
//! speaks of the steps of a reader, geda_grammar, specs/steps; what the reader of files promises
//! over it speaks of none of them.
#![tactic(auto)]

mod content;
mod fault;
mod fields;
mod letters;
mod line;
mod path_line;
mod pending;
mod picture_data;
mod picture_line;

pub use fault::LineFault;
pub use line::{SheetLine, sheet_line};
pub use pending::{Pending, Progress};
