//! The reader of gEDA schematic and symbol files: every spelling of a sheet, a symbol or one
//! object, or the first line at fault and why. Lines count from 1.
//! Rules: docs/RULES.md, "Grammar", "Faults". Definitions: geda_grammar.
//!
//! It keeps what is open between lines; the kind of a fault is looked for only where a line is
//! refused.
#![tactic(auto)]

mod fault;
mod file;
mod kinds;
mod objects;
mod parts;
mod place;
mod reading;
mod refusal;
mod rows;
mod tail;
mod version;

pub use fault::ReadFault;
pub use geda_grammar::ReadKind;
pub use reading::{read_object, read_sheet, read_symbol};
