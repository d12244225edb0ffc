//! The grammar of gEDA schematic and symbol files: which bytes spell a sheet, a symbol or one
//! object, which fault other bytes have and at which line, and the one text that is written.
//!
//! Its code is the enums that reader and writer share.
//!
//! Lines are counted from 1. A file is rows (specs/Rows.antt), and rows spell objects
//! (specs/Grammar.antt). Rules: docs/RULES.md, "Grammar", "Faults". The laws are functions
//! without a body: what they promise holds of every list of bytes.
#![tactic(auto)]

mod field_class;
mod kind;
mod laws;
mod letter;
mod mode;
mod place;
mod row;

pub use field_class::Class;
pub use kind::ReadKind;
pub use laws::{object_law, sheet_law, symbol_law, writing_law};
pub use letter::Letter;
pub use mode::Mode;
pub use place::Place;
pub use row::{ComponentLine, Row};
