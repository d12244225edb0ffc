//! The canonical text of sheets, symbols, objects and version lines, and how long it is.
//!
//! The length is counted without writing the text.
//!
//! A sheet has one canonical text, which every file that spells it comes down to. Lengths are in
//! bytes. Rule: docs/RULES.md, "Canonical text". Definitions: geda_grammar, specs/Canonical.antt.
#![tactic(auto)]

mod fields;
mod laws;
mod letter;
mod numbers;
mod objects;
mod output;
mod shapes;
mod sizes;
mod texts;

pub use laws::{object_again, sheet_again, symbol_again};
pub use letter::letter_of_shape;
pub use sizes::{object_size, symbol_size};
pub use texts::{head_text, object_text, put_object_text, sheet_text, symbol_text};
