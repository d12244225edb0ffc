//! The bodies of the rows that keepers store in tables: the text of an entry, and the entry that a
//! text is.
//!
//! `row_body` gives the one spelling of an entry as a row, and `row_entry` reads a row of either
//! version (specs/RowTexts.antt). Format: docs/FORMATS.md, "Stores". Rule: docs/RULES.md, "Stored
//! rows".
#![tactic(auto)]

mod rows;

pub use rows::{row_body, row_entry};
