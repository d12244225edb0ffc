//! What is wrong with a symbol, before it is drawn on a sheet.
//!
//! Which texts stand twice is asked of sets that one pass fills. Laws say that the findings of a
//! symbol are one list, and that slots on which nothing is found have their pin numbers.
//!
//! `check_symbol` answers its findings in order, and `report_text` prints those of several files.
//! The main type is `SymFinding`. Places of pins count from 0, coordinates are in mils. Rules:
//! docs/RULES.md, "Symbol check", and docs/FORMATS.md, "Symbol report". Definitions: specs/.
#![tactic(auto)]

mod check;
mod checked;
mod finding;
mod free_attributes;
pub mod laws;
mod net_pins;
mod on_pins;
mod on_slots;
mod on_whole;
mod pushing;
mod repeats;
mod report;
mod symbols;

pub use check::check_symbol;
pub use finding::SymFinding;
pub use report::{CheckedFile, has_errors, report_text};
