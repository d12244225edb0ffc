//! The groups of several sheets, kept while conductors leave and come one after the other.
//!
//! It counts the steps of all, and how many steps a change might have taken. Where memory runs out
//! it gives up the groups of the sheets of that change, and no others.
//!
//! Sheets are known by their names. Rules: docs/RULES.md, "Groups". Definitions: specs/Runs.antt
//! and specs/Sheets.antt.
#![tactic(auto)]

mod one;
mod opening;
mod runs;
mod sheets;

pub use sheets::SheetGroups;
