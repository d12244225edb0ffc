//! Cases on files, computed again by the public calls of the crates that read files, check
//! symbols, place pins and tell what touches.
//!
//! `table_report` tells how many cases a table has, and each that came out otherwise. How a table
//! is written stands in crates/cases/data/README.txt.
#![tactic(auto)]

mod answers;
mod attributes;
mod drawings;
mod faults;
mod geometry;
mod grouping;
mod pins;
mod readers;
mod symbols;
mod texts;

pub use answers::table_report;
