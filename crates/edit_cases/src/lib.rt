//! Cases on edits, computed again by the public calls of the crates of edits: one edit by itself,
//! and histories of entries, each of which a desk judges, and takes where it is accepted.
//!
//! `table_report` tells how many cases a table has, and each that came out otherwise. How a table
//! is written stands in crates/cases/data/README.txt. An entry of a history stands as JSON in a
//! line of a file (http_lines).
#![tactic(auto)]

mod answers;
mod attributes;
mod entries;
mod histories;
mod motions;
mod numbers;
mod project_reports;
mod reading;

pub use answers::table_report;
