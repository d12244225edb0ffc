//! Cases on rows in databases, worked again: copies into a database in memory, and out of one.
//!
//! `table_report` tells how many cases a table has, and each that came out otherwise. How a table
//! is written stands in crates/cases/data/README.txt.
#![tactic(auto)]

mod answers;
mod copies;
mod rows;

pub use answers::table_report;
