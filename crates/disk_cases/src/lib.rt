//! Cases on stops, worked again: a database on two disks in memory, one of which stops at each of
//! its calls in turn while rows are put.
//!
//! `table_report` tells how many cases a table has, and each that came out otherwise. How a table
//! is written stands in crates/cases/data/README.txt.
#![tactic(auto)]

mod answers;
mod disks;
mod runs;
mod stops;

pub use answers::table_report;
