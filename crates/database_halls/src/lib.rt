//! Cases on connections over databases, worked again: requests that the seat of a hall serves over
//! a database in memory, and again over a keeper in memory.
//!
//! `table_report` tells how many cases a table has, and each that came out otherwise. How a table
//! is written stands in crates/cases/data/README.txt.
#![tactic(auto)]

mod answers;
mod halls;
mod served;

pub use answers::table_report;
