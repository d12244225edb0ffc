//! Cases on projects, computed again by the public calls on them: their hierarchies, their changes,
//! the groups of their boards, and the SPICE texts of their net lists.
//!
//! `table_report` tells how many cases a table has, and each that came out otherwise. How a table
//! is written stands in crates/cases/data/README.txt.
#![tactic(auto)]

mod answers;
mod boards;
mod changes;
mod hierarchies;
mod net_lists;
mod spice_texts;

pub use answers::table_report;
