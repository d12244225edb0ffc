//! Cases on connections, worked again: requests that the two seats of a hall serve in turn, over a
//! keeper in memory, and bytes that a service with no entries serves.
//!
//! `table_report` tells how many cases a table has, and each that came out otherwise. How a table
//! is written stands in crates/cases/data/README.txt. On a connection of a hall a line of a file is
//! a request, and its reply a line of the answer (http_lines). A row has the bytes that come in,
//! and `=>` the end of the connection and what went out.
#![tactic(auto)]

mod answers;
mod connections;
mod empty_service;
mod hall_fault;
mod halls;
mod inputs;
mod keepers;
mod made_inputs;
mod questions;

pub use answers::table_report;
