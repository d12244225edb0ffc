//! Tables of cases, as the folders below crates/cases/data have them: `report` goes through one,
//! and asks what each case comes to.
//!
//! How a table is written stands in crates/cases/data/README.txt. A case that came out otherwise
//! than its table says is printed with its line.
#![tactic(auto)]

mod case_fault;
mod cells;
mod table;
mod table_files;
mod words;

pub use case_fault::CaseFault;
pub use cells::{bytes_of, cell, name_of, number_of, numbered, option_in, text_in, text_of};
pub use table::{Asked, Case, report};
pub use table_files::TableFiles;
pub use words::{arguments_of, failing_calls};
