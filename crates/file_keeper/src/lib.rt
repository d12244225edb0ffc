//! The rows of an edit history as files of a folder.
//!
//! What a row file is made of stands in functions with exact clauses; the calls of the system are a
//! thin layer around them, of which no clause tells more than that each failure is counted.
//!
//! The one type is `FileKeeper`, a `Keeper` of keeper_core that tells no rows. `row_bytes` and
//! `row_of` say what a row file holds (specs/RowFiles.antt). Format: docs/FORMATS.md, "Stores".
//! Rule: docs/RULES.md, "Rows in files".
#![tactic(auto)]

mod faults;
mod files;
mod folder;
mod keeper;
mod names;
mod rows;
mod store;
mod sums;

pub use keeper::FileKeeper;
pub use rows::{row_bytes, row_of};
