//! The attributes of the file of a sheet as a table, and a table that is filled into such a file.
//!
//! A sheet is opened as the history of one edit, which adds it: so its objects have ids from 0, in
//! the order of the file, and what a table changes are edits that follow. Where no limit is near,
//! none of these is spelled and read: their components are put in at once. `opened_file` opens a
//! sheet, and `filled_file` fills a table in. Rule: docs/RULES.md, "Attributes as a table".
//! Definitions: specs/OpenedFiles.antt, specs/FilledFiles.antt.
#![tactic(auto)]

mod at_once;
mod fault;
mod filling;
mod objects;
mod opening;

pub use fault::{TableFileFault, TableKind};
pub use filling::{FilledFile, filled_file};
pub use opening::opened_file;
