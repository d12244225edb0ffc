//! The check of the symbols of a folder's files.
//!
//! `checked_files` reads them, over any `Folder`, and answers what is found in each. Rules:
//! docs/RULES.md, "Symbol check" and "Commands". Definitions: specs/CheckedFiles.antt.
#![tactic(auto)]

mod files;

pub use files::checked_files;
