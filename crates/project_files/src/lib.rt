//! The project of the files of a folder: the sheets that are named, those below them, and the
//! symbols that they ask for.
//!
//! A `Folder` is a trait, with a form in memory and the real one. Sheets come by a queue in which
//! each stands once, and each symbol is read once.
//!
//! The main call is `project_of`, over any `Folder`. Rule: docs/RULES.md, "The project of the
//! files". Definitions: specs/ProjectFiles.antt, which stands on FileReads.antt, Gathering.antt and
//! Opening.antt.
#![tactic(auto)]

mod asking;
mod bounds;
mod dir_folder;
mod fault;
mod file_reads;
mod folder;
mod gathered;
mod gathering;
mod opening;
mod project;
mod project_text;
mod replacing;
mod symbol_text;

pub use bounds::object_bound;
pub use dir_folder::DirFolder;
pub use fault::FileFault;
pub use file_reads::{sheet_in, symbol_in};
pub use folder::{Folder, FolderFault, MemoryFolder};
pub use project::{MeasuredProject, measured_project_of, project_of};
