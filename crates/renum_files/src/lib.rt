//! What numbering makes of the files of a project: the canonical texts of the sheets that change.
//!
//! The call is `renumbered_files`; `sheet_files` writes the files of sheets as they are. Rule:
//! docs/RULES.md, "Numbering". Definitions: specs/RenumberedFiles.antt.
#![tactic(auto)]

mod changed_sheets;
mod fault;
mod file_text;
mod renumbering;
mod sheet_texts;

pub use fault::RenumberFault;
pub use file_text::FileText;
pub use renumbering::{RenumberedFiles, renumbered_files};
pub use sheet_texts::sheet_files;
