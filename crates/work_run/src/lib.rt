//! A run of the work on a board, and what is told of it.
//!
//! It is there to try the board, and to time it.
//!
//! Rule: docs/RULES.md, "Work". Layout: docs/FORMATS.md, "Work text". Definitions:
//! specs/RunText.antt, which stands on Runs.antt.
#![tactic(auto)]

mod laws;
mod run_text;
mod steps;

pub use laws::{one_instance, one_work};
pub use run_text::work_text;
