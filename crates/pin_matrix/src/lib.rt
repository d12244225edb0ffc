//! How grave it is that two kinds of pins meet in a net: the usual matrix, and one from a file.
//!
//! The main type is `Matrix`. Rules: docs/RULES.md, "The usual matrix", and docs/FORMATS.md,
//! "Matrix files". Definitions: specs/Matrices.antt and specs/MatrixFiles.antt.
#![tactic(auto)]

mod fault;
mod level;
mod matrix;
mod reading;

pub use fault::MatrixFault;
pub use level::Level;
pub use matrix::{Matrix, are_in_order, is_correct, same_kind};
