//! The words after a command on the command line, read with clap: the value of the command's one
//! option, and the other words.
//! Rules: docs/FORMATS.md, "Command lines". Definitions: specs/Words.antt.
//!
//! It knows no command.
#![tactic(auto)]

mod fault;
mod parts;

pub use fault::WordFault;
pub use parts::{Parts, read_parts};
