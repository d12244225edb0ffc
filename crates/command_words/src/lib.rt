//! The command that the arguments of a command line ask for.
//! Rules: docs/FORMATS.md, "Command lines". Definitions: specs/Commands.antt, specs/HostWords.antt.
#![tactic(auto)]

mod argument;
mod command;
mod files;
mod host_words;
mod numbers;

pub use argument::Argument;
pub use command::{Command, command_of};
