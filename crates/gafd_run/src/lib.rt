//! All of the program `gafd` but its edges: `run` does what the arguments ask for, over any folder,
//! sinks, gate and keeper, and answers the status.
//!
//! Which statuses are left where nothing failed follows from its relation.
//!
//! Commands and statuses: docs/FORMATS.md. Definitions: specs/Answers.antt, specs/Writing.antt,
//! specs/Runs.antt and specs/Endings.antt.
#![tactic(auto)]

mod answer;
mod delivery;
mod error_lines;
mod fault;
mod served;
mod stored;
mod tables;
mod whole;

pub use error_lines::report_want_of_memory;
pub use sinks::{MemorySink, Sink, SinkFault};
pub use whole::{one_outcome, run};
