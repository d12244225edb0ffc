//! Edges of the program in memory that wait for each other: connections that send what a script
//! says, keepers of which a call waits, and a gate. All that they write and were given is noted
//! where the others see how far they have come.
//!
//! How a script is written stands in crates/cases/data/README.txt.
#![tactic(auto)]

mod held_keeper;
mod noted_gate;
mod progress;
mod scripts;
mod shared_link;

pub use held_keeper::{HeldCall, HeldKeeper};
pub use noted_gate::NotedGate;
pub use progress::{Milestone, Progress, Traces};
pub use scripts::{Script, counted_name, milestone_of, name_count, script_of};
pub use shared_link::SharedLink;
