//! The list of entries that all callers of a hall share, and which hall it is. The list stands in
//! the proofs alone; in code it is a length.
//!
//! The main type is `Prefix`, a beginning of the list as it was seen. Lengths count entries. Rule:
//! docs/RULES.md, "Histories that are shared". Definitions: specs/Logs.antt, specs/Histories.antt.
#![tactic(auto)]

mod log;

pub use log::{HallName, LogLength, NamedLog, NewLog, Prefix};
