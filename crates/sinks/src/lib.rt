//! Where the bytes of a program go.
//!
//! The main trait is `Sink`. Contracts see what was written, where a sink tells it, and how often
//! it failed (specs/Streams.antt, specs/MemorySinks.antt). `StdSink` is over a stream of a process.
//! Rule: docs/RULES.md, "Faults of the outside".
#![tactic(auto)]

mod memory;
mod sink;
mod std_sink;

pub use memory::MemorySink;
pub use sink::{Sink, SinkFault};
pub use std_sink::StdSink;
