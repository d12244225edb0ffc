//! What calls of the outside tell whoever reads a contract: how often something failed, before and
//! after, and which calls of a form in memory are to fail.
//!
//! The main type is `FailingCalls`. Definitions: specs/Counts.antt, FailingCalls.antt.
#![tactic(auto)]

mod failing_calls;

pub use failing_calls::FailingCalls;
