//! The findings of the check: their order, what they print, and how they are gathered.
//!
//! A law says that findings in order are just those that were found.
//!
//! The main type is `Finding`. Rules: docs/RULES.md, "Findings", and docs/FORMATS.md, "Report".
//! Definitions: specs/Findings.antt, specs/Order.antt and specs/Report.antt.
#![tactic(auto)]

mod adding;
mod finding;
mod found;
mod report;
mod rule;

pub use adding::{add_error, add_finding, add_warning};
pub use finding::Finding;
pub use found::{add_same_text, order_law};
pub use report::report_text;
pub use rule::Rule;
