//! A project as one flat list of what joins in it: each object of each sheet, in each instance of
//! the sheet.
//!
//! Rules: docs/RULES.md, "Conductors", "Ports", "Packages" and "No-connection directives".
//! Definitions: specs/Conductors.antt, which stands on Ports.antt and ListedParts.antt.
#![tactic(auto)]

mod conductors;
mod contents;
mod package;
mod plan_rows;
mod planned;
mod ports;
mod project;
mod roles;
mod texts;

pub use project::flatten;
