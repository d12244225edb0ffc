//! Which conductors stand in one net: those that a chain of links joins. Two are linked where they
//! touch in one instance, have a name in common, or are tied by a port.
//!
//! It knows no project, and no order of printing.
//!
//! What touches comes as groups, by keys that hold in each instance. Places count from 0. Rules:
//! docs/RULES.md, "Nets", "Names in common" and "Ports". Definitions: specs/Links.antt, and for
//! groups specs/InstanceGroups.antt.
#![tactic(auto)]

mod groups;
mod labels;
mod names;
mod ports;
mod rows;
mod runs;

pub use labels::class_labels;
