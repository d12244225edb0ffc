//! The net list of a project: which pins join, the packages that have them, and the nets' names.
//! Rules: docs/RULES.md, "Nets", "Packages", "Names of nets" and "No-connection directives".
//! Definitions: specs/NetLists.antt.
//!
//! Laws say that each pin of a listed part is a member of the one net of its class, and that no two
//! nets have one name.
#![tactic(auto)]

mod class_pins;
mod gathering;
mod joining;
mod laws;
mod listing;
mod named;
mod names;
mod net_classes;
mod numbering;
mod packages;
mod taken;

pub use joining::{join, join_objects};
pub use laws::{each_pin_has_one_net, each_stands_once, names_differ, one_net_list};
pub use net_list::{Member, Members, Net, NetList, NetSort, Nets, Package, Packages};
