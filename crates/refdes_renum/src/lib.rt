//! Numbers for the components of a project whose refdes ends in `?`.
//!
//! The call is `renumber`, which gives a change. Rule: docs/RULES.md, "Numbering". Definitions:
//! specs/.
#![tactic(auto)]

mod components;
mod laws;
mod place;
mod places;
mod renumbering;
mod stems;
mod used;

pub use laws::{least_is_free, renumbered_distinct, renumbered_replaced};
pub use renumbering::renumber;
