//! The instances of the sheets of a project, from the roots down through the components with
//! sheets below them, and what is left out of them.
//!
//! It knows sheets by their places, and walks down in rounds, without recursion. A law says that an
//! instance is known by its route and its sheet.
//!
//! The answer is a `Hierarchy`. Rules: docs/RULES.md, "Instances", "Sources that are left out" and
//! "Limits of a hierarchy". Definitions: specs/Instances.antt, which stands on SheetTable.antt,
//! Ways.antt, Lost.antt and Crowded.antt.
#![tactic(auto)]

mod components;
mod crowd;
mod elaboration;
mod fault;
mod filling;
mod instances;
mod lost;
mod met_symbols;
mod places;
mod table;
mod texts;
mod way;
mod widening;

pub use elaboration::{Hierarchy, elaborate, known_law, once_law, short_law, ways_law};
pub use fault::ElabFault;
pub use instances::Instance;
pub use lost::Lost;
pub use texts::line_of;
