//! The objects of a project in the instances of its sheets, and what tells the ports of each
//! instance. They are made once, and lent to whoever goes over them.
//!
//! The labels of the components above instances are found once, and tell which refdes is that of a
//! port. It knows no conductor, and no rule of the check.
//!
//! The main type is `InstanceObjects`. Places of instances count from 0. Rules: docs/RULES.md,
//! "Conductors" and "Ports". Definitions: specs/Occurrences.antt, specs/Ports.antt and
//! specs/InstanceObjects.antt.
#![tactic(auto)]

mod labels;
mod object;
mod occurrence;
mod once;
mod order;
mod ports;
mod sheet_ids;
mod table;
mod texts;

pub use labels::component_above;
pub use object::InstanceObject;
pub use occurrence::Occurrence;
pub use once::once_in_order;
pub use sheet_ids::{ids_at, ids_by_sheet};
pub use table::InstanceObjects;
pub use texts::{line_under, text_under};
