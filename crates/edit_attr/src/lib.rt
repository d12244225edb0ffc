//! Attached attributes of one object, set and dropped.
//!
//! Rule: docs/RULES.md, "Setting attributes". Definitions: specs/.
#![tactic(auto)]

mod attributes;
mod points;

pub use attributes::{drop_attr, has_attr, put_attr, set_attr};
pub use points::first_point;
