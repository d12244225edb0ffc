//! Projects: sheets by name, their objects by id, and the symbols of a library; and the changes
//! that make them.
//!
//! It sees objects from outside alone, so who reads or writes files does not stand on it.
//!
//! Contracts see a project as finite maps (specs/Projects.antt) with the room that was reserved for
//! changes, and a change as a list of things with their new values (Changes.antt). `Project::apply`
//! puts one in, can't fail, and answers the change that undoes it; `Project::put_one` puts in one
//! item alone.
#![tactic(auto)]

mod change;
mod ordered;
mod project;
mod table;

pub use change::{Change, Placed, Thing, Value};
pub use project::Project;
pub use table::{ById, ByName};
