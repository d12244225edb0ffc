//! What the check finds on the components of a project and on its packages.
//!
//! `checked_components` gathers what the rules ask of each component in each instance of its sheet;
//! the other calls add what they find to a list of findings. Rules: docs/RULES.md, "Findings".
//! Definitions: specs/CheckedComponents.antt, specs/OnComponents.antt and specs/OnPackages.antt.
#![tactic(auto)]

mod attributes;
mod checked;
mod drawn_pins;
mod gathering;
mod lists;
mod on_components;
mod on_contents;
mod on_packages;
mod on_refdes;
mod parts;
mod project;
mod repeats;
mod slot_rows;
mod sound_symbols;
mod value_faults;

pub use checked::CheckedComponent;
pub use on_components::add_on_components;
pub use on_packages::add_on_packages;
pub use project::checked_components;
