//! The net list of a project as a value: packages, and nets of their pins; and the forms in which
//! it is written.
//!
//! It says nothing of how a project comes to its net list (net_names), and nothing of how a form
//! prints (backends).
#![tactic(auto)]

mod form;
mod member;
mod nets;
mod package;

pub use form::Form;
pub use member::Member;
pub use nets::{Members, Net, NetList, NetSort, Nets, Packages};
pub use package::Package;
