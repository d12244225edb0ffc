//! The files of a table of cases as a folder, and as a project.
#![tactic(auto)]

mod projects;

pub use projects::{folder_of, project_in};
