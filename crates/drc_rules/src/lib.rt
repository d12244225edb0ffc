//! The check of a project: which rules its components, nets and sheets break.
//!
//! The net list is read, and nothing is asked of how it was made.
//!
//! `findings` answers all of them in order, and `report_text` prints them. Rules: docs/RULES.md,
//! "Findings". Definitions: specs/Findings.antt, which stands on specs/OnNets.antt and on those of
//! component_checks.
#![tactic(auto)]

mod check;
mod conflicts;
mod kind_counts;
mod kind_words;
mod no_connection;
mod not_driven;
mod on_nets;
mod one_pin;
mod pairs_on_two;
mod pin_spelling;
mod pins_on_two;
mod unconnected;

pub use check::{findings, findings_on};
pub use drc_findings::{Finding, order_law, report_text};
pub use pin_matrix::{Level, Matrix, MatrixFault};
