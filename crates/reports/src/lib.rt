//! The reports on a project: its net list in each form, its check, and its sheets and symbols as
//! texts.
//!
//! `net_list` and `check` want no board: the program calls them on its project, and `report` hands
//! over the groups of its board, so that each text has one function.
//!
//! The main call is `report`. Layouts: docs/FORMATS.md, "Reports". Definitions: specs/Reports.antt
//! and those that it cites.
#![tactic(auto)]

mod check_report;
mod each_report;
mod fault;
mod net_lists;
mod sheet_texts;
mod what;

pub use check_report::Check;
pub use each_report::report;
pub use fault::ReportFault;
pub use net_list::Form;
pub use net_lists::{check, check_and_nets, net_list, net_report};
pub use what::What;
