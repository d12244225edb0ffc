//! The text of a net list in each form. Layouts: docs/FORMATS.md, "List text", "Tango text", "PCB
//! text" and "Bill of materials". Definitions: specs/Forms.antt and those that it cites.
//!
//! It stands on the value of a net list, and knows nothing of how it was made.
#![tactic(auto)]

mod articles;
mod bill_text;
mod csv_records;
mod form;
mod joined;
mod list_text;
mod net_lines;
mod pcb_text;
mod tango_text;

pub use form::net_text;
pub use net_list::Form;
