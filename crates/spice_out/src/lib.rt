//! The SPICE text of a net list: a comment for each net with its node, a card or a comment for each
//! package.
//!
//! The pins of each refdes are gathered in one pass over the nets, and the names of cards stand in
//! one set. Laws say that two pins have one node exactly where one net has both, and that no two
//! cards have one name. A net list may be refused here, with the package that keeps it from being a
//! circuit.
//!
//! Nodes and pins count from 1; the node 0 is that of the net named `GND`. Layout and faults:
//! docs/FORMATS.md, "SPICE text". Definitions: specs/SpiceText.antt and those that it cites; laws:
//! specs/SpiceLaws.antt.
#![tactic(auto)]

mod card_names;
mod checks;
mod fault;
mod laws;
mod net_nodes;
mod package_pins;
mod pin_table;
mod writing;

pub use fault::SpiceFault;
pub use laws::{card_names_differ, nodes_are_nets, pin_sets_are_exact, text_tells_cards};
pub use writing::spice_text;
