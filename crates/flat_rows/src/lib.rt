//! What joins in a project, as it is kept: a row of fixed size for each conductor, and names, pins
//! of parts and ports in lists of their own, since most conductors have none. The printed refdes of
//! a part is kept once, and devices, values and footprints of parts stand in lists of their own.
//!
//! Contracts see the list of conductors. It knows no project, and not what is linked. Places count
//! from 0. Definitions: specs/Conductors.antt, and for rows specs/Rows.antt and specs/Keyed.antt.
#![tactic(auto)]

mod conductors;
mod flat;
mod growing;
mod lists;
mod parts;
mod port_order;
mod rows;

pub use conductors::PortPins;
pub use flat::FlatRows;
pub use growing::GrowingRows;
pub use parts::{PartLists, PartRows};
pub use rows::{FlatRow, NewConductor, RowMember};
