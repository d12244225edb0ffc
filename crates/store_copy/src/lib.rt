//! Copying the rows of one keeper into another, and a store into a database as a command.
//!
//! The calls are `store_rows` and `store`. Definitions: specs/Copies.antt, specs/Storing.antt.
//! Rule: docs/RULES.md, "Stores in databases".
#![tactic(auto)]

mod compare;
mod copying;
mod fault;
mod fill;
mod storing;
mod storing_fault;

pub use copying::store_rows;
pub use fault::StoreFault;
pub use storing::store;
pub use storing_fault::StoringFault;
