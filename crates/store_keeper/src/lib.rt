//! The rows of an edit history in a folder or in a database file, whichever a store is.
//!
//! The one type is `StoreKeeper`, a `Keeper` of keeper_core that tells no rows. Rule:
//! docs/RULES.md, "Stores in databases".
#![tactic(auto)]

mod databases;
mod keeper;

pub use keeper::StoreKeeper;
