//! The rows of an edit history in a database file.
//!
//! `SqlFileKeeper` puts each row on the disk before it answers, as a server wants it, and
//! `SqlBatchKeeper` many at once, as a copy of a store does. Each is a `Keeper` of keeper_core that
//! tells no rows. Rule: docs/RULES.md, "Stores in databases".
#![tactic(auto)]

mod batches;
mod keeper;

pub use batches::SqlBatchKeeper;
pub use keeper::SqlFileKeeper;
