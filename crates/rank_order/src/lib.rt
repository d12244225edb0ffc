//! Places in order of ranks that are known, in time in proportion to their count: they are counted
//! into a bucket for each rank, and only what has one rank is compared. Ranks of keys, by one sort.
//!
//! Places and ranks count from 0. Definitions: specs/Ranks.antt, specs/Keys.antt and
//! specs/Classes.antt.
#![tactic(auto)]

mod chains;
mod classes;
mod keys;
mod ordered;

pub use chains::{Chains, chains_of};
pub use classes::labels_met;
pub use keys::{Ranks, ranks_of};
pub use ordered::places_in_order;
