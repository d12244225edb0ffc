//! Which texts stand twice in a list, which pairs of texts do, and which names print alike; and the
//! line that counts findings by level.
//! Definitions: specs/TwoOfAList.antt, NameSets.antt, PairSets.antt, LookAlike.antt and
//! Levels.antt.
#![tactic(auto)]

mod alike;
mod levels;
mod pair;
mod plain;
mod twice;

pub use alike::alike_texts;
pub use levels::put_levels;
pub use pair::PairKey;
pub use twice::{names_once, names_twice, pairs_twice};
