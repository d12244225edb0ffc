//! Classes of places, by pairs of places that stand in one class.
//!
//! Each place is labelled with the least one of its class.
//!
//! The one call is `classes_of`; it is near-linear in the pairs, in any order. Places count from 0.
//! Rules: docs/RULES.md, "Nets". Definitions: specs/Pairs.antt.
#![tactic(auto)]

mod unions;

pub use unions::classes_of;
