//! The first bytes of texts as numbers, by which most texts are told apart: two numbers that differ
//! compare as the texts do.
//!
//! It knows no net. Definitions: specs/Heads.antt.
#![tactic(auto)]

mod heads;

pub use heads::{HeadedRefdes, short_text_head};
