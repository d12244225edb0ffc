//! Lines, fields and numbers in the bytes of a file. Lines count from 1; a field is a run of bytes
//! that are neither space nor tab. Nothing here takes memory.
//! Format: docs/FORMATS.md, "Lines and fields". Definitions: specs/Lines.antt.
#![tactic(auto)]

mod cutter;
mod line;
mod number;
mod pieces;
mod text;

pub use cutter::Cutter;
pub use line::fields;
pub use number::{are_digits, natural, whole};
pub use pieces::Fields;
pub use text::text_of;
