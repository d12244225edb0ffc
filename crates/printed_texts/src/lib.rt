//! How the texts of a project print: words, in which spaces, tabs and line ends become `_`, and
//! lines of such words.
//! Rules: docs/FORMATS.md, "List text" and "Report". Definitions: specs/PrintedTexts.antt.
#![tactic(auto)]

mod texts;
mod words;

pub use texts::{put_flat, put_word};
pub use words::{Words, name_words, numbered_words, pair_words, pin_words};
