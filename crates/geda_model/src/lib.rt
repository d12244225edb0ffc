//! Schematic sheets and symbols as values. Every type keeps the ranges of its fields.
//!
//! `Name`, `Word`, `Line` and `Block` are texts behind their constructors, and lists keep the
//! ranges of what they hold. The limits of files stand here, once for contracts and once for code.
//!
//! Coordinates, lengths and widths are in mils (1/1000 inch), x to the right and y up. Text sizes
//! are in points, angles in degrees counterclockwise, and a colour is an index. Contracts see each
//! type as plain data (specs/Data.antt, Shapes.antt, Sheets.antt). Rule: docs/RULES.md, "Ranges".
#![tactic(auto)]

mod items;
mod limits;
mod name;
mod object;
mod shape;
mod short_text;
mod text;
mod word;

pub use items::Items;
pub use limits::{
    GREATEST_COORDINATE, GREATEST_NUMBER, MOST_EMBEDDED_BYTES, MOST_FILE_BYTES, MOST_LINES,
    MOST_NAME_BYTES, MOST_OBJECTS, MOST_PROJECT_TEXT, MOST_SHEETS, MOST_SYMBOLS, MOST_WORD_BYTES,
};
pub use name::{Name, NameFault, NameRoom};
pub use object::{Body, Component, Head, Object, Objects, Sheet, Symbol};
pub use shape::{Fill, Part, Parts, Shape, Stroke};
pub use text::{Block, Text, Texts, is_content, line_feeds};
pub use word::{Line, Word};
