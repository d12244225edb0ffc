// The rows of a file: an object's line with the lines that follow it, or a bracket.
use geda_model::{Shape, Word};
use std::marker::Model;

/// What the line of a component says: all but its symbol.
#[derive(Debug, Drop)]
pub struct ComponentLine {
    /// Where it stands, in mils, -200,000 to 200,000.
    pub x: i32,
    /// Where it stands, in mils, -200,000 to 200,000.
    pub y: i32,
    /// Whether it can be selected.
    pub selectable: bool,
    /// In degrees: 0, 90, 180 or 270.
    pub angle: u16,
    /// Whether it is mirrored.
    pub mirror: bool,
    /// The file of its symbol; without `EMBEDDED` where the symbol is embedded.
    pub basename: Word,
}

impl Model for ComponentLine {
    ghost use Rattle.geda_grammar.specs.Components.{ComponentLineData, IsComponentLine};

    ghost Value = { ComponentLineData };

    ghost view = { λ c. record { x = c.x; y = c.y; selectable = c.selectable; angle = c.angle; mirror = c.mirror; basename = c.basename } };

    ghost invariant = { λ c. IsComponentLine (record { x = c.x; y = c.y; selectable = c.selectable; angle = c.angle; mirror = c.mirror; basename = c.basename }) };
}

/// An object's line with the lines that follow it, or a bracket.
#[derive(Debug, Drop)]
pub enum Row {
    /// A shape.
    Drawn(Shape),
    /// A component whose symbol stands in a library.
    Library(ComponentLine),
    /// A component whose symbol is embedded: its rows come next, between `[` and `]`.
    Embedding(ComponentLine),
    /// `{`
    OpenBlock,
    /// `}`
    CloseBlock,
    /// `[`
    OpenSymbol,
    /// `]`
    CloseSymbol,
}
