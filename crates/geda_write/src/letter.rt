// The letter of a shape.
ghost use Rattle.std.specs.Prelude.{◌≡◌};
ghost use Rattle.geda_grammar.specs.Letters.{byte_of};
ghost use Rattle.geda_grammar.specs.Rows.{letter_of_shape};

use geda_model::Shape;

/// The letter that begins a shape's line, as a byte. Rule: docs/RULES.md, "Canonical text".
pub fn letter_of_shape(shape: &Shape) -> u8
    ensures letter { result ≡ byte_of (letter_of_shape shape.now) }
{
    match shape {
        Shape::Straight { .. } => b'L',
        Shape::Picture { .. } => b'G',
        Shape::Rect { .. } => b'B',
        Shape::Circle { .. } => b'V',
        Shape::Arc { .. } => b'A',
        Shape::Text(_) => b'T',
        Shape::Net { .. } => b'N',
        Shape::Bus { .. } => b'U',
        Shape::Pin { .. } => b'P',
        Shape::Path { .. } => b'H',
    }
}
