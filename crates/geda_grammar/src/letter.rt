// The first field of a line.
ghost use Rattle.std.specs.Prelude.{◌≡◌, IsTrue, ◌↔◌, true};
ghost use Rattle.geda_grammar.specs.Letters as letters;

/// What a line begins with: the letter of an object, or a bracket.
#[derive(Clone, Copy, Debug, PartialEq, Eq)]
pub enum Letter {
    /// `L`, a line that joins nothing.
    Straight,
    /// `G`
    Picture,
    /// `B`, a box.
    Rect,
    /// `V`
    Circle,
    /// `A`
    Arc,
    /// `T`
    Text,
    /// `N`
    Net,
    /// `U`
    Bus,
    /// `P`
    Pin,
    /// `H`
    Path,
    /// `C`
    Component,
    /// `{`, which opens a block of attached texts.
    OpenBlock,
    /// `}`
    CloseBlock,
    /// `[`, which opens an embedded symbol.
    OpenSymbol,
    /// `]`
    CloseSymbol,
}

impl Letter {
    /// The byte of the letter. It takes no memory.
    pub fn byte(self) -> u8
        ensures { result ≡ letters.byte_of self }
    {
        match self {
            Letter::Straight => b'L',
            Letter::Picture => b'G',
            Letter::Rect => b'B',
            Letter::Circle => b'V',
            Letter::Arc => b'A',
            Letter::Text => b'T',
            Letter::Net => b'N',
            Letter::Bus => b'U',
            Letter::Pin => b'P',
            Letter::Path => b'H',
            Letter::Component => b'C',
            Letter::OpenBlock => b'{',
            Letter::CloseBlock => b'}',
            Letter::OpenSymbol => b'[',
            Letter::CloseSymbol => b']',
        }
    }

    /// The letter that a byte is. It takes no memory.
    pub fn from_byte(byte: u8) -> Option<Letter>
        ensures { result ≡ letters.letter_among letters.letters byte }
    {
        match byte {
            b'L' => Some(Letter::Straight),
            b'G' => Some(Letter::Picture),
            b'B' => Some(Letter::Rect),
            b'V' => Some(Letter::Circle),
            b'A' => Some(Letter::Arc),
            b'T' => Some(Letter::Text),
            b'N' => Some(Letter::Net),
            b'U' => Some(Letter::Bus),
            b'P' => Some(Letter::Pin),
            b'H' => Some(Letter::Path),
            b'C' => Some(Letter::Component),
            b'{' => Some(Letter::OpenBlock),
            b'}' => Some(Letter::CloseBlock),
            b'[' => Some(Letter::OpenSymbol),
            b']' => Some(Letter::CloseSymbol),
            _ => None,
        }
    }

    /// The letter that a field is. It takes no memory.
    ///
    /// `None` exactly where the field is not one byte, or no letter of the table.
    pub fn from_field(field: &[u8]) -> Option<Letter>
        ensures { result ≡ letters.letter_of field.now }
    {
        match field {
            [byte] => Letter::from_byte(*byte),
            _ => None,
        }
    }
}
