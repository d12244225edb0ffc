// Texts of which the short ones stand in the value itself.
ghost use Rattle.std.specs.Prelude.{◌≡◌, ◌≤◌, IfOk, length};
ghost use Rattle.std.specs.String.{string_bytes};

use std::alloc::{AllocError, Global};
use std::marker::Model;
use std::str;

/// So many bytes stand in the value: those of most attributes, words and names.
const MOST_SHORT: usize = 24;

/// Bytes in the value. They are aligned as a `String` is, so that a text moves as five numbers,
/// wherever its bytes stand.
#[derive(Clone, Copy, Debug)]
struct Room {
    bytes: [u8; 24],
    /// None: it aligns the bytes.
    aligned: [u64; 0],
}

/// Where the bytes of a text stand.
#[derive(Debug, Drop)]
enum Place {
    /// In the value: so many of these bytes, from the first on.
    Here(u8, Room),
    /// In memory.
    There(String),
}

/// Any UTF-8 text. One of at most 24 bytes takes no memory.
#[derive(Debug, Drop)]
pub(crate) struct ShortText {
    place: Place,
}

impl Model for ShortText {
    ghost use Rattle.std.specs.Prelude.{List, ℕ};
    ghost use Rattle.geda_model.specs.steps.ShortTexts.{IsPlace, bytes_at};

    ghost Value = { List ℕ };

    ghost view = { λ t. bytes_at t.place };

    ghost invariant = { λ t. IsPlace t.place };
}

impl ShortText {
    /// A short text. It takes no memory.
    #[inline(always)]
    fn here(text: &str) -> ShortText
        requires { length text.now ≤ 24 }
        ensures { result ≡ text.now }
    {
        let mut bytes = [0; 24];
        bytes[..text.len()].copy_from_slice(text.as_bytes());
        ShortText {
            place: Place::Here(text.len() as u8, Room { bytes, aligned: [] }),
        }
    }

    /// A copy of the text.
    pub(crate) fn new(alloc: Global, text: &str) -> Result<ShortText, AllocError>
        ensures { IfOk result (λ t. t ≡ text.now) }
    {
        if text.len() <= MOST_SHORT {
            return Ok(ShortText::here(text));
        }
        let text = String::from_str(alloc, text)?;
        Ok(ShortText {
            place: Place::There(text),
        })
    }

    /// The text itself. It takes no memory.
    pub(crate) fn from_string(text: String) -> ShortText
        ensures { result ≡ string_bytes text }
    {
        if text.len() <= MOST_SHORT {
            return ShortText::here(text.as_str());
        }
        ShortText {
            place: Place::There(text),
        }
    }

    /// The text. It takes no memory.
    #[inline(always)]
    pub(crate) fn as_str(&self) -> &str
        ensures { result.now ≡ self.now }
    {
        match &self.place {
            // The model says that these bytes are UTF-8.
            Place::Here(len, room) => unsafe {
                str::from_utf8_unchecked(&room.bytes[..*len as usize])
            },
            Place::There(text) => text.as_str(),
        }
    }
}

impl Clone for ShortText {
    ghost use Rattle.std.specs.Prelude.{◌≡◌};

    ghost is_clone = { λ x y. y ≡ x };

    fn clone(&self) -> Result<ShortText, AllocError> {
        let place = match &self.place {
            Place::Here(len, room) => Place::Here(*len, *room),
            Place::There(text) => Place::There(text.clone()?),
        };
        Ok(ShortText { place })
    }
}
