// Arguments that are taken as they stand.
ghost use Rattle.std.specs.Prelude.{◌≡◌, IfOk};

use std::alloc::{AllocError, Global};
use std::marker::Model;

/// An argument that is taken as it stands: an address, or the name of a store. Contracts see its
/// bytes.
#[derive(Debug, Drop)]
pub struct Argument {
    text: String,
}

impl Model for Argument {
    ghost use Rattle.std.specs.Prelude.{List, ℕ};
    ghost use Rattle.std.specs.String.{string_bytes};

    ghost Value = { List ℕ };

    ghost view = { λ a. string_bytes a.text };
}

impl Argument {
    /// The argument that a word is.
    pub(crate) fn new(alloc: Global, word: &str) -> Result<Argument, AllocError>
        ensures { IfOk result (λ argument. argument ≡ word.now) }
    {
        Ok(Argument {
            text: String::from_str(alloc, word)?,
        })
    }

    /// Its text. It takes no memory.
    pub fn as_str(&self) -> &str
        ensures text { result.now ≡ self.now }
    {
        self.text.as_str()
    }
}
