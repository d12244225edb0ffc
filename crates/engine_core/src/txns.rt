// What is asked of a store, and what goes on in it between two calls.
ghost use Rattle.std.specs.Prelude.{◌≡◌, IfOk};

use std::alloc::{AllocError, Global};
use std::marker::Model;

/// The bytes of a row.
#[derive(Debug, Drop)]
pub struct Body {
    bytes: Vec<u8>,
}

impl Model for Body {
    ghost use Rattle.std.specs.Prelude.{List, ℕ};

    ghost Value = { List ℕ };

    ghost view = { λ b. b.bytes.items };
}

impl Body {
    /// The body of these bytes. It takes no memory.
    pub fn new(bytes: Vec<u8>) -> Body
        ensures { result ≡ bytes.items }
    {
        Body { bytes }
    }

    /// The bytes. It takes no memory.
    pub fn as_slice(&self) -> &[u8]
        ensures { result.now ≡ self.now }
    {
        self.bytes.as_slice()
    }

    /// A copy.
    pub fn copy(&self, alloc: Global) -> Result<Body, AllocError>
        ensures { IfOk result (λ b. b ≡ self.now) }
    {
        let mut bytes = Vec::new(alloc);
        bytes.extend_from_slice(self.bytes.as_slice())?;
        Ok(Body { bytes })
    }
}

/// What a transaction does where the owner's key stands at its revision.
#[derive(Debug, Drop)]
pub enum Act {
    /// Puts the owner's key anew, as that of who asks.
    Take,
    /// Puts a row.
    Put {
        /// In the place of this serial, or behind the last row.
        serial: u32,
        /// The row.
        body: Body,
    },
}

/// What goes on in a store between two calls of who asks here, and within each.
#[derive(Debug, Drop)]
pub enum Event {
    /// A transaction that was asked here and not answered is done.
    Late {
        /// Its place among those, from 0.
        place: usize,
    },
    /// Another one takes the board.
    Taken,
    /// Another one, who has taken the board, puts a row that was not there when it took it.
    Wrote {
        /// Its serial.
        serial: u32,
        /// The row.
        body: Body,
    },
    /// Something is put that is not of this board.
    Other,
}
