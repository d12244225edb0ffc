// One connection.
ghost use Rattle.std.specs.Prelude.{◌≡◌, ◌≤◌, ℕ, List, Option};
ghost use Rattle.geda_defs.specs.Causes.{HasCause};
ghost use Rattle.web_heads.specs.Links.{Reads, Writes};

/// Why a call of a link failed.
#[derive(Clone, Copy, Debug, PartialEq, Eq)]
pub enum LinkFault {
    /// The call failed.
    Failed,
}

/// Which bytes the next reads are for.
#[derive(Clone, Copy, Debug, PartialEq, Eq)]
pub enum Part {
    /// A message of which no byte was read.
    Message,
    /// The rest of a head of which bytes were read.
    Head,
    /// A body, or the rest of it.
    Body,
}

/// A connection.
pub trait Link {
    /// The input that is left, where the link tells it.
    ghost input: { Self → Option (List ℕ) };

    /// The output that was written, where the link tells it.
    ghost output: { Self → Option (List ℕ) };

    /// How often a read failed. The count never falls, and stays at the end of its type.
    ghost read_faults: { Self → ℕ };

    /// How often a write failed, likewise.
    ghost write_faults: { Self → ℕ };

    /// Tells which bytes the next reads are for. It takes none.
    ///
    /// Where that is a message of which no byte was read, and only there, the input may end since
    /// the connection goes back to those that wait.
    fn begin(&mut self, part: Part)
        ensures input { input self.new ≡ input self.old }
        ensures output { output self.new ≡ output self.old }
        ensures read_faults { read_faults self.new ≡ read_faults self.old }
        ensures write_faults { write_faults self.new ≡ write_faults self.old };

    /// Takes bytes of the input into the room, and answers how many. It takes none into room that
    /// is not empty only where the input is at its end.
    ///
    /// `Failed` only where the count of failed reads rose; nothing is taken then.
    fn read(&mut self, room: &mut [u8]) -> Result<usize, LinkFault>
        ensures input { Reads (input self.old) (input self.new) room.old room.new result }
        ensures output { output self.new ≡ output self.old }
        ensures cause { HasCause (read_faults self.old) (read_faults self.new)
            result LinkFault.Failed }
        ensures write_faults { write_faults self.old ≤ write_faults self.new };

    /// Writes all bytes of a piece.
    ///
    /// `Failed` only where the count of failed writes rose; a prefix of the piece has gone out
    /// then.
    fn write(&mut self, piece: &[u8]) -> Result<(), LinkFault>
        ensures output { Writes (output self.old) (output self.new) piece.now result }
        ensures input { input self.new ≡ input self.old }
        ensures cause { HasCause (write_faults self.old) (write_faults self.new)
            result LinkFault.Failed }
        ensures read_faults { read_faults self.old ≤ read_faults self.new };
}
