// Where bytes go.
ghost use Rattle.std.specs.Prelude.{ℕ, List, Option};
ghost use Rattle.geda_defs.specs.Causes.{HasCause};
ghost use Rattle.geda_defs.specs.Contents.{Writes};

/// Why a piece was not written whole.
#[derive(Clone, Copy, Debug, PartialEq, Eq)]
pub enum SinkFault {
    /// The call failed.
    Failed,
}

/// Where bytes go.
pub trait Sink {
    /// The bytes that were written, where the sink tells them.
    ghost written: { Self → Option (List ℕ) };

    /// How often a call failed. The count never falls, and stays at the end of its type.
    ghost faults: { Self → ℕ };

    /// Writes all the bytes of a piece.
    ///
    /// `Failed` only where the count of faults rose; a prefix of the piece is then written.
    fn write(&mut self, piece: &[u8]) -> Result<(), SinkFault>
        ensures bytes { Writes (written self.old) (written self.new) piece.now result }
        ensures cause { HasCause (faults self.old) (faults self.new) result SinkFault.Failed };
}
