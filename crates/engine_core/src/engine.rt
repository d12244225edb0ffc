// A store of rows on several machines.
ghost use Rattle.std.specs.Prelude.{◌≡◌, ◌≤◌, Option, IfSome, length};
ghost use Rattle.engine_core.specs.Calls.{OfTold, TellsOwner, TellsPut, TellsRow, TellsTaking};
ghost use Rattle.engine_core.specs.Worlds.{World};
ghost use Rattle.engine_core.specs.declared.engine.EngineFault.TheVariants.{NoMemory};

use crate::txns::Body;
use std::alloc::{AllocError, AllocFailed};

/// Why a call of a store has no answer.
#[derive(Clone, Copy, Debug, PartialEq, Eq)]
pub enum EngineFault {
    /// No answer came. What was asked may have been done, or may be done later.
    NoAnswer,
    /// Memory ran out, and nothing was asked.
    NoMemory,
}

impl From<AllocError> for EngineFault {
    ghost from_gives = { λ _ e. e ≡ NoMemory };

    fn from(_: AllocError) -> EngineFault {
        EngineFault::NoMemory
    }
}

impl<T: Drop> From<AllocFailed<T>> for EngineFault {
    ghost from_gives = { λ _ e. e ≡ NoMemory };

    fn from(_: AllocFailed<T>) -> EngineFault {
        EngineFault::NoMemory
    }
}

/// What the owner's key says.
#[derive(Clone, Copy, Debug)]
pub struct Owner {
    /// The revision at which it was put; 0 where it never was.
    pub fence: u64,
    /// Who asks put it.
    pub ours: bool,
}

/// What a taking tells.
#[derive(Clone, Copy, Debug)]
pub struct Taken {
    /// The revision at which the owner's key is put.
    pub fence: u64,
    /// How many rows there are.
    pub count: u32,
}

/// The rows of a board on several machines, and the owner's key, which says who may write. A
/// revision counts what is put, of this board and of others.
///
/// Others step between any two calls and within each of them: they may take the board, and who has
/// taken it may put rows behind those that it found.
pub trait Engine: Drop {
    /// What is there, where the store tells it.
    ghost world: { Self → Option World };

    /// The owner's key, as it was at a moment of the call.
    fn owner(&mut self) -> Result<Owner, EngineFault>
        ensures { OfTold (λ w v. TellsOwner w v result) (world self.old) (world self.new) };

    /// The row of a serial, as it was at a moment of the call; `None` where there was none.
    fn row(&mut self, serial: u32) -> Result<Option<Body>, EngineFault>
        ensures { OfTold (λ w v. TellsRow serial w v result) (world self.old) (world self.new) };

    /// Puts the owner's key where it stands at this revision, and counts the rows; `None` where it
    /// does not stand there, and then nothing is put.
    fn take(&mut self, fence: u64) -> Result<Option<Taken>, EngineFault>
        ensures { OfTold (λ w v. TellsTaking fence w v result)
            (world self.old) (world self.new) };

    /// Puts a row where the owner's key stands at this revision; false where it does not stand
    /// there, and then nothing is put.
    fn put(&mut self, fence: u64, serial: u32, body: &Body) -> Result<bool, EngineFault>
        requires { IfSome (world self.old) (λ w. serial ≤ length w.rows) }
        ensures { OfTold (λ w v. TellsPut fence serial body.now w v result)
            (world self.old) (world self.new) };
}
