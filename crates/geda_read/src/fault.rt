// Why a file is not read.
ghost use Rattle.std.specs.Prelude.{◌≡◌};
ghost use Rattle.geda_read.specs.declared.fault.ReadFault.TheVariants as reading;

use geda_grammar::ReadKind;
use std::alloc::{AllocError, AllocFailed};

/// Why a file is not read.
#[derive(Clone, Copy, Debug, PartialEq, Eq)]
pub enum ReadFault {
    /// The file is refused: for `read`, at `line`, which counts from 1.
    At { read: ReadKind, line: u32 },
    /// Memory ran out.
    NoMemory,
}

impl From<AllocError> for ReadFault {
    ghost from_gives = { λ _ e. e ≡ reading.NoMemory };

    fn from(_: AllocError) -> ReadFault {
        ReadFault::NoMemory
    }
}

impl<T: Drop> From<AllocFailed<T>> for ReadFault {
    ghost from_gives = { λ _ e. e ≡ reading.NoMemory };

    fn from(_: AllocFailed<T>) -> ReadFault {
        ReadFault::NoMemory
    }
}
