// Why a file gives no matrix.
use std::alloc::{AllocError, AllocFailed};
use thiserror::Error;

/// Why a file gives no matrix.
#[derive(Clone, Copy, Debug, PartialEq, Eq, Error)]
pub enum MatrixFault {
    /// It has over 4,194,304 bytes, or is no TOML document.
    #[error("no TOML document")]
    BadToml,
    /// The document is not the one list `rows` of twelve rows of levels.
    #[error("no rows of a matrix")]
    BadRows,
    /// Memory ran out.
    #[error("out of memory")]
    NoMemory,
}

impl From<AllocError> for MatrixFault {
    ghost use Rattle.std.specs.Prelude.{◌≡◌};
    ghost use Rattle.pin_matrix.specs.declared.fault.MatrixFault.TheVariants.{NoMemory};

    ghost from_gives = { λ _ e. e ≡ NoMemory };

    fn from(_: AllocError) -> MatrixFault {
        MatrixFault::NoMemory
    }
}

impl<T: Drop> From<AllocFailed<T>> for MatrixFault {
    ghost use Rattle.std.specs.Prelude.{◌≡◌};
    ghost use Rattle.pin_matrix.specs.declared.fault.MatrixFault.TheVariants.{NoMemory};

    ghost from_gives = { λ _ e. e ≡ NoMemory };

    fn from(_: AllocFailed<T>) -> MatrixFault {
        MatrixFault::NoMemory
    }
}
