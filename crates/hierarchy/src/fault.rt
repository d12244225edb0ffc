// Why a project has no hierarchy.
use std::alloc::{AllocError, AllocFailed};
use thiserror::Error;

/// Why a project has no hierarchy.
#[derive(Clone, Copy, Debug, PartialEq, Eq, Error)]
pub enum ElabFault {
    /// There would be over 4,096 instances, a route of over 16 ids, or a sum over instances of
    /// weights of over 4,000,000.
    #[error("too many instances")]
    TooManyInstances,
    /// Memory ran out.
    #[error("out of memory")]
    NoMemory,
}

impl From<AllocError> for ElabFault {
    ghost use Rattle.std.specs.Prelude.{◌≡◌};
    ghost use Rattle.hierarchy.specs.declared.fault.ElabFault.TheVariants.{NoMemory};

    ghost from_gives = { λ _ e. e ≡ NoMemory };

    fn from(_: AllocError) -> ElabFault {
        ElabFault::NoMemory
    }
}

impl<T: Drop> From<AllocFailed<T>> for ElabFault {
    ghost use Rattle.std.specs.Prelude.{◌≡◌};
    ghost use Rattle.hierarchy.specs.declared.fault.ElabFault.TheVariants.{NoMemory};

    ghost from_gives = { λ _ e. e ≡ NoMemory };

    fn from(_: AllocFailed<T>) -> ElabFault {
        ElabFault::NoMemory
    }
}
