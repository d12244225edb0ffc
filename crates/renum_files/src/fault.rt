// Why a project is not renumbered.
ghost use Rattle.std.specs.Prelude.{◌≡◌};
ghost use Rattle.renum_files.specs.declared.fault.RenumberFault.TheVariants.{NoMemory};

use std::alloc::{AllocError, AllocFailed};

/// Why a project is not renumbered.
#[derive(Clone, Copy, Debug, PartialEq, Eq)]
pub enum RenumberFault {
    /// With its numbers the project has more text than a project may have.
    ProjectFull,
    /// Memory ran out.
    NoMemory,
}

impl From<AllocError> for RenumberFault {
    ghost from_gives = { λ _ e. e ≡ NoMemory };

    fn from(_: AllocError) -> RenumberFault {
        RenumberFault::NoMemory
    }
}

impl<T: Drop> From<AllocFailed<T>> for RenumberFault {
    ghost from_gives = { λ _ e. e ≡ NoMemory };

    fn from(_: AllocFailed<T>) -> RenumberFault {
        RenumberFault::NoMemory
    }
}
