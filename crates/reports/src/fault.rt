// Why there is no report.
ghost use Rattle.std.specs.Prelude.{◌≡◌};
ghost use Rattle.reports.specs.declared.fault.ReportFault.TheVariants.{NoMemory};
ghost use Rattle.reports.specs.Faults.{FromElaboration};

use hierarchy::ElabFault;
use std::alloc::{AllocError, AllocFailed};
use thiserror::Error;

/// Why there is no report.
#[derive(Clone, Copy, Debug, PartialEq, Eq, Error)]
pub enum ReportFault {
    /// The project has no sheet of this name.
    #[error("no such sheet")]
    NoSheet,
    /// The project has no symbol of this name.
    #[error("no such symbol")]
    NoSymbol,
    /// The sheets of the project have more instances, or heavier ones, than they may have.
    #[error("too many instances")]
    TooManyInstances,
    /// Memory ran out.
    #[error("out of memory")]
    NoMemory,
}

impl From<AllocError> for ReportFault {
    ghost from_gives = { λ _ e. e ≡ NoMemory };

    fn from(_: AllocError) -> ReportFault {
        ReportFault::NoMemory
    }
}

impl<T: Drop> From<AllocFailed<T>> for ReportFault {
    ghost from_gives = { λ _ e. e ≡ NoMemory };

    fn from(_: AllocFailed<T>) -> ReportFault {
        ReportFault::NoMemory
    }
}

impl From<ElabFault> for ReportFault {
    ghost from_gives = { FromElaboration };

    fn from(fault: ElabFault) -> ReportFault {
        match fault {
            ElabFault::TooManyInstances => ReportFault::TooManyInstances,
            ElabFault::NoMemory => ReportFault::NoMemory,
        }
    }
}
