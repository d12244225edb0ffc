// Why a hall comes to no answer.
use case_tables::CaseFault;
use hall_core::OpenFault;
use std::alloc::{AllocError, AllocFailed, Global};

/// Why a hall comes to no answer.
#[derive(Drop)]
pub enum HallFault {
    /// The keeper did not take its store.
    NotAttached,
    /// It did not open.
    NotOpen(OpenFault),
    /// There is no case.
    NoCase(CaseFault),
}

impl From<CaseFault> for HallFault {
    fn from(fault: CaseFault) -> HallFault {
        HallFault::NoCase(fault)
    }
}

impl From<AllocError> for HallFault {
    fn from(_: AllocError) -> HallFault {
        HallFault::NoCase(CaseFault::NoMemory)
    }
}

impl<T: Drop> From<AllocFailed<T>> for HallFault {
    fn from(_: AllocFailed<T>) -> HallFault {
        HallFault::NoCase(CaseFault::NoMemory)
    }
}

/// The line of a fault, where there is a case.
pub fn fault_line(alloc: Global, fault: HallFault) -> Result<String, CaseFault> {
    match fault {
        HallFault::NotAttached => Ok(String::from_str(alloc, "> NotAttached\n")?),
        HallFault::NotOpen(fault) => Ok(format!(in alloc; "> {fault:?}\n")?),
        HallFault::NoCase(fault) => Err(fault),
    }
}
