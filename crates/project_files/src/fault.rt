// Why there is no project of the files.
ghost use Rattle.std.specs.Prelude.{◌≡◌};
ghost use Rattle.project_files.specs.Faults.{IsFaultOfFolder};
ghost use Rattle.project_files.specs.steps.Passing.{IsRefusalOf};
ghost use Rattle.project_files.specs.declared.fault.FileFault.TheVariants.{NoMemory};

use crate::folder::FolderFault;
use geda_grammar::ReadKind;
use geda_model::Name;
use geda_read::ReadFault;
use std::alloc::{AllocError, AllocFailed};

/// Why the files of a folder come to no project, or one of them to no sheet or symbol
/// (docs/RULES.md, "The project of the files").
#[derive(Debug, Drop)]
pub enum FileFault {
    /// There is no such file.
    Missing {
        /// Its name.
        file: Name,
    },
    /// The file is refused.
    Refused {
        /// Its name.
        file: Name,
        /// The line of its fault, from 1.
        line: u32,
        /// The kind of its fault.
        kind: ReadKind,
    },
    /// The project has more objects than a project may have.
    TooManyObjects,
    /// The project has more sheets or symbols, or more text, than a project may have.
    ProjectFull,
    /// The folder failed.
    FolderFault,
    /// Memory ran out.
    NoMemory,
}

impl From<AllocError> for FileFault {
    ghost from_gives = { λ _ e. e ≡ NoMemory };

    fn from(_: AllocError) -> FileFault {
        FileFault::NoMemory
    }
}

impl<T: Drop> From<AllocFailed<T>> for FileFault {
    ghost from_gives = { λ _ e. e ≡ NoMemory };

    fn from(_: AllocFailed<T>) -> FileFault {
        FileFault::NoMemory
    }
}

impl From<FolderFault> for FileFault {
    ghost from_gives = { IsFaultOfFolder };

    fn from(fault: FolderFault) -> FileFault {
        match fault {
            FolderFault::Failed => FileFault::FolderFault,
            FolderFault::NoMemory => FileFault::NoMemory,
        }
    }
}

/// The fault of a file that the reader refuses.
pub fn refused(file: Name, fault: ReadFault) -> FileFault
    ensures { IsRefusalOf file fault result }
{
    match fault {
        ReadFault::At { read: kind, line } => FileFault::Refused { file, line, kind },
        ReadFault::NoMemory => FileFault::NoMemory,
    }
}
