// Why the program ends otherwise than with an answer.
ghost use Rattle.std.specs.Prelude.{◌≡◌};
ghost use Rattle.gafd_run.specs.Faults.{circuit_fault, renumber_fault, run_fault, serve_fault};
ghost use Rattle.gafd_run.specs.Faults.{table_file_fault};
ghost use Rattle.gafd_run.specs.Faults.{storing_fault};
ghost use Rattle.gafd_run.specs.steps.Passing.{FromElaboration, FromFolder, FromWords};
ghost use Rattle.gafd_run.specs.declared.fault.RunFault.TheVariants.{NoMemory, OutputFault};

use edit_entries::EditFault;
use geda_grammar::ReadKind;
use geda_model::{Line, Name};
use hall_server::ServeFault;
use hierarchy::ElabFault;
use option_words::WordFault;
use project_files::{FileFault, FolderFault};
use renum_files::RenumberFault;
use sinks::SinkFault;
use spice_out::SpiceFault;
use std::alloc::{AllocError, AllocFailed};
use store_copy::StoringFault;
use table_files::{TableFileFault, TableKind};

/// Why the program ends otherwise than with an answer (docs/FORMATS.md, "Statuses").
#[derive(Debug, Drop)]
pub enum RunFault {
    /// There is no such file.
    Missing {
        /// Its name.
        file: Name,
    },
    /// The file is refused.
    Refused {
        /// Its name.
        file: Name,
        /// The line of its fault, from 1.
        line: u32,
        /// The kind of its fault.
        kind: ReadKind,
    },
    /// An edit of a sheet is refused.
    EditRefused {
        /// The name of the sheet's file.
        file: Name,
        /// Why.
        fault: EditFault,
    },
    /// A table is refused.
    TableRefused {
        /// The name of its file.
        file: Name,
        /// The record of its fault, from 1.
        row: u32,
        /// The kind of its fault.
        kind: TableKind,
    },
    /// The file of the matrix is no TOML document, or too long.
    BadToml {
        /// Its name.
        file: Name,
    },
    /// The file of the matrix has other rows than those of a matrix.
    BadRows {
        /// Its name.
        file: Name,
    },
    /// The project has more objects than a project may have.
    TooManyObjects,
    /// The project has more sheets or symbols, or more text, than a project may have.
    ProjectFull,
    /// The sheets of the project have more instances, or heavier ones, than they may have.
    TooManyInstances,
    /// The SPICE card of a package has the name of an earlier one, in whatever letters.
    NameClash {
        /// The refdes of the package.
        refdes: Line,
    },
    /// A package has not exactly the pins of its SPICE card.
    PinSet {
        /// The refdes of the package.
        refdes: Line,
    },
    /// A pin of a package with a SPICE card is a member of two nets.
    TwoNets {
        /// The refdes of the package.
        refdes: Line,
    },
    /// A package with a SPICE card has neither value nor device.
    NoValue {
        /// The refdes of the package.
        refdes: Line,
    },
    /// The arguments ask for no command.
    Usage,
    /// The folder failed.
    FolderFault,
    /// The output failed.
    OutputFault,
    /// The keeper failed.
    KeeperFault,
    /// The rules do not accept a stored row.
    RowRefused {
        /// The serial of the first such row, which counts from 0.
        serial: u32,
    },
    /// The database has another row than the store.
    RowDiffers {
        /// The serial of the first such row, which counts from 0.
        serial: u32,
    },
    /// The gate failed.
    GateFault,
    /// A seat was refused its place at the board.
    NoPlace,
    /// Memory ran out.
    NoMemory,
}

impl From<AllocError> for RunFault {
    ghost from_gives = { λ _ e. e ≡ NoMemory };

    fn from(_: AllocError) -> RunFault {
        RunFault::NoMemory
    }
}

impl<T: Drop> From<AllocFailed<T>> for RunFault {
    ghost from_gives = { λ _ e. e ≡ NoMemory };

    fn from(_: AllocFailed<T>) -> RunFault {
        RunFault::NoMemory
    }
}

impl From<SinkFault> for RunFault {
    ghost from_gives = { λ _ e. e ≡ OutputFault };

    fn from(_: SinkFault) -> RunFault {
        RunFault::OutputFault
    }
}

impl From<FolderFault> for RunFault {
    ghost from_gives = { FromFolder };

    fn from(fault: FolderFault) -> RunFault {
        match fault {
            FolderFault::Failed => RunFault::FolderFault,
            FolderFault::NoMemory => RunFault::NoMemory,
        }
    }
}

impl From<FileFault> for RunFault {
    ghost from_gives = { λ fault e. e ≡ run_fault fault };

    fn from(fault: FileFault) -> RunFault {
        match fault {
            FileFault::Missing { file } => RunFault::Missing { file },
            FileFault::Refused { file, line, kind } => RunFault::Refused { file, line, kind },
            FileFault::TooManyObjects => RunFault::TooManyObjects,
            FileFault::ProjectFull => RunFault::ProjectFull,
            FileFault::FolderFault => RunFault::FolderFault,
            FileFault::NoMemory => RunFault::NoMemory,
        }
    }
}

impl From<WordFault> for RunFault {
    ghost from_gives = { FromWords };

    fn from(fault: WordFault) -> RunFault {
        match fault {
            WordFault::Usage => RunFault::Usage,
            WordFault::NoMemory => RunFault::NoMemory,
        }
    }
}

impl From<ElabFault> for RunFault {
    ghost from_gives = { FromElaboration };

    fn from(fault: ElabFault) -> RunFault {
        match fault {
            ElabFault::TooManyInstances => RunFault::TooManyInstances,
            ElabFault::NoMemory => RunFault::NoMemory,
        }
    }
}

impl From<SpiceFault> for RunFault {
    ghost from_gives = { λ fault e. e ≡ circuit_fault fault };

    fn from(fault: SpiceFault) -> RunFault {
        match fault {
            SpiceFault::NameClash { refdes } => RunFault::NameClash { refdes },
            SpiceFault::PinSet { refdes } => RunFault::PinSet { refdes },
            SpiceFault::TwoNets { refdes } => RunFault::TwoNets { refdes },
            SpiceFault::NoValue { refdes } => RunFault::NoValue { refdes },
            SpiceFault::NoMemory => RunFault::NoMemory,
        }
    }
}

impl From<RenumberFault> for RunFault {
    ghost from_gives = { λ fault e. e ≡ renumber_fault fault };

    fn from(fault: RenumberFault) -> RunFault {
        match fault {
            RenumberFault::ProjectFull => RunFault::ProjectFull,
            RenumberFault::NoMemory => RunFault::NoMemory,
        }
    }
}

impl From<TableFileFault> for RunFault {
    ghost from_gives = { λ fault e. e ≡ table_file_fault fault };

    fn from(fault: TableFileFault) -> RunFault {
        match fault {
            TableFileFault::Refused { file, line, kind } => RunFault::Refused { file, line, kind },
            TableFileFault::EditRefused { file, fault } => RunFault::EditRefused { file, fault },
            TableFileFault::TableRefused { file, row, kind } => {
                RunFault::TableRefused { file, row, kind }
            }
            TableFileFault::NoMemory => RunFault::NoMemory,
        }
    }
}

impl From<ServeFault> for RunFault {
    ghost from_gives = { λ fault e. e ≡ serve_fault fault };

    fn from(fault: ServeFault) -> RunFault {
        match fault {
            ServeFault::GateFault => RunFault::GateFault,
            ServeFault::KeeperFault => RunFault::KeeperFault,
            ServeFault::RowRefused { serial } => RunFault::RowRefused { serial },
            ServeFault::NoPlace => RunFault::NoPlace,
            ServeFault::OutputFault => RunFault::OutputFault,
            ServeFault::NoMemory => RunFault::NoMemory,
        }
    }
}

impl From<StoringFault> for RunFault {
    ghost from_gives = { λ fault e. e ≡ storing_fault fault };

    fn from(fault: StoringFault) -> RunFault {
        match fault {
            StoringFault::KeeperFault => RunFault::KeeperFault,
            StoringFault::RowRefused { serial } => RunFault::RowRefused { serial },
            StoringFault::RowDiffers { serial } => RunFault::RowDiffers { serial },
            StoringFault::OutputFault => RunFault::OutputFault,
            StoringFault::NoMemory => RunFault::NoMemory,
        }
    }
}
