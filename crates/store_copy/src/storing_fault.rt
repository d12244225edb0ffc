// Why a store is not copied.
ghost use Rattle.std.specs.Prelude.{◌≡◌};
ghost use Rattle.store_copy.specs.declared.storing_fault.StoringFault.TheVariants.{NoMemory, OutputFault};
ghost use Rattle.store_copy.specs.Faults.{FromCopying, FromEitherKeeper};

use crate::fault::StoreFault;
use keeper_core::KeepFault;
use sinks::SinkFault;
use std::alloc::AllocError;

/// Why a store is not copied.
#[derive(Debug, Drop)]
pub enum StoringFault {
    /// One of the keepers failed.
    KeeperFault,
    /// The rules do not accept a row of the store.
    RowRefused {
        /// The serial of the first such row, which counts from 0.
        serial: u32,
    },
    /// The database has another row.
    RowDiffers {
        /// The serial of the first such row, which counts from 0.
        serial: u32,
    },
    /// The output failed.
    OutputFault,
    /// Memory ran out.
    NoMemory,
}

impl From<AllocError> for StoringFault {
    ghost from_gives = { λ _ e. e ≡ NoMemory };

    fn from(_: AllocError) -> StoringFault {
        StoringFault::NoMemory
    }
}

impl From<SinkFault> for StoringFault {
    ghost from_gives = { λ _ e. e ≡ OutputFault };

    fn from(_: SinkFault) -> StoringFault {
        StoringFault::OutputFault
    }
}

impl From<KeepFault> for StoringFault {
    ghost from_gives = { FromEitherKeeper };

    fn from(fault: KeepFault) -> StoringFault {
        match fault {
            KeepFault::Failed => StoringFault::KeeperFault,
            KeepFault::NoMemory => StoringFault::NoMemory,
        }
    }
}

impl From<StoreFault> for StoringFault {
    ghost from_gives = { FromCopying };

    fn from(fault: StoreFault) -> StoringFault {
        match fault {
            StoreFault::FromFault => StoringFault::KeeperFault,
            StoreFault::ToFault => StoringFault::KeeperFault,
            StoreFault::RowRefused { serial } => StoringFault::RowRefused { serial },
            StoreFault::Differs { serial } => StoringFault::RowDiffers { serial },
            StoreFault::NoMemory => StoringFault::NoMemory,
        }
    }
}
