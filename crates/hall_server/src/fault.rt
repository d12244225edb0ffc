// Why a hall is not served.
ghost use Rattle.std.specs.Prelude.{◌≡◌};
ghost use Rattle.hall_server.specs.declared.fault.ServeFault.TheVariants.{GateFault as gate_fault, NoMemory, OutputFault};
ghost use Rattle.hall_server.specs.Faults.{FromKeeper, FromOpening};

use gates::GateFault;
use hall_core::OpenFault;
use keeper_core::KeepFault;
use sinks::SinkFault;
use std::alloc::AllocError;

/// Why a hall is not served.
#[derive(Debug, Drop)]
pub enum ServeFault {
    /// The gate was not bound.
    GateFault,
    /// The keeper failed.
    KeeperFault,
    /// The rules do not accept a row of the store after those before it.
    RowRefused {
        /// The serial of the first such row, which counts from 0.
        serial: u32,
    },
    /// A seat was refused its place at the board.
    NoPlace,
    /// The output failed.
    OutputFault,
    /// Memory ran out.
    NoMemory,
}

impl From<AllocError> for ServeFault {
    ghost from_gives = { λ _ e. e ≡ NoMemory };

    fn from(_: AllocError) -> ServeFault {
        ServeFault::NoMemory
    }
}

impl From<GateFault> for ServeFault {
    ghost from_gives = { λ _ e. e ≡ gate_fault };

    fn from(_: GateFault) -> ServeFault {
        ServeFault::GateFault
    }
}

impl From<SinkFault> for ServeFault {
    ghost from_gives = { λ _ e. e ≡ OutputFault };

    fn from(_: SinkFault) -> ServeFault {
        ServeFault::OutputFault
    }
}

impl From<KeepFault> for ServeFault {
    ghost from_gives = { FromKeeper };

    fn from(fault: KeepFault) -> ServeFault {
        match fault {
            KeepFault::Failed => ServeFault::KeeperFault,
            KeepFault::NoMemory => ServeFault::NoMemory,
        }
    }
}

impl From<OpenFault> for ServeFault {
    ghost from_gives = { FromOpening };

    fn from(fault: OpenFault) -> ServeFault {
        match fault {
            OpenFault::KeeperFault => ServeFault::KeeperFault,
            OpenFault::RowRefused { serial } => ServeFault::RowRefused { serial },
            OpenFault::NoPlace => ServeFault::NoPlace,
            OpenFault::NoMemory => ServeFault::NoMemory,
        }
    }
}
