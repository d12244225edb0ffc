// Why a net list has no SPICE text.
use geda_model::Line;
use std::alloc::{AllocError, AllocFailed};

/// Why a net list has no SPICE text. Each fault names the package by its printed refdes.
#[derive(Debug, Drop)]
pub enum SpiceFault {
    /// An earlier card has the same name without regard to ASCII case.
    NameClash {
        /// The printed refdes.
        refdes: Line,
    },
    /// The pin numbers are not exactly those of the card's letter.
    PinSet {
        /// The printed refdes.
        refdes: Line,
    },
    /// A pin is a member of two nets.
    TwoNets {
        /// The printed refdes.
        refdes: Line,
    },
    /// The package has neither value nor device.
    NoValue {
        /// The printed refdes.
        refdes: Line,
    },
    /// Memory ran out.
    NoMemory,
}

impl From<AllocError> for SpiceFault {
    ghost use Rattle.std.specs.Prelude.{◌≡◌};
    ghost use Rattle.spice_out.specs.declared.fault.SpiceFault.TheVariants.{NoMemory};

    ghost from_gives = { λ _ e. e ≡ NoMemory };

    fn from(_: AllocError) -> SpiceFault {
        SpiceFault::NoMemory
    }
}

impl<T: Drop> From<AllocFailed<T>> for SpiceFault {
    ghost use Rattle.std.specs.Prelude.{◌≡◌};
    ghost use Rattle.spice_out.specs.declared.fault.SpiceFault.TheVariants.{NoMemory};

    ghost from_gives = { λ _ e. e ≡ NoMemory };

    fn from(_: AllocFailed<T>) -> SpiceFault {
        SpiceFault::NoMemory
    }
}
