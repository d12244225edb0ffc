// Why a row is not taken.
ghost use Rattle.std.specs.Prelude.{◌≡◌};
ghost use Rattle.geda_read.specs.declared.refusal.Refusal.TheVariants as refusals;

use std::alloc::AllocError;

/// Why a row is not taken.
#[derive(Clone, Copy, Debug, PartialEq, Eq)]
pub enum Refusal {
    /// It may not stand there.
    Stray,
    /// Memory ran out.
    NoMemory,
}

impl From<AllocError> for Refusal {
    ghost from_gives = { λ _ e. e ≡ refusals.NoMemory };

    fn from(_: AllocError) -> Refusal {
        Refusal::NoMemory
    }
}
