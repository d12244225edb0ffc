// Why an object is not moved or turned.
use std::alloc::AllocError;

/// Why an object is not moved or turned.
#[derive(Clone, Copy, Debug, PartialEq, Eq)]
pub enum MoveFault {
    /// The object is of a kind that is not moved, or not turned.
    NotOnKind,
    /// A coordinate would leave -200,000 to 200,000.
    OutOfRange,
    /// Memory ran out.
    NoMemory,
}

impl From<AllocError> for MoveFault {
    ghost use Rattle.std.specs.Prelude.{◌≡◌};
    ghost use Rattle.edit_move.specs.declared.fault.MoveFault.TheVariants.{NoMemory};

    ghost from_gives = { λ _ e. e ≡ NoMemory };

    fn from(_: AllocError) -> MoveFault {
        MoveFault::NoMemory
    }
}
