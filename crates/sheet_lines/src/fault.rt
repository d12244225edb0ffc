// Why a line is not read.
ghost use Rattle.std.specs.Prelude.{◌≡◌};
ghost use Rattle.sheet_lines.specs.declared.fault.LineFault.TheVariants as lines;

use geda_grammar::ReadKind;
use geda_model::NameFault;
use std::alloc::AllocError;

/// Why a line, by itself or as one that follows a shape's, is not read.
#[derive(Clone, Copy, Debug, PartialEq, Eq)]
pub enum LineFault {
    /// The line is refused for this.
    Refused(ReadKind),
    /// Memory ran out.
    NoMemory,
}

impl From<AllocError> for LineFault {
    ghost from_gives = { λ _ e. e ≡ lines.NoMemory };

    fn from(_: AllocError) -> LineFault {
        LineFault::NoMemory
    }
}

impl From<NameFault> for LineFault {
    ghost use Rattle.sheet_lines.specs.SheetLines.{SameFault};

    ghost from_gives = { SameFault };

    fn from(fault: NameFault) -> LineFault {
        match fault {
            NameFault::NotAName => LineFault::Refused(ReadKind::OutOfRange),
            NameFault::NoMemory => LineFault::NoMemory,
        }
    }
}
