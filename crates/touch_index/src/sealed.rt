// A conductor that is handed on and never shown.
ghost use Rattle.std.specs.Prelude.{◌≡◌};

use geda_geom::Conductor;
use std::marker::Model;

/// An opaque conductor: its holder cannot look into it, copy it or compare it (docs/RULES.md,
/// "Touching").
#[derive(Drop)]
pub struct Sealed {
    conductor: Conductor,
}

impl Model for Sealed {
    ghost use Rattle.geda_geom.specs.declared.conductor.Conductor.{Conductor};

    ghost Value = { Conductor };

    ghost view = { λ s. s.conductor };
}

impl Sealed {
    /// Seals a conductor. It takes no memory.
    pub fn new(conductor: Conductor) -> Sealed
        ensures sealed { result ≡ conductor }
    {
        Sealed { conductor }
    }

    /// The conductor, for the index alone.
    pub(crate) fn open(self) -> Conductor
        ensures { result ≡ self }
    {
        self.conductor
    }
}
