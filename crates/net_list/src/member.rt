// Pins as members of nets.
use attr_rules::PinKind;
use geda_model::{Line, Word};

/// A pin of a package in a net.
#[derive(Debug, Drop)]
pub struct Member {
    /// The printed refdes of the package.
    pub refdes: Line,
    /// The number of the pin.
    pub pin: Word,
    /// The kind of the first pin of that refdes and number in the net.
    pub kind: PinKind,
}
