// Conductors as they are put into rows, and as rows keep them.
use crate::conductors::PortPins;
use attr_rules::PinKind;
use geda_geom::{Conductor, Key};
use geda_model::{Block, Items, Word};

/// A pin of a listed part.
#[derive(Debug, Drop)]
pub struct RowMember {
    /// The number of the pin.
    pub pin: Word,
    /// The place of the part among the listed ones, counted from 0.
    pub part: usize,
    /// The kind of the pin.
    pub kind: PinKind,
}

/// What each conductor has.
#[derive(Debug, Drop)]
pub struct FlatRow {
    /// The place of its instance among all instances, counted from 0.
    pub instance: usize,
    /// The object's id and the pin's place; the place of a hidden pin is 0.
    pub key: Key,
    /// What is drawn; none for a hidden pin.
    pub shape: Option<Conductor>,
    /// Whether it is a pin of a no-connection directive.
    pub directive: bool,
}

/// A segment, the active end of a pin, or a hidden pin, as it stands in an instance of its sheet,
/// with all that it has.
#[derive(Debug, Drop)]
pub struct NewConductor {
    /// The place of its instance among all instances, counted from 0.
    pub instance: usize,
    /// The object's id and the pin's place; the place of a hidden pin is 0.
    pub key: Key,
    /// What is drawn; none for a hidden pin.
    pub shape: Option<Conductor>,
    /// The names of a pin by values of `net`.
    pub global_names: Items<Block>,
    /// The names of a segment by `netname`.
    pub drawn_names: Items<Block>,
    /// The member that a pin of a listed part is.
    pub member: Option<RowMember>,
    /// For a pin with a label of a component that leads down: the pins of that label.
    pub leads_down: Option<PortPins>,
    /// For a pin of a port: the pins above for which the port stands.
    pub leads_up: Option<PortPins>,
    /// Whether it is a pin of a no-connection directive.
    pub directive: bool,
}
