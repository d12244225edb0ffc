// The net list as a value.
use crate::member::Member;
use crate::package::Package;
use geda_model::{Block, Items};

/// Members in order of the bytes of the refdes, then of the number, each pair once.
pub type Members = Items<Member>;

/// How a net got its name.
#[derive(Clone, Copy, Debug, PartialEq, Eq)]
pub enum NetSort {
    /// By a name.
    Named,
    /// Without a name: `unnamed_netK`.
    Unnamed,
    /// A single drawn pin without a name: `unconnected_pin-K`.
    Unconnected,
}

/// A net that has at least one member.
#[derive(Debug, Drop)]
pub struct Net {
    /// The printed name.
    pub name: Block,
    /// Where the name comes from.
    pub sort: NetSort,
    /// Whether some name of the net is a global one.
    pub global: bool,
    /// Whether a pin of a no-connection directive stands in it (docs/RULES.md, "No-connection
    /// directives").
    pub directive: bool,
    /// Its members.
    pub members: Members,
}

/// Nets: the named ones by the bytes of the name, then the unnamed and the unconnected ones, each
/// by number.
pub type NetList = Items<Net>;

/// Packages in order of the bytes of the refdes, each once.
pub type Packages = Items<Package>;

/// The net list of a project.
#[derive(Debug, Drop)]
pub struct Nets {
    /// The packages.
    pub packages: Packages,
    /// The nets.
    pub nets: NetList,
}
