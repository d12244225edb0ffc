// What joins on a sheet, and its key.
use std::cmp::Ordering;

/// A point of a sheet.
#[derive(Clone, Copy, Debug, PartialEq, Eq)]
pub struct Point {
    /// Across, in mils.
    pub x: i32,
    /// Up, in mils.
    pub y: i32,
}

/// What joins on a sheet.
#[derive(Clone, Copy, Debug, PartialEq, Eq)]
pub enum Conductor {
    /// A net segment from one end to the other.
    Segment { a: Point, b: Point },
    /// The active end of a pin.
    End { at: Point },
}

/// The key of a conductor: the id of its object and, for a pin, its place among the net pins of the
/// symbol, counted from 0; the place of a net segment is 0. Keys are ordered by id, then place.
#[derive(Clone, Copy, Debug, PartialEq, Eq, Hash)]
pub struct Key {
    /// The id of the object, counted from 0.
    pub id: u32,
    /// The place among the pins, counted from 0.
    pub place: u32,
}

impl PartialOrd for Key {
    ghost use Rattle.std.specs.Cmp.{partial_order_from_own_ties};
    ghost use Rattle.std.specs.Cmp.Rules.{comparing};
    ghost use Rattle.std.specs.Ordering.{as_partial_cmp};
    ghost use Rattle.std.specs.Prelude.{Some};
    ghost use Rattle.std.proofs.Common.{rules};
    ghost use Rattle.geda_geom.specs.Keys.{by_key};

    ghost partial_cmp = { as_partial_cmp by_key };

    ghost laws = { partial_order_from_own_ties (Prim.search (comparing, rules))
        (Prim.search (comparing, rules)) };

    fn partial_cmp(&self, other: &Key) -> Option<Ordering> {
        Some(self.cmp(other))
    }
}

impl Ord for Key {
    ghost use Rattle.std.specs.Cmp.Rules.{comparing};
    ghost use Rattle.std.proofs.Common.{rules};
    ghost use Rattle.geda_geom.specs.Keys.{by_key};

    ghost cmp = { by_key };

    ghost total = { Prim.search (comparing, rules) };

    ghost matches_partial_cmp = { Prim.search (comparing, rules) };

    ghost matches_eq = { Prim.search (comparing, rules) };

    fn cmp(&self, other: &Key) -> Ordering {
        self.id.cmp(&other.id).then(self.place.cmp(&other.place))
    }
}
