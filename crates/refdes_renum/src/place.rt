// Where components stand, in the order in which they get numbers.
use geda_model::Name;
use std::cmp::Ordering;

/// Where an object stands. Places are ordered by the name of the sheet, then by id.
#[derive(Debug, Drop)]
pub(crate) struct Place {
    /// The sheet.
    pub(crate) sheet: Name,
    /// The id of the object.
    pub(crate) id: u32,
}

impl PartialEq for Place {
    ghost use Rattle.std.specs.Cmp.Rules.{comparing};
    ghost use Rattle.std.specs.Ordering.{eq_by_cmp};
    ghost use Rattle.std.proofs.Common.{rules};
    ghost use Rattle.refdes_renum.specs.Renumbering.{by_place};

    ghost eq = { eq_by_cmp by_place };

    ghost laws = { Prim.search (comparing, rules) };

    fn eq(&self, other: &Place) -> bool {
        self.cmp(other) == Ordering::Equal
    }
}

impl Eq for Place {
    ghost use Rattle.std.specs.Cmp.Rules.{comparing};
    ghost use Rattle.std.proofs.Common.{rules};

    ghost laws = { Prim.search (comparing, rules) };
}

impl PartialOrd for Place {
    ghost use Rattle.std.specs.Cmp.{partial_order_from_own_ties};
    ghost use Rattle.std.specs.Cmp.Rules.{comparing};
    ghost use Rattle.std.specs.Ordering.{as_partial_cmp};
    ghost use Rattle.std.specs.Prelude.{Some};
    ghost use Rattle.std.proofs.Common.{rules};
    ghost use Rattle.refdes_renum.specs.Renumbering.{by_place};

    ghost partial_cmp = { as_partial_cmp by_place };

    ghost laws = { partial_order_from_own_ties (Prim.search (comparing, rules))
        (Prim.search (comparing, rules)) };

    fn partial_cmp(&self, other: &Place) -> Option<Ordering> {
        Some(self.cmp(other))
    }
}

impl Ord for Place {
    ghost use Rattle.std.specs.Cmp.Rules.{comparing};
    ghost use Rattle.std.proofs.Common.{rules};
    ghost use Rattle.refdes_renum.specs.Renumbering.{by_place};

    ghost cmp = { by_place };

    ghost total = { Prim.search (comparing, rules) };

    ghost matches_partial_cmp = { Prim.search (comparing, rules) };

    ghost matches_eq = { Prim.search (comparing, rules) };

    fn cmp(&self, other: &Place) -> Ordering {
        self.sheet.cmp(&other.sheet).then(self.id.cmp(&other.id))
    }
}
