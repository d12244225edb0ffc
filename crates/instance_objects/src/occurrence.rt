// The objects of a project as they stand in the instances of its sheets.
use std::cmp::Ordering;
use std::marker::Model;

/// An object in an instance of its sheet. Occurrences are ordered by route, number by number, then
/// by id.
#[derive(Debug, Drop)]
pub struct Occurrence<'a> {
    /// The route of the instance, lent.
    pub route: &'a [u32],
    /// The place of the instance among all instances, counted from 0. It is not compared.
    pub instance: usize,
    /// The id of the object.
    pub id: u32,
}

impl<'a> Model for Occurrence<'a> {
    ghost use Rattle.instance_objects.specs.Occurrences.{OccurrenceData};

    ghost Value = { OccurrenceData };

    ghost view = { λ o. record { route = o.route.now; instance = o.instance; id = o.id } };
}

impl<'a> PartialEq for Occurrence<'a> {
    ghost use Rattle.std.proofs.Common.{rules};
    ghost use Rattle.std.specs.Cmp.Rules.{comparing};
    ghost use Rattle.std.specs.Ordering.{eq_by_cmp};
    ghost use Rattle.instance_objects.specs.Occurrences.{by_occurrence};

    ghost eq = { eq_by_cmp by_occurrence };

    ghost laws = { Prim.search (comparing, rules) };

    fn eq(&self, other: &Occurrence<'a>) -> bool {
        self.cmp(other).is_eq()
    }
}

impl<'a> Eq for Occurrence<'a> {
    ghost use Rattle.std.proofs.Common.{rules};
    ghost use Rattle.std.specs.Cmp.Rules.{comparing};

    ghost laws = { Prim.search (comparing, rules) };
}

impl<'a> PartialOrd for Occurrence<'a> {
    ghost use Rattle.std.proofs.Common.{rules};
    ghost use Rattle.std.specs.Cmp.{partial_order_from_own_ties};
    ghost use Rattle.std.specs.Cmp.Rules.{comparing};
    ghost use Rattle.std.specs.Ordering.{as_partial_cmp};
    ghost use Rattle.instance_objects.specs.Occurrences.{by_occurrence};

    ghost partial_cmp = { as_partial_cmp by_occurrence };

    ghost laws = { partial_order_from_own_ties
        (Prim.search (comparing, rules)) (Prim.search (comparing, rules)) };

    fn partial_cmp(&self, other: &Occurrence<'a>) -> Option<Ordering> {
        Some(self.cmp(other))
    }
}

impl<'a> Ord for Occurrence<'a> {
    ghost use Rattle.std.proofs.Common.{rules};
    ghost use Rattle.std.specs.Cmp.Rules.{comparing};
    ghost use Rattle.instance_objects.specs.Occurrences.{by_occurrence};

    ghost cmp = { by_occurrence };

    ghost total = { Prim.search (comparing, rules) };

    ghost matches_partial_cmp = { Prim.search (comparing, rules) };

    ghost matches_eq = { Prim.search (comparing, rules) };

    fn cmp(&self, other: &Occurrence<'a>) -> Ordering {
        let by_route = self.route.cmp(other.route);
        by_route.then(self.id.cmp(&other.id))
    }
}
