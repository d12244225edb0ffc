// Two texts as one key.
use std::cmp::Ordering;
use std::hash::{Hash, Hasher};
use std::marker::Model;

/// A refdes, and a pin number or a slot, lent. Ordered by the bytes of the first, then of the
/// second.
#[derive(Debug, Drop)]
pub struct PairKey<'a> {
    /// The refdes.
    pub first: &'a str,
    /// The pin number or the slot.
    pub second: &'a str,
}

impl<'a> Model for PairKey<'a> {
    ghost use Rattle.text_tallies.specs.PairSets.{PairData};

    ghost Value = { PairData };

    ghost view = { λ p. record { first = p.first.now; second = p.second.now } };
}

impl<'a> PartialEq for PairKey<'a> {
    ghost use Rattle.std.proofs.Common.{rules};
    ghost use Rattle.std.specs.Cmp.Rules.{comparing};
    ghost use Rattle.std.specs.Ordering.{eq_by_cmp};
    ghost use Rattle.text_tallies.specs.PairSets.{by_pair};

    ghost eq = { eq_by_cmp by_pair };

    ghost laws = { Prim.search (comparing, rules) };

    fn eq(&self, other: &PairKey<'a>) -> bool {
        self.cmp(other).is_eq()
    }
}

impl<'a> Eq for PairKey<'a> {
    ghost use Rattle.std.proofs.Common.{rules};
    ghost use Rattle.std.specs.Cmp.Rules.{comparing};

    ghost laws = { Prim.search (comparing, rules) };
}

impl<'a> PartialOrd for PairKey<'a> {
    ghost use Rattle.std.specs.Prelude.{Some};
    ghost use Rattle.std.proofs.Common.{rules};
    ghost use Rattle.std.specs.Cmp.{partial_order_from_own_ties};
    ghost use Rattle.std.specs.Cmp.Rules.{comparing};
    ghost use Rattle.std.specs.Ordering.{as_partial_cmp};
    ghost use Rattle.text_tallies.specs.PairSets.{by_pair};

    ghost partial_cmp = { as_partial_cmp by_pair };

    ghost laws = { partial_order_from_own_ties
        (Prim.search (comparing, rules)) (Prim.search (comparing, rules)) };

    fn partial_cmp(&self, other: &PairKey<'a>) -> Option<Ordering> {
        Some(self.cmp(other))
    }
}

impl<'a> Ord for PairKey<'a> {
    ghost use Rattle.std.proofs.Common.{rules};
    ghost use Rattle.std.specs.Cmp.Rules.{comparing};
    ghost use Rattle.text_tallies.specs.PairSets.{by_pair};

    ghost cmp = { by_pair };

    ghost total = { Prim.search (comparing, rules) };

    ghost matches_partial_cmp = { Prim.search (comparing, rules) };

    ghost matches_eq = { Prim.search (comparing, rules) };

    fn cmp(&self, other: &PairKey<'a>) -> Ordering {
        let by_first = self.first.cmp(other.first);
        by_first.then(self.second.cmp(other.second))
    }
}

impl<'a> Hash for PairKey<'a> {
    ghost use Rattle.text_tallies.specs.PairHash.{pair_writes};
    ghost use Rattle.text_tallies.specs.steps.PairsFed.{pairs_fed};

    ghost hash_input = { pair_writes };

    ghost respects_eq = { pairs_fed };

    fn hash<H: Hasher>(&self, state: &mut H) {
        self.first.hash(state);
        self.second.hash(state);
    }
}
