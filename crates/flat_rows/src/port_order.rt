// Pins above a port as keys of ordered maps: by instance, id and label.
use crate::conductors::PortPins;
use std::alloc::AllocError;
use std::cmp::Ordering;

impl Clone for PortPins {
    ghost use Rattle.std.specs.Prelude.{◌≡◌};

    ghost is_clone = { λ x y. y ≡ x };

    fn clone(&self) -> Result<PortPins, AllocError> {
        let label = self.label.clone()?;
        Ok(PortPins {
            instance: self.instance,
            id: self.id,
            label,
        })
    }
}

impl PartialEq for PortPins {
    ghost use Rattle.std.proofs.Common.{rules};
    ghost use Rattle.std.specs.Cmp.Rules.{comparing};
    ghost use Rattle.std.specs.Ordering.{eq_by_cmp};
    ghost use Rattle.flat_rows.specs.PinOrder.{by_pins};

    ghost eq = { eq_by_cmp by_pins };

    ghost laws = { Prim.search (comparing, rules) };

    fn eq(&self, other: &PortPins) -> bool {
        self.cmp(other).is_eq()
    }
}

impl Eq for PortPins {
    ghost use Rattle.std.proofs.Common.{rules};
    ghost use Rattle.std.specs.Cmp.Rules.{comparing};

    ghost laws = { Prim.search (comparing, rules) };
}

impl PartialOrd for PortPins {
    ghost use Rattle.std.specs.Prelude.{Some};
    ghost use Rattle.std.proofs.Common.{rules};
    ghost use Rattle.std.specs.Cmp.{partial_order_from_own_ties};
    ghost use Rattle.std.specs.Cmp.Rules.{comparing};
    ghost use Rattle.std.specs.Ordering.{as_partial_cmp};
    ghost use Rattle.flat_rows.specs.PinOrder.{by_pins};

    ghost partial_cmp = { as_partial_cmp by_pins };

    ghost laws = { partial_order_from_own_ties
        (Prim.search (comparing, rules)) (Prim.search (comparing, rules)) };

    fn partial_cmp(&self, other: &PortPins) -> Option<Ordering> {
        Some(self.cmp(other))
    }
}

impl Ord for PortPins {
    ghost use Rattle.std.proofs.Common.{rules};
    ghost use Rattle.std.specs.Cmp.Rules.{comparing};
    ghost use Rattle.flat_rows.specs.PinOrder.{by_pins};

    ghost cmp = { by_pins };

    ghost total = { Prim.search (comparing, rules) };

    ghost matches_partial_cmp = { Prim.search (comparing, rules) };

    ghost matches_eq = { Prim.search (comparing, rules) };

    fn cmp(&self, other: &PortPins) -> Ordering {
        let by_component = self
            .instance
            .cmp(&other.instance)
            .then(self.id.cmp(&other.id));
        by_component.then(self.label.as_str().cmp(other.label.as_str()))
    }
}
