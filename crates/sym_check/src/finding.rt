// Findings, in order.
ghost use Rattle.std.specs.Prelude.{◌≡◌, ℕ};
ghost use Rattle.sym_check.specs.Order.{symbol_level_rank};

use geda_model::Line;
use std::cmp::Ordering;

/// One rule that a symbol breaks at one place. Findings are ordered by code, then by the bytes of
/// their words, then errors first.
#[derive(Debug, Drop)]
pub struct SymFinding {
    /// The number of the rule, 1 to 15.
    pub code: u8,
    /// Whether it is an error, and no warning.
    pub error: bool,
    /// Where the rule is broken.
    pub words: Line,
}

/// The place of a level in the order of findings.
fn level_rank(error: bool) -> u8
    ensures { result ≡ symbol_level_rank error }
{
    if error { 0 } else { 1 }
}

impl PartialEq for SymFinding {
    ghost use Rattle.std.specs.Cmp.{eq_by_cmp_equiv, partial_equiv_from_equiv};
    ghost use Rattle.std.specs.Ordering.{eq_by_cmp};
    ghost use Rattle.sym_check.specs.Order.{by_symbol_finding, by_symbol_finding_total};

    ghost eq = { eq_by_cmp by_symbol_finding };

    ghost laws = { partial_equiv_from_equiv (eq_by_cmp_equiv by_symbol_finding_total) };

    fn eq(&self, other: &SymFinding) -> bool {
        self.cmp(other).is_eq()
    }
}

impl Eq for SymFinding {
    ghost use Rattle.std.specs.Cmp.{eq_by_cmp_equiv};
    ghost use Rattle.sym_check.specs.Order.{by_symbol_finding_total};

    ghost laws = { eq_by_cmp_equiv by_symbol_finding_total };
}

impl PartialOrd for SymFinding {
    ghost use Rattle.std.specs.Prelude.{Some};
    ghost use Rattle.std.specs.Cmp.{partial_order_from_total};
    ghost use Rattle.std.specs.Ordering.{as_partial_cmp};
    ghost use Rattle.sym_check.specs.Order.{by_symbol_finding, by_symbol_finding_total};

    ghost partial_cmp = { as_partial_cmp by_symbol_finding };

    ghost laws = { partial_order_from_total by_symbol_finding_total };

    fn partial_cmp(&self, other: &SymFinding) -> Option<Ordering> {
        Some(self.cmp(other))
    }
}

impl Ord for SymFinding {
    ghost use Rattle.std.proofs.Common.{rules};
    ghost use Rattle.std.specs.Cmp.Rules.{comparing};
    ghost use Rattle.sym_check.specs.Order.{by_symbol_finding, by_symbol_finding_total};

    ghost cmp = { by_symbol_finding };

    ghost total = { by_symbol_finding_total };

    ghost matches_partial_cmp = { Prim.search (comparing, rules) };

    ghost matches_eq = { Prim.search (comparing, rules) };

    fn cmp(&self, other: &SymFinding) -> Ordering {
        let by_code = self.code.cmp(&other.code);
        let by_words = by_code.then(self.words.cmp(&other.words));
        by_words.then(level_rank(self.error).cmp(&level_rank(other.error)))
    }
}
