// Findings, in order.
ghost use Rattle.std.specs.Prelude.{◌≡◌, ℕ};
ghost use Rattle.drc_findings.specs.Order.{level_rank};

use geda_model::Line;
use pin_matrix::Level;
use std::cmp::Ordering;

/// One rule that is broken at one place. Findings are ordered by code, then by the bytes of their
/// words, then by level, errors first.
#[derive(Debug, Drop)]
pub struct Finding {
    /// The number of the rule, 1 to 19.
    pub code: u8,
    /// How grave it is.
    pub level: Level,
    /// Where the rule is broken.
    pub words: Line,
}

/// The place of a level in the order of findings.
fn level_rank(level: Level) -> u8
    ensures { result ≡ level_rank level }
{
    match level {
        Level::Error => 0,
        Level::Warning => 1,
        Level::Correct => 2,
    }
}

impl PartialEq for Finding {
    ghost use Rattle.std.specs.Cmp.{eq_by_cmp_equiv, partial_equiv_from_equiv};
    ghost use Rattle.std.specs.Ordering.{eq_by_cmp};
    ghost use Rattle.drc_findings.specs.Order.{by_finding, by_finding_total};

    ghost eq = { eq_by_cmp by_finding };

    ghost laws = { partial_equiv_from_equiv (eq_by_cmp_equiv by_finding_total) };

    fn eq(&self, other: &Finding) -> bool {
        self.cmp(other).is_eq()
    }
}

impl Eq for Finding {
    ghost use Rattle.std.specs.Cmp.{eq_by_cmp_equiv};
    ghost use Rattle.drc_findings.specs.Order.{by_finding_total};

    ghost laws = { eq_by_cmp_equiv by_finding_total };
}

impl PartialOrd for Finding {
    ghost use Rattle.std.specs.Prelude.{Some};
    ghost use Rattle.std.specs.Cmp.{partial_order_from_total};
    ghost use Rattle.std.specs.Ordering.{as_partial_cmp};
    ghost use Rattle.drc_findings.specs.Order.{by_finding, by_finding_total};

    ghost partial_cmp = { as_partial_cmp by_finding };

    ghost laws = { partial_order_from_total by_finding_total };

    fn partial_cmp(&self, other: &Finding) -> Option<Ordering> {
        Some(self.cmp(other))
    }
}

impl Ord for Finding {
    ghost use Rattle.std.proofs.Common.{rules};
    ghost use Rattle.std.specs.Cmp.Rules.{comparing};
    ghost use Rattle.drc_findings.specs.Order.{by_finding, by_finding_total};

    ghost cmp = { by_finding };

    ghost total = { by_finding_total };

    ghost matches_partial_cmp = { Prim.search (comparing, rules) };

    ghost matches_eq = { Prim.search (comparing, rules) };

    fn cmp(&self, other: &Finding) -> Ordering {
        let by_code = self.code.cmp(&other.code);
        let by_words = by_code.then(self.words.cmp(&other.words));
        by_words.then(level_rank(self.level).cmp(&level_rank(other.level)))
    }
}
