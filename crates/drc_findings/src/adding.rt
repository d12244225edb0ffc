// One more finding.
ghost use Rattle.std.specs.Prelude.{◌≡◌, ◌++◌, ◌∷◌, [], OnOk};
ghost use Rattle.drc_findings.specs.Findings.{a_warning, an_error, finding};

use crate::finding::Finding;
use crate::rule::Rule;
use geda_model::Line;
use pin_matrix::Level;
use std::alloc::AllocError;

/// Adds a finding of a rule at a level.
pub fn add_finding(
    found: &mut Vec<Finding>,
    level: Level,
    rule: Rule,
    words: Line,
) -> Result<(), AllocError>
    ensures { OnOk result (found.new.items ≡ found.old.items ++ finding level rule words ∷ []) }
{
    let code = rule.code();
    found.push(Finding { code, level, words })?;
    Ok(())
}

/// Adds an error of a rule.
pub fn add_error(found: &mut Vec<Finding>, rule: Rule, words: Line) -> Result<(), AllocError>
    ensures { OnOk result (found.new.items ≡ found.old.items ++ an_error rule words ∷ []) }
{
    add_finding(found, Level::Error, rule, words)
}

/// Adds a warning of a rule.
pub fn add_warning(found: &mut Vec<Finding>, rule: Rule, words: Line) -> Result<(), AllocError>
    ensures { OnOk result (found.new.items ≡ found.old.items ++ a_warning rule words ∷ []) }
{
    add_finding(found, Level::Warning, rule, words)
}
