// What is found on names that print alike, and the law on the order of findings.
ghost use Rattle.std.specs.Prelude.{◌≡◌, ◌++◌, ◌↔◌, Contains, List, OnOk, ℕ};
ghost use Rattle.text_tallies.specs.LookAlike.{look_alike};
ghost use Rattle.text_tallies.specs.NameSets.{HasNames};
ghost use Rattle.drc_findings.specs.declared.finding.Finding.{Finding};
ghost use Rattle.drc_findings.specs.Findings.{same_text};
ghost use Rattle.drc_findings.specs.Order.{findings_in_order};

use crate::adding::add_error;
use crate::finding::Finding;
use crate::rule::Rule;
use geda_model::Line;
use printed_texts::name_words;
use std::alloc::{AllocError, Global};
use std::collections::BTreeSet;

/// Adds what is found on a name among others, by the texts of those that print alike.
pub fn add_same_text(
    alloc: Global,
    found: &mut Vec<Finding>,
    alike: &BTreeSet<Line>,
    name: &str,
) -> Result<(), AllocError>
    ensures { (names : List (List ℕ)) → HasNames (look_alike names) alike.now → OnOk result
        (found.new.items ≡ found.old.items ++ same_text names name.now) }
{
    if alike.is_empty() {
        return Ok(());
    }
    let words = name_words(alloc, name)?;
    if alike.contains(&words) {
        add_error(found, Rule::SameText, words)?;
    }
    Ok(())
}

/// The law that findings in order are just those that were found.
pub fn order_law()
    ensures { (found : List Finding) (f : Finding)
        → Contains (findings_in_order found) f ↔ Contains found f }
{}
