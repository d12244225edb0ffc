// What is found on the refdes of a component.
ghost use Rattle.std.specs.Prelude.{◌≡◌, ◌++◌, OnOk};
ghost use Rattle.component_checks.specs.OnComponents.{lacks_refdes, unnumbered, without_refdes};
ghost use Rattle.component_checks.specs.steps.FoundBy.{clashes, duplicate_by, duplicate_slot_by};
ghost use Rattle.component_checks.specs.steps.FoundBy.{found_on_refdes, is_duplicate_by};
ghost use Rattle.component_checks.specs.steps.FoundBy.{is_duplicate_slot_by};

use crate::checked::CheckedComponent;
use crate::parts::{ends_open, is_numbered, refdes_of, slot_of};
use crate::repeats::{Repeats, slotted_pair};
use drc_findings::{Finding, Rule, add_error};
use geda_model::Line;
use printed_texts::{name_words, numbered_words, pair_words};
use std::alloc::{AllocError, Global};

fn add_unnumbered(
    alloc: Global,
    found: &mut Vec<Finding>,
    component: &CheckedComponent<'_>,
) -> Result<(), AllocError>
    ensures { OnOk result (found.new.items ≡ found.old.items ++ unnumbered component.now) }
{
    let refdes = refdes_of(component);
    if is_numbered(component) && ends_open(refdes.as_bytes()) {
        add_error(found, Rule::Unnumbered, name_words(alloc, refdes)?)?;
    }
    Ok(())
}

fn lacks_refdes(component: &CheckedComponent<'_>) -> bool
    ensures { result ≡ lacks_refdes component.now }
{
    if component.refdes.is_some() {
        return false;
    }
    if component.is_hierarchical {
        return true;
    }
    !component.pins.is_empty() && !component.has_net
}

fn add_without_refdes(
    alloc: Global,
    found: &mut Vec<Finding>,
    component: &CheckedComponent<'_>,
) -> Result<(), AllocError>
    ensures { OnOk result (found.new.items ≡ found.old.items ++ without_refdes component.now) }
{
    if lacks_refdes(component) {
        let sheet = component.sheet.as_str();
        add_error(
            found,
            Rule::NoRefdes,
            numbered_words(alloc, sheet, component.id)?,
        )?;
    }
    Ok(())
}

fn clashes(repeats: &Repeats<'_>, refdes: &Line) -> bool
    ensures { result ≡ clashes repeats.now refdes.now }
{
    if ends_open(refdes.as_str().as_bytes()) {
        return false;
    }
    repeats.clashing.contains(refdes)
}

fn is_duplicate(repeats: &Repeats<'_>, component: &CheckedComponent<'_>) -> bool
    ensures { result ≡ is_duplicate_by repeats.now component.now }
{
    if !is_numbered(component) {
        return false;
    }
    match &component.refdes {
        None => false,
        Some(refdes) => clashes(repeats, refdes),
    }
}

fn add_duplicate(
    alloc: Global,
    found: &mut Vec<Finding>,
    repeats: &Repeats<'_>,
    component: &CheckedComponent<'_>,
) -> Result<(), AllocError>
    ensures { OnOk result
        (found.new.items ≡ found.old.items ++ duplicate_by repeats.now component.now) }
{
    if is_duplicate(repeats, component) {
        add_error(
            found,
            Rule::DuplicateRefdes,
            name_words(alloc, refdes_of(component))?,
        )?;
    }
    Ok(())
}

fn is_duplicate_slot<'a>(repeats: &Repeats<'a>, component: &'a CheckedComponent<'_>) -> bool
    ensures { result ≡ is_duplicate_slot_by repeats.now component.now }
{
    if ends_open(refdes_of(component).as_bytes()) {
        return false;
    }
    match slotted_pair(component) {
        None => false,
        Some(pair) => repeats.slotted.contains(&pair),
    }
}

fn add_duplicate_slot<'a>(
    alloc: Global,
    found: &mut Vec<Finding>,
    repeats: &Repeats<'a>,
    component: &'a CheckedComponent<'_>,
) -> Result<(), AllocError>
    ensures { OnOk result
        (found.new.items ≡ found.old.items ++ duplicate_slot_by repeats.now component.now) }
{
    if is_duplicate_slot(repeats, component) {
        let words = pair_words(alloc, refdes_of(component), slot_of(component))?;
        add_error(found, Rule::DuplicateSlot, words)?;
    }
    Ok(())
}

/// Adds what is found on the refdes of a component: the rules Unnumbered, NoRefdes, DuplicateRefdes
/// and DuplicateSlot.
pub fn add_on_refdes<'a>(
    alloc: Global,
    found: &mut Vec<Finding>,
    repeats: &Repeats<'a>,
    component: &'a CheckedComponent<'_>,
) -> Result<(), AllocError>
    ensures { OnOk result
        (found.new.items ≡ found.old.items ++ found_on_refdes repeats.now component.now) }
{
    add_unnumbered(alloc, found, component)?;
    add_without_refdes(alloc, found, component)?;
    add_duplicate(alloc, found, repeats, component)?;
    add_duplicate_slot(alloc, found, repeats, component)
}
