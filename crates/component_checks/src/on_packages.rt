// What is found on packages.
ghost use Rattle.std.specs.Prelude.{◌≡◌, ◌++◌, IfOk, List, OnOk, Some, map};
ghost use Rattle.text_tallies.specs.LookAlike.{look_alike};
ghost use Rattle.text_tallies.specs.NameSets.{HasNames};
ghost use Rattle.net_list.specs.declared.package.Package.{Package};
ghost use Rattle.component_checks.specs.CheckedComponents.{CheckedData};
ghost use Rattle.component_checks.specs.OnPackages.{found_on_package, found_on_packages};
ghost use Rattle.component_checks.specs.OnPackages.{package_refdeses};
ghost use Rattle.component_checks.specs.steps.SlotRows.{AreSlotsOf, all_unused_in, row_at};
ghost use Rattle.component_checks.specs.steps.SlotRows.{unused_in};

use crate::checked::CheckedComponent;
use crate::slot_rows::{PackageSlots, slots_by_refdes};
use drc_findings::{Finding, Rule, add_same_text, add_warning};
use geda_model::Line;
use net_list::Package;
use printed_texts::numbered_words;
use std::alloc::{AllocError, Global};
use std::collections::{BTreeMap, BTreeSet};
use text_tallies::alike_texts;

fn add_if_unused(
    alloc: Global,
    found: &mut Vec<Finding>,
    slots: &PackageSlots,
    refdes: &str,
    number: u32,
) -> Result<(), AllocError>
    ensures { OnOk result
        (found.new.items ≡ found.old.items ++ unused_in (Some slots.now) refdes.now number) }
{
    if !slots.used.contains(&number) {
        add_warning(
            found,
            Rule::UnusedSlot,
            numbered_words(alloc, refdes, number)?,
        )?;
    }
    Ok(())
}

fn add_unused_of(
    alloc: Global,
    found: &mut Vec<Finding>,
    slots: &PackageSlots,
    refdes: &str,
) -> Result<(), AllocError>
    ensures { OnOk result
        (found.new.items ≡ found.old.items ++ all_unused_in (Some slots.now) refdes.now) }
{
    let count = slots.count.unwrap_or(0);
    for place in 0..count {
        add_if_unused(alloc, found, slots, refdes, place + 1)?;
    }
    Ok(())
}

fn add_unused_slots(
    alloc: Global,
    found: &mut Vec<Finding>,
    rows: &BTreeMap<Line, PackageSlots>,
    refdes: &Line,
) -> Result<(), AllocError>
    ensures { OnOk result (found.new.items
        ≡ found.old.items ++ all_unused_in (row_at rows.now refdes.now) refdes.now) }
{
    match rows.get(refdes) {
        None => Ok(()),
        Some(slots) => add_unused_of(alloc, found, slots, refdes.as_str()),
    }
}

fn refdes_texts<'a>(alloc: Global, packages: &'a [Package]) -> Result<Vec<&'a str>, AllocError>
    ensures { IfOk result (λ texts. map (λ t. t.now) texts.items ≡ package_refdeses packages.now) }
{
    let mut texts = Vec::new(alloc);
    for package in packages {
        texts.push(package.refdes.as_str())?;
    }
    Ok(texts)
}

fn alike_refdeses(alloc: Global, packages: &[Package]) -> Result<BTreeSet<Line>, AllocError>
    ensures { IfOk result (HasNames (look_alike (package_refdeses packages.now))) }
{
    let texts = refdes_texts(alloc, packages)?;
    alike_texts(alloc, texts.as_slice())
}

fn add_on_package(
    alloc: Global,
    found: &mut Vec<Finding>,
    rows: &BTreeMap<Line, PackageSlots>,
    alike: &BTreeSet<Line>,
    part: &Package,
) -> Result<(), AllocError>
    ensures { (cs : List CheckedData) (all : List Package) → AreSlotsOf cs rows.now
        → HasNames (look_alike (package_refdeses all)) alike.now → OnOk result
        (found.new.items ≡ found.old.items ++ found_on_package cs all part.now) }
{
    add_unused_slots(alloc, found, rows, &part.refdes)?;
    add_same_text(alloc, found, alike, part.refdes.as_str())
}

/// Adds what is found on packages, by the components: the rule UnusedSlot, and the rule SameText on
/// packages.
pub fn add_on_packages(
    alloc: Global,
    found: &mut Vec<Finding>,
    components: &[CheckedComponent<'_>],
    packages: &[Package],
) -> Result<(), AllocError>
    ensures { OnOk result
        (found.new.items ≡ found.old.items ++ found_on_packages components.now packages.now) }
{
    let rows = slots_by_refdes(alloc, components)?;
    let alike = alike_refdeses(alloc, packages)?;
    for package in packages {
        add_on_package(alloc, found, &rows, &alike, package)?;
    }
    Ok(())
}
