// The slots of packages, gathered by refdes in one pass over the components.
ghost use Rattle.std.specs.Prelude.{◌≡◌, IfOk, None, OnOk, false, ℕ};
ghost use Rattle.std.specs.BTreeSet.{contains};
ghost use Rattle.std.specs.Option.{option_or};
ghost use Rattle.std.specs.Ordering.{nat_cmp};
ghost use Rattle.component_checks.specs.OnPackages.{slot_value};
ghost use Rattle.component_checks.specs.steps.SlotRows.{AddsNumber, AreSlotsOf, TakesIn};
ghost use Rattle.component_checks.specs.steps.SlotRows.{TakesInIfListed, has_no_slots, is_used};

use crate::checked::CheckedComponent;
use crate::parts::is_listed;
use attr_rules::short_number;
use geda_model::Line;
use std::alloc::{AllocError, Global};
use std::collections::{BTreeMap, BTreeSet};

/// The slots of a package.
#[derive(Drop)]
pub struct PackageSlots {
    /// Their count, by the first listed part that has one.
    pub count: Option<u32>,
    /// The numbers of those that listed parts use.
    pub used: BTreeSet<u32>,
}

fn no_slots(alloc: Global) -> PackageSlots
    ensures count { result.count ≡ None }
    ensures used { (k : ℕ) → contains nat_cmp result.used k ≡ false }
{
    PackageSlots {
        count: None,
        used: BTreeSet::new(alloc),
    }
}

fn slot_value(component: &CheckedComponent<'_>) -> Option<u32>
    ensures { result ≡ slot_value component.now.slot }
{
    match component.slot {
        None => None,
        Some(slot) => short_number(slot),
    }
}

fn add_number(numbers: &mut BTreeSet<u32>, number: Option<u32>) -> Result<(), AllocError>
    ensures { OnOk result (AddsNumber number numbers.old numbers.new) }
{
    if let Some(number) = number {
        numbers.insert(number)?;
    }
    Ok(())
}

fn with_slots_of(
    component: &CheckedComponent<'_>,
    known: PackageSlots,
) -> Result<PackageSlots, AllocError>
    ensures count { IfOk result
        (λ slots. slots.count ≡ option_or known.count component.now.slots) }
    ensures used { IfOk result
        (λ slots. AddsNumber (slot_value component.now.slot) known.used slots.used) }
{
    let PackageSlots { count, mut used } = known;
    add_number(&mut used, slot_value(component))?;
    Ok(PackageSlots {
        count: count.or(component.slots),
        used,
    })
}

/// Takes in a component with this refdes. A count that its package has already stays.
fn take_listed(
    alloc: Global,
    rows: &mut BTreeMap<Line, PackageSlots>,
    refdes: &Line,
    component: &CheckedComponent<'_>,
) -> Result<(), AllocError>
    ensures { OnOk result (TakesIn refdes.now component.now rows.old rows.new) }
{
    let known = rows.remove(refdes).unwrap_or(no_slots(alloc));
    let slots = with_slots_of(component, known)?;
    rows.insert(refdes.clone()?, slots)?;
    Ok(())
}

fn has_no_slots(component: &CheckedComponent<'_>) -> bool
    ensures { result ≡ has_no_slots component.now }
{
    component.slots.is_none() && component.slot.is_none()
}

/// Takes in a component. One without slots changes no row, and is left out.
fn take_component(
    alloc: Global,
    rows: &mut BTreeMap<Line, PackageSlots>,
    component: &CheckedComponent<'_>,
) -> Result<(), AllocError>
    ensures { OnOk result (TakesInIfListed component.now rows.old rows.new) }
{
    if has_no_slots(component) {
        return Ok(());
    }
    if !is_listed(component) {
        return Ok(());
    }
    match &component.refdes {
        None => Ok(()),
        Some(refdes) => take_listed(alloc, rows, refdes, component),
    }
}

/// The slots of packages by refdes.
pub fn slots_by_refdes(
    alloc: Global,
    components: &[CheckedComponent<'_>],
) -> Result<BTreeMap<Line, PackageSlots>, AllocError>
    ensures { IfOk result (AreSlotsOf components.now) }
{
    let mut rows = BTreeMap::new(alloc);
    for component in components {
        take_component(alloc, &mut rows, component)?;
    }
    Ok(rows)
}
