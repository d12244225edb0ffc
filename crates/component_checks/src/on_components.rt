// What is found on components.
ghost use Rattle.std.specs.Prelude.{◌≡◌, ◌++◌, OnOk};
ghost use Rattle.std.specs.List.{flat_map};
ghost use Rattle.component_checks.specs.OnComponents.{found_on_components};
ghost use Rattle.component_checks.specs.steps.FoundBy.{found_by};

use crate::checked::CheckedComponent;
use crate::on_contents::add_on_contents;
use crate::on_refdes::add_on_refdes;
use crate::repeats::{Repeats, repeats_of};
use drc_findings::Finding;
use std::alloc::{AllocError, Global};

fn add_found_on<'a>(
    alloc: Global,
    found: &mut Vec<Finding>,
    repeats: &Repeats<'a>,
    component: &'a CheckedComponent<'_>,
) -> Result<(), AllocError>
    ensures { OnOk result
        (found.new.items ≡ found.old.items ++ found_by repeats.now component.now) }
{
    add_on_refdes(alloc, found, repeats, component)?;
    add_on_contents(alloc, found, component)
}

fn add_found_on_each<'a>(
    alloc: Global,
    found: &mut Vec<Finding>,
    repeats: &Repeats<'a>,
    components: &'a [CheckedComponent<'_>],
) -> Result<(), AllocError>
    ensures { OnOk result
        (found.new.items ≡ found.old.items ++ flat_map (found_by repeats.now) components.now) }
{
    for component in components {
        add_found_on(alloc, found, repeats, component)?;
    }
    Ok(())
}

/// Adds what is found on components: the rules Unnumbered, NoRefdes, DuplicateRefdes,
/// DuplicateSlot, BadSlot, UnknownPintype, MissingSymbol and BadNet.
pub fn add_on_components(
    alloc: Global,
    found: &mut Vec<Finding>,
    components: &[CheckedComponent<'_>],
) -> Result<(), AllocError>
    ensures { OnOk result
        (found.new.items ≡ found.old.items ++ found_on_components components.now) }
{
    let repeats = repeats_of(alloc, components)?;
    add_found_on_each(alloc, found, &repeats, components)
}
