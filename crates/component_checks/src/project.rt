// The components of a project as the check sees them.
ghost use Rattle.std.specs.Prelude.{◌≡◌, IfOk, OnOk};
ghost use Rattle.std.specs.List.{filter_map};
ghost use Rattle.instance_objects.specs.Occurrences.{occurrences};
ghost use Rattle.component_checks.specs.CheckedComponents.{checked_components};
ghost use Rattle.component_checks.specs.steps.CheckedObjects.{checked_at};
ghost use Rattle.component_checks.specs.steps.SoundSymbols.{AreSound};

use crate::checked::CheckedComponent;
use crate::gathering::checked_object;
use crate::lists::push_if;
use instance_objects::{InstanceObjects, Occurrence};
use std::alloc::{AllocError, Global};
use std::collections::HashSet;
use symbol_tables::SymbolTables;
use text_tallies::PairKey;

/// What stands there, if it is checked.
fn checked_at<'a>(
    alloc: Global,
    tables: &mut SymbolTables<'a>,
    sound: &mut HashSet<PairKey<'a>>,
    objects: &'a InstanceObjects<'_>,
    occurrence: &Occurrence<'_>,
) -> Result<Option<CheckedComponent<'a>>, AllocError>
    requires same { tables.old ≡ objects.now }
    requires sound { AreSound objects.now sound.old }
    ensures made { IfOk result (λ made. made ≡ checked_at objects.now occurrence.now) }
    ensures kept { tables.new ≡ tables.old }
    ensures sound { OnOk result (AreSound objects.now sound.new) }
{
    let Some(found) = objects.object(occurrence) else {
        return Ok(None);
    };
    checked_object(alloc, tables, sound, &found)
}

#[tactic(auto, using(crate::proofs::ListLemmas::push_more))]
fn components_among<'a>(
    alloc: Global,
    objects: &'a InstanceObjects<'_>,
) -> Result<Vec<CheckedComponent<'a>>, AllocError>
    ensures { IfOk result (λ components. components.items ≡
        filter_map (checked_at objects.now) (occurrences objects.now)) }
{
    let occurrences = objects.occurrences();
    let mut tables = SymbolTables::new(alloc, objects.project());
    let mut sound = HashSet::new(alloc);
    let mut components = Vec::with_capacity(alloc, occurrences.len())?;
    for occurrence in occurrences {
        let made = checked_at(alloc, &mut tables, &mut sound, objects, occurrence)?;
        push_if(&mut components, made)?;
    }
    Ok(components)
}

/// All components in all instances that are neither graphical nor directives, by route and then by
/// id.
pub fn checked_components<'a>(
    alloc: Global,
    objects: &'a InstanceObjects<'_>,
) -> Result<Vec<CheckedComponent<'a>>, AllocError>
    ensures { IfOk result (λ components. components.items ≡ checked_components objects.now) }
{
    components_among(alloc, objects)
}
