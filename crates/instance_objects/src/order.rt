// All objects in all instances, in order.
ghost use Rattle.std.specs.Prelude.{◌≡◌, ◌-◌, ◌++◌, IfOk, IsTrue, OnOk, length, map, option_map};
ghost use Rattle.std.specs.List.{slice_get};
ghost use Rattle.std.specs.List.Sorted.{IsStrictlySortedBy};
ghost use Rattle.std.specs.Ordering.{nat_cmp};
ghost use Rattle.hierarchy.specs.Instances.{instances_of};
ghost use Rattle.instance_objects.specs.Occurrences.{by_occurrence, occurrences, occurrences_from};
ghost use Rattle.instance_objects.specs.steps.SheetIds.{comes_before, occurrence};

use crate::occurrence::Occurrence;
use crate::once::once_in_order;
use crate::sheet_ids::{ids_at, ids_by_sheet};
use hierarchy::Instance;
use project_model::Project;
use std::alloc::{AllocError, Global};

fn occurrence(place: usize, instance: &Instance, id: u32) -> Occurrence<'_>
    ensures { result ≡ occurrence place instance.now id }
{
    Occurrence {
        route: instance.route.as_slice(),
        instance: place,
        id,
    }
}

/// Whether the objects of an instance, of which these are the rising ids, all come behind the last
/// one that is listed.
fn come_behind(listed: &[Occurrence<'_>], place: usize, instance: &Instance, ids: &[u32]) -> bool
    ensures { result ≡ comes_before by_occurrence
        (slice_get listed.now (length listed.now - 1))
        (option_map (occurrence place instance.now) (slice_get ids.now 0)) }
{
    match (listed.last(), ids.first()) {
        (Some(last), Some(id)) => last.cmp(&occurrence(place, instance, *id)).is_lt(),
        _ => true,
    }
}

/// Adds the objects of an instance.
fn push_ids<'a>(
    listed: &mut Vec<Occurrence<'a>>,
    place: usize,
    instance: &'a Instance,
    ids: &[u32],
) -> Result<(), AllocError>
    ensures { OnOk result (listed.new.items ≡
        listed.old.items ++ map (occurrence place instance.now) ids.now) }
{
    listed.reserve(ids.len())?;
    for id in ids {
        listed.push(occurrence(place, instance, *id))?;
    }
    Ok(())
}

/// Adds the objects of an instance by their rising ids, and tells whether all are in order then, if
/// it is told whether those before are.
fn push_instance<'a>(
    listed: &mut Vec<Occurrence<'a>>,
    is_in_order: bool,
    place: usize,
    instance: &'a Instance,
    ids: &[u32],
) -> Result<bool, AllocError>
    requires rising { IsStrictlySortedBy nat_cmp ids.now }
    requires order { IsTrue is_in_order → IsStrictlySortedBy by_occurrence listed.old.items }
    ensures listed { OnOk result (listed.new.items ≡
        listed.old.items ++ map (occurrence place instance.now) ids.now) }
    ensures order { IfOk result
        (λ rises. IsTrue rises → IsStrictlySortedBy by_occurrence listed.new.items) }
{
    let is_behind = come_behind(listed.as_slice(), place, instance, ids);
    push_ids(listed, place, instance, ids)?;
    if is_in_order {
        return Ok(is_behind);
    }
    Ok(false)
}

/// Objects in instances, and whether each comes before the next.
#[derive(Drop)]
struct Listed<'a> {
    occurrences: Vec<Occurrence<'a>>,
    is_in_order: bool,
}

/// All objects in all instances, one instance after the other.
fn listed_by_instance<'a>(
    alloc: Global,
    project: &Project,
    instances: &'a [Instance],
) -> Result<Listed<'a>, AllocError>
    ensures all { IfOk result (λ listed. listed.occurrences.items
        ≡ occurrences_from project.now.contents 0 instances.now) }
    ensures order { IfOk result (λ listed. IsTrue listed.is_in_order
        → IsStrictlySortedBy by_occurrence listed.occurrences.items) }
{
    let table = ids_by_sheet(alloc, project)?;
    let mut occurrences = Vec::new(alloc);
    let mut is_in_order = true;
    for place in 0..instances.len() {
        let instance = &instances[place];
        let ids = ids_at(&table, &instance.sheet);
        is_in_order = push_instance(&mut occurrences, is_in_order, place, instance, ids)?;
    }
    Ok(Listed {
        occurrences,
        is_in_order,
    })
}

/// All objects in all instances, in order. They are sorted only where instances do not come in
/// order themselves.
pub(crate) fn occurrences<'a>(
    alloc: Global,
    project: &Project,
    instances: &'a [Instance],
) -> Result<Vec<Occurrence<'a>>, AllocError>
    requires { instances.now ≡ instances_of project.now.contents }
    ensures { IfOk result (λ listed. listed.items ≡ occurrences project.now.contents) }
{
    let listed = listed_by_instance(alloc, project, instances)?;
    let Listed {
        occurrences,
        is_in_order,
    } = listed;
    if is_in_order {
        return Ok(occurrences);
    }
    once_in_order(occurrences)
}
