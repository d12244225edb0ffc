// What is known of a project before numbers are given: the texts in use, and where they are wanted.
ghost use Rattle.std.specs.Prelude.{◌≡◌, IfOk, OnOk, map, option_copied};
ghost use Rattle.std.specs.HashMap.{get_by_text};
ghost use Rattle.std.specs.HashSet.{contains_text};
ghost use Rattle.std.specs.List.{filter_map};
ghost use Rattle.geda_defs.specs.Order.{once_in_order};
ghost use Rattle.project_model.specs.Tables.{row_now};
ghost use Rattle.refdes_renum.specs.Renumbering.{by_place, component_refdes, open_place};
ghost use Rattle.refdes_renum.specs.steps.UsedTexts.{TakesRefdes, Tracks};

use crate::components::{component_refdes, is_unnumbered};
use crate::place::Place;
use crate::used::UsedTexts;
use project_model::{Placed, Project};
use std::alloc::{AllocError, Global};
use std::collections::BTreeSet;

/// A refdes comes into use, if there is one.
fn take_refdes(alloc: Global, used: &mut UsedTexts, refdes: Option<&str>) -> Result<(), AllocError>
    ensures { OnOk result (TakesRefdes (option_copied refdes.entry)
        (contains_text used.old.used) (get_by_text used.old.next)
        (contains_text used.new.used) (get_by_text used.new.next)) }
{
    match refdes {
        Some(refdes) => used.take(alloc, refdes),
        None => Ok(()),
    }
}

/// The refdes of all components are in use.
pub(crate) fn used_texts(
    alloc: Global,
    project: &Project,
    rows: &[(u32, &Placed)],
) -> Result<UsedTexts, AllocError>
    ensures { IfOk result (λ used. Tracks
        (filter_map (λ row. component_refdes project.now.contents row.1.object)
        (map row_now rows.now)) (contains_text used.used) (get_by_text used.next)) }
{
    let mut used = UsedTexts::new(alloc);
    for row in rows {
        let refdes = component_refdes(alloc, project, &row.1.object)?;
        take_refdes(alloc, &mut used, refdes)?;
    }
    Ok(used)
}

/// The place of a component without a number.
fn open_place(
    alloc: Global,
    project: &Project,
    id: u32,
    placed: &Placed,
) -> Result<Option<Place>, AllocError>
    ensures { IfOk result
        (λ place. place ≡ open_place project.now.contents (id, placed.now)) }
{
    let refdes = component_refdes(alloc, project, &placed.object)?;
    if !is_unnumbered(alloc, project, &placed.object, refdes)? {
        return Ok(None);
    }
    let sheet = placed.sheet.clone()?;
    Ok(Some(Place { sheet, id }))
}

/// The places of all components without a number, in order.
pub(crate) fn open_places(
    alloc: Global,
    project: &Project,
    rows: &[(u32, &Placed)],
) -> Result<BTreeSet<Place>, AllocError>
    ensures { IfOk result (λ places. places.keys ≡ once_in_order by_place
        (filter_map (open_place project.now.contents) (map row_now rows.now))) }
{
    let mut places = BTreeSet::new(alloc);
    for row in rows {
        if let Some(place) = open_place(alloc, project, row.0, row.1)? {
            places.insert(place)?;
        }
    }
    Ok(places)
}
