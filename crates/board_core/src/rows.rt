// The objects whose conductors leave or come with a change.
ghost use Rattle.std.specs.Prelude.{◌≡◌, ◌++◌, ◌∷◌, [], cond, IfOk, OnOk, filter, map};
ghost use Rattle.std.specs.FinMap.{entries};
ghost use Rattle.std.specs.HashSet.{contains_text};
ghost use Rattle.std.specs.Option.{option_map};
ghost use Rattle.project_model.specs.Projects.{ProjectData, is_on};
ghost use Rattle.project_model.specs.Tables.{row_now};
ghost use Rattle.board_core.specs.Bounds.{is_renewed};
ghost use Rattle.board_core.specs.Changed.{is_changed};
ghost use Rattle.board_core.specs.steps.Standing.{changed_rows, coming_rows, given_row, given_rows, renewed_rows, rows_on, some_row};
ghost use Rattle.board_core.specs.steps.SymbolNames.{AreKnown};

use crate::changed::Things;
use crate::symbol_names::has_any;
use geda_model::Name;
use project_model::{Placed, Project, Thing, Value};
use std::alloc::{AllocError, Global};
use std::collections::HashSet;

/// Adds an object, if it is wanted.
fn push_if<'p>(
    all: &mut Vec<(u32, &'p Placed)>,
    wanted: bool,
    row: (u32, &'p Placed),
) -> Result<(), AllocError>
    ensures { OnOk result (all.new.items ≡ all.old.items ++ cond wanted (row.entry ∷ []) []) }
{
    if wanted {
        all.push(row)?;
    }
    Ok(())
}

/// Adds an object, if there is one.
pub(crate) fn push_some<'p>(
    all: &mut Vec<(u32, &'p Placed)>,
    row: Option<(u32, &'p Placed)>,
) -> Result<(), AllocError>
    ensures { OnOk result (all.new.items ≡ all.old.items ++ some_row row.entry) }
{
    if let Some(row) = row {
        all.push(row)?;
    }
    Ok(())
}

fn changed_among<'p>(
    alloc: Global,
    things: &Things<'_>,
    rows: &[(u32, &'p Placed)],
) -> Result<Vec<(u32, &'p Placed)>, AllocError>
    ensures { IfOk result (λ changed. map row_now changed.items
        ≡ filter (is_changed things.now) (map row_now rows.now)) }
{
    let mut changed = Vec::new(alloc);
    for row in rows {
        push_if(
            &mut changed,
            things.is_changed(row.0, row.1),
            (row.0, row.1),
        )?;
    }
    Ok(changed)
}

/// The objects of a project whose conductors leave with a change, by id.
///
/// Where the change has no symbol of one of these names, among which are those of all components,
/// only its own objects are looked at.
pub(crate) fn changed_rows<'p>(
    alloc: Global,
    project: &'p Project,
    names: &HashSet<String>,
    things: &Things<'_>,
) -> Result<Vec<(u32, &'p Placed)>, AllocError>
    requires { AreKnown (contains_text names.now) (entries project.now.contents.objects) }
    ensures { IfOk result (λ changed. map row_now changed.items
        ≡ changed_rows project.now.contents things.now) }
{
    if !has_any(names, things.items()) {
        return things.own_rows(alloc, project);
    }
    let rows = project.objects_by_id(alloc)?;
    changed_among(alloc, things, &rows)
}

/// The object that an item of a change gives. It takes no memory.
fn given_row(item: &(Thing, Option<Value>)) -> Option<(u32, &Placed)>
    ensures { option_map row_now result ≡ given_row item.now }
{
    match &item.0 {
        Thing::Object(id) => match &item.1 {
            Some(Value::Object(placed)) => Some((*id, placed)),
            _ => None,
        },
        _ => None,
    }
}

/// The objects that the items of a change give.
pub(crate) fn given_rows<'p>(
    alloc: Global,
    items: &'p [(Thing, Option<Value>)],
) -> Result<Vec<(u32, &'p Placed)>, AllocError>
    ensures { IfOk result (λ rows. map row_now rows.items ≡ given_rows items.now) }
{
    let mut rows = Vec::new(alloc);
    for item in items {
        push_some(&mut rows, given_row(item))?;
    }
    Ok(rows)
}

fn push_renewed<'p>(
    all: &mut Vec<(u32, &'p Placed)>,
    things: &Things<'_>,
    rows: &[(u32, &'p Placed)],
) -> Result<(), AllocError>
    ensures { OnOk result (map row_now all.new.items
        ≡ map row_now all.old.items ++ filter (is_renewed things.now) (map row_now rows.now)) }
{
    for row in rows {
        push_if(all, things.is_renewed(row.0, row.1), (row.0, row.1))?;
    }
    Ok(())
}

/// The objects whose conductors come with a change: those that it gives, then the others of a
/// project whose symbols it has, by id. These are among those whose conductors leave.
pub(crate) fn coming_rows<'p>(
    alloc: Global,
    things: &'p Things<'_>,
    changed: &[(u32, &'p Placed)],
) -> Result<Vec<(u32, &'p Placed)>, AllocError>
    ensures { (p : ProjectData) → map row_now changed.now ≡ changed_rows p things.now
        → IfOk result (λ coming. map row_now coming.items ≡ coming_rows p things.now) }
{
    let mut coming = given_rows(alloc, things.items())?;
    push_renewed(&mut coming, things, changed)?;
    Ok(coming)
}

fn rows_among<'p>(
    alloc: Global,
    sheet: &Name,
    rows: &[(u32, &'p Placed)],
) -> Result<Vec<(u32, &'p Placed)>, AllocError>
    ensures { IfOk result (λ found. map row_now found.items
        ≡ filter (is_on sheet.now) (map row_now rows.now)) }
{
    let mut found = Vec::new(alloc);
    for row in rows {
        push_if(&mut found, row.1.sheet == *sheet, (row.0, row.1))?;
    }
    Ok(found)
}

/// The objects of a project on a sheet, by id.
pub(crate) fn rows_on<'p>(
    alloc: Global,
    project: &'p Project,
    sheet: &Name,
) -> Result<Vec<(u32, &'p Placed)>, AllocError>
    ensures { IfOk result (λ found. map row_now found.items
        ≡ rows_on project.now.contents sheet.now) }
{
    let rows = project.objects_by_id(alloc)?;
    rows_among(alloc, sheet, &rows)
}
