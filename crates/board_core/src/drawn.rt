// What is drawn of objects, with its sheets and keys.
ghost use Rattle.std.specs.Prelude.{◌≡◌, ◌++◌, IfOk, OnOk, map};
ghost use Rattle.project_model.specs.Changes.{CanApply, put};
ghost use Rattle.project_model.specs.Tables.{row_now};
ghost use Rattle.sheet_groups.specs.Conductors.{conductors_at, sheet_conductor};
ghost use Rattle.board_core.specs.steps.Standing.{come, coming_drawn, coming_rows, drawn_in, leave, without_shape};

use crate::changed::Things;
use crate::put_in::put_in;
use geda_geom::{Conductor, Key};
use geda_model::Name;
use project_model::{Change, Placed, Project};
use sheet_groups::drawn_of;
use std::alloc::{AllocError, Global};

/// Adds what is drawn of an object under an id.
fn push_drawn(
    all: &mut Vec<(Name, (Key, Conductor))>,
    id: u32,
    placed: &Placed,
    drawn: Vec<(u32, Conductor)>,
) -> Result<(), AllocError>
    ensures { OnOk result (all.new.items ≡ all.old.items
        ++ map come (map (sheet_conductor (id, placed.now)) drawn.items)) }
{
    for (place, shape) in drawn {
        all.push((placed.sheet.clone()?, (Key { id, place }, shape)))?;
    }
    Ok(())
}

/// Adds what is drawn of an object under an id, with the symbols of a project.
fn push_object(
    alloc: Global,
    project: &Project,
    all: &mut Vec<(Name, (Key, Conductor))>,
    id: u32,
    placed: &Placed,
) -> Result<(), AllocError>
    ensures { OnOk result (all.new.items ≡ all.old.items
        ++ map come (conductors_at project.now.contents (id, placed.now))) }
{
    let drawn = drawn_of(alloc, project, &placed.object)?;
    push_drawn(all, id, placed, drawn)
}

/// What is drawn of objects under ids, with the symbols of a project.
pub(crate) fn drawn_in(
    alloc: Global,
    project: &Project,
    rows: &[(u32, &Placed)],
) -> Result<Vec<(Name, (Key, Conductor))>, AllocError>
    ensures { IfOk result (λ all. all.items
        ≡ map come (drawn_in project.now.contents (map row_now rows.now))) }
{
    let mut all = Vec::new(alloc);
    for row in rows {
        push_object(alloc, project, &mut all, row.0, row.1)?;
    }
    Ok(all)
}

/// The sheets and the keys alone.
fn without_shapes(
    alloc: Global,
    drawn: Vec<(Name, (Key, Conductor))>,
) -> Result<Vec<(Name, Key)>, AllocError>
    ensures { IfOk result (λ all. all.items ≡ map without_shape drawn.items) }
{
    let mut all = Vec::with_capacity(alloc, drawn.len())?;
    for (sheet, (key, _shape)) in drawn {
        all.push((sheet, key))?;
    }
    Ok(all)
}

/// The sheets and the keys of what is drawn of objects under ids.
pub(crate) fn keys_in(
    alloc: Global,
    project: &Project,
    rows: &[(u32, &Placed)],
) -> Result<Vec<(Name, Key)>, AllocError>
    ensures { IfOk result (λ all. all.items
        ≡ map leave (drawn_in project.now.contents (map row_now rows.now))) }
{
    let drawn = drawn_in(alloc, project, rows)?;
    without_shapes(alloc, drawn)
}

/// An equal project, with a change put in.
fn after_change(alloc: Global, project: &Project, change: &Change) -> Result<Project, AllocError>
    requires { CanApply change.now.items }
    ensures { IfOk result (λ after. after.contents ≡ put project.now.contents change.now.items) }
{
    let mut after = project.copy(alloc)?;
    put_in(alloc, &mut after, change)?;
    Ok(after)
}

/// What comes with a change, of the objects that come.
///
/// The project is copied where the change has symbols and objects come with it.
pub(crate) fn coming_drawn(
    alloc: Global,
    project: &Project,
    change: &Change,
    things: &Things<'_>,
    rows: &[(u32, &Placed)],
) -> Result<Vec<(Name, (Key, Conductor))>, AllocError>
    requires can_apply { CanApply change.now.items }
    requires same { things.now ≡ change.now.items }
    requires rows { map row_now rows.now ≡ coming_rows project.now.contents change.now.items }
    ensures { IfOk result (λ all. all.items
        ≡ map come (coming_drawn project.now.contents change.now.items)) }
{
    if !things.has_symbols() {
        return drawn_in(alloc, project, rows);
    }
    if rows.is_empty() {
        return Ok(Vec::new(alloc));
    }
    let after = after_change(alloc, project, change)?;
    drawn_in(alloc, &after, rows)
}
