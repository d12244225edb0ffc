// The groups of sheets that a change touches are made anew, where they are not kept.
ghost use Rattle.std.specs.Prelude.{◌≡◌, ◌≤◌, ◌∷◌, [], map, false, IfOk, OnOk};
ghost use Rattle.project_model.specs.Projects.{ProjectData};
ghost use Rattle.project_model.specs.Tables.{row_now};
ghost use Rattle.group_runs.specs.Sheets.{IsKept, KeepsGroups, KeepsOtherSheets, given_up, is_given_up, row_at};
ghost use Rattle.board_core.specs.steps.Kept.{AreRenewed, HoldsProject, Renews, named_by, sheets_at, sheets_named};
ghost use Rattle.board_core.specs.steps.Standing.{come, drawn_in, rows_on, some_row};

use crate::drawn::drawn_in;
use crate::rows::rows_on;
use geda_geom::{Conductor, Key};
use geda_model::Name;
use group_runs::SheetGroups;
use project_model::{Placed, Project, Thing, Value};
use std::alloc::{AllocError, Global};

/// What is drawn on a sheet.
fn drawn_on(
    alloc: Global,
    project: &Project,
    sheet: &Name,
) -> Result<Vec<(Name, (Key, Conductor))>, AllocError>
    ensures { IfOk result (λ all. all.items
        ≡ map come (drawn_in project.now.contents (rows_on project.now.contents sheet.now))) }
{
    let rows = rows_on(alloc, project, sheet)?;
    drawn_in(alloc, project, &rows)
}

/// Groups the conductors of a sheet whose groups are not kept.
fn group_sheet(
    alloc: Global,
    project: &Project,
    groups: &mut SheetGroups,
    sheet: &Name,
) -> Result<(), AllocError>
    requires held { HoldsProject project.now.contents groups.old.rows }
    requires not_kept { IsKept (row_at groups.old.rows sheet.now) → ⊥ }
    ensures held { HoldsProject project.now.contents groups.new.rows }
    ensures kept { OnOk result (IsKept (row_at groups.new.rows sheet.now)) }
    ensures others { KeepsOtherSheets sheet.now groups.old.rows groups.new.rows }
    ensures still { KeepsGroups groups.old.rows groups.new.rows }
    ensures later { groups.old.steps ≤ groups.new.steps }
    ensures free { is_given_up (row_at groups.old.rows sheet.now) ≡ false
        → groups.new.steps ≤ groups.old.steps }
{
    let coming = drawn_on(alloc, project, sheet)?;
    groups.open(alloc, sheet)?;
    groups.apply(&[], &coming)?;
    Ok(())
}

/// Begins the groups of a sheet whose groups are not kept, where none were given up: so it has no
/// conductors.
fn begin_sheet(alloc: Global, groups: &mut SheetGroups, sheet: &Name) -> Result<(), AllocError>
    requires not_kept { IsKept (row_at groups.old.rows sheet.now) → ⊥ }
    requires fresh { given_up groups.old.rows ≡ [] }
    ensures held { (p : ProjectData) → HoldsProject p groups.old.rows
        → HoldsProject p groups.new.rows }
    ensures kept { OnOk result (IsKept (row_at groups.new.rows sheet.now)) }
    ensures others { KeepsOtherSheets sheet.now groups.old.rows groups.new.rows }
    ensures still { KeepsGroups groups.old.rows groups.new.rows }
    ensures steps { groups.new.steps ≡ groups.old.steps }
{
    groups.open(alloc, sheet)?;
    Ok(())
}

/// Groups the conductors of a sheet, unless its groups are kept.
///
/// Only where some groups were given up, the objects of the project are looked through.
fn renew_sheet(
    alloc: Global,
    project: &Project,
    groups: &mut SheetGroups,
    sheet: &Name,
) -> Result<(), AllocError>
    requires held { HoldsProject project.now.contents groups.old.rows }
    ensures renews { Renews project.now.contents groups.old.rows groups.new.rows
        groups.old.steps groups.new.steps (sheet.now ∷ []) }
    ensures renewed { OnOk result
        (AreRenewed groups.old.rows groups.new.rows (sheet.now ∷ [])) }
{
    if groups.is_kept(sheet) {
        return Ok(());
    }
    if groups.is_fresh() {
        return begin_sheet(alloc, groups, sheet);
    }
    group_sheet(alloc, project, groups, sheet)
}

/// Groups the conductors of the sheets of objects, unless their groups are kept.
pub(crate) fn renew_rows(
    alloc: Global,
    project: &Project,
    groups: &mut SheetGroups,
    rows: &[(u32, &Placed)],
) -> Result<(), AllocError>
    requires held { HoldsProject project.now.contents groups.old.rows }
    ensures renews { Renews project.now.contents groups.old.rows groups.new.rows
        groups.old.steps groups.new.steps (sheets_at (map row_now rows.now)) }
    ensures renewed { OnOk result
        (AreRenewed groups.old.rows groups.new.rows (sheets_at (map row_now rows.now))) }
{
    for row in rows {
        renew_sheet(alloc, project, groups, &row.1.sheet)?;
    }
    Ok(())
}

/// Groups the conductors of a sheet that a thing names, unless its groups are kept.
fn renew_thing(
    alloc: Global,
    project: &Project,
    groups: &mut SheetGroups,
    thing: &Thing,
) -> Result<(), AllocError>
    requires held { HoldsProject project.now.contents groups.old.rows }
    ensures renews { Renews project.now.contents groups.old.rows groups.new.rows
        groups.old.steps groups.new.steps (some_row (named_by thing.now)) }
    ensures renewed { OnOk result
        (AreRenewed groups.old.rows groups.new.rows (some_row (named_by thing.now))) }
{
    match thing {
        Thing::SheetName(name) => renew_sheet(alloc, project, groups, name),
        _ => Ok(()),
    }
}

/// Groups the conductors of the sheets that a change names, unless their groups are kept.
pub(crate) fn renew_named(
    alloc: Global,
    project: &Project,
    groups: &mut SheetGroups,
    items: &[(Thing, Option<Value>)],
) -> Result<(), AllocError>
    requires held { HoldsProject project.now.contents groups.old.rows }
    ensures renews { Renews project.now.contents groups.old.rows groups.new.rows
        groups.old.steps groups.new.steps (sheets_named items.now) }
    ensures renewed { OnOk result
        (AreRenewed groups.old.rows groups.new.rows (sheets_named items.now)) }
{
    for item in items {
        renew_thing(alloc, project, groups, &item.0)?;
    }
    Ok(())
}
