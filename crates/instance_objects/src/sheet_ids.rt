// The ids of the objects of each sheet.
ghost use Rattle.std.specs.Prelude.{◌≡◌, ◌≤◌, ◌∷◌, IfOk, drop, length, map};
ghost use Rattle.project_model.specs.Tables.{row_now};
ghost use Rattle.instance_objects.specs.SheetIds.{AreIdsBySheet, ids_at};
ghost use Rattle.instance_objects.specs.steps.SheetIds.{AddsRun, AreIdsOf, PutsRun};

use geda_model::{Items, Name};
use project_model::{Placed, Project};
use std::alloc::{AllocError, Global};
use std::collections::BTreeMap;

/// Puts the ids of objects from a place on behind others, as far as they stand on a sheet, and
/// gives the place after them.
fn push_run(
    ids: &mut Items<u32>,
    sheet: &Name,
    rows: &[(u32, &Placed)],
    from: usize,
) -> Result<usize, AllocError>
    requires { from ≤ length rows.now }
    ensures from { IfOk result (λ end. from ≤ end) }
    ensures end { IfOk result (λ end. end ≤ length rows.now) }
    ensures ids { IfOk result (λ end. PutsRun sheet.now ids.old ids.new
        (map row_now (drop from rows.now)) (map row_now (drop end rows.now))) }
{
    for place in from..rows.len() {
        let row = &rows[place];
        if row.1.sheet != *sheet {
            return Ok(place);
        }
        ids.push(row.0)?;
    }
    Ok(rows.len())
}

/// The same behind the id of an object of the sheet.
fn push_with_run(
    ids: &mut Items<u32>,
    id: u32,
    placed: &Placed,
    rows: &[(u32, &Placed)],
    from: usize,
) -> Result<usize, AllocError>
    requires { from ≤ length rows.now }
    ensures from { IfOk result (λ end. from ≤ end) }
    ensures end { IfOk result (λ end. end ≤ length rows.now) }
    ensures ids { IfOk result (λ end. PutsRun placed.now.sheet ids.old ids.new
        ((id, placed.now) ∷ map row_now (drop from rows.now)) (map row_now (drop end rows.now))) }
{
    ids.push(id)?;
    let end = push_run(ids, &placed.sheet, rows, from)?;
    Ok(end)
}

/// Puts the id of an object behind those of its sheet, and with it those of the objects directly
/// after it on the same sheet, which stand from a place on: the sheet is looked up once for all of
/// them. Gives the place after them.
fn add_run(
    alloc: Global,
    table: &mut BTreeMap<Name, Items<u32>>,
    id: u32,
    placed: &Placed,
    rows: &[(u32, &Placed)],
    from: usize,
) -> Result<usize, AllocError>
    requires { from ≤ length rows.now }
    ensures from { IfOk result (λ end. from ≤ end) }
    ensures end { IfOk result (λ end. end ≤ length rows.now) }
    ensures ids { IfOk result (λ end. AddsRun table.old table.new
        ((id, placed.now) ∷ map row_now (drop from rows.now)) (map row_now (drop end rows.now))) }
{
    if let Some(ids) = table.get_mut(&placed.sheet) {
        return push_with_run(ids, id, placed, rows, from);
    }
    let mut ids = Items::from_vec(Vec::new(alloc));
    let end = push_with_run(&mut ids, id, placed, rows, from)?;
    table.insert(placed.sheet.clone()?, ids)?;
    Ok(end)
}

fn ids_of_rows(
    alloc: Global,
    rows: &[(u32, &Placed)],
) -> Result<BTreeMap<Name, Items<u32>>, AllocError>
    ensures { IfOk result (AreIdsOf (map row_now rows.now)) }
{
    let mut table = BTreeMap::new(alloc);
    let mut place = 0;
    while place < rows.len() {
        let row = &rows[place];
        place = add_run(alloc, &mut table, row.0, row.1, rows, place + 1)?;
    }
    Ok(table)
}

/// The ids of the objects of each sheet, rising; a sheet without objects is left out.
pub fn ids_by_sheet(
    alloc: Global,
    project: &Project,
) -> Result<BTreeMap<Name, Items<u32>>, AllocError>
    ensures { IfOk result (AreIdsBySheet project.now.contents) }
{
    let rows = project.objects_by_id(alloc)?;
    ids_of_rows(alloc, rows.as_slice())
}

/// The ids of the objects of a sheet, rising, by the table of `ids_by_sheet`. It takes no memory.
pub fn ids_at<'a>(table: &'a BTreeMap<Name, Items<u32>>, sheet: &Name) -> &'a [u32]
    ensures { result.now ≡ ids_at table.now sheet.now }
{
    match table.get(sheet) {
        Some(ids) => ids.as_slice(),
        None => &[],
    }
}
