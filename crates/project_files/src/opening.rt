// The project of what is gathered, put in thing by thing.
ghost use Rattle.std.specs.Prelude.{◌≡◌, ◌+◌, ◌<◌, ◌≤◌, IfOk, OnOk, length};
ghost use Rattle.std.specs.List.{filter_map, sum_by};
ghost use Rattle.geda_model.specs.Limits.{most_sheets, most_symbols};
ghost use Rattle.project_model.specs.Changes.{put};
ghost use Rattle.project_model.specs.Projects.{empty_project};
ghost use Rattle.project_files.specs.Opening.{found_symbol, found_library, most_project_objects};
ghost use Rattle.project_files.specs.Opening.{object_items, gathered_project, gathered_items, sheet_items};
ghost use Rattle.project_files.specs.Opening.{sheets_items, symbol_items};
ghost use Rattle.project_files.specs.ProjectFiles.{IsAnswer, with_view};
ghost use Rattle.project_files.specs.steps.Counting.{object_count};
ghost use Rattle.project_files.specs.steps.Standing.{IsWhole};

use crate::fault::FileFault;
use crate::gathered::GatheredFiles;
use crate::project_text::{has_too_many_objects, is_over_full, object_count, symbol_count};
use geda_model::{Name, Objects, Sheet, Symbol};
use project_model::{Placed, Project, Thing, Value};
use std::alloc::{AllocError, Global};

/// Puts in the objects of a sheet, the first under an id and the others behind it. The next id.
fn put_objects(
    project: &mut Project,
    sheet: &Name,
    id: u32,
    objects: Objects,
) -> Result<u32, AllocError>
    requires ids { id + length objects ≤ 4294967295 }
    requires room { length objects ≤ project.old.spare.things }
    ensures contents { OnOk result
        (project.new.contents ≡ put project.old.contents (object_items sheet.now id objects)) }
    ensures next { IfOk result (λ next. next ≡ id + length objects) }
    ensures things { OnOk result
        (project.old.spare.things ≤ project.new.spare.things + length objects) }
    ensures names { OnOk result (project.old.spare.names ≤ project.new.spare.names) }
{
    let list = objects.into_vec();
    let mut next = id;
    for object in list {
        let placed = Placed {
            sheet: sheet.clone()?,
            object,
        };
        drop(project.put_one(&Thing::Object(next), Some(Value::Object(placed))));
        next += 1;
    }
    Ok(next)
}

/// Puts in a sheet and its objects. The next id.
fn put_sheet(project: &mut Project, name: Name, id: u32, sheet: Sheet) -> Result<u32, AllocError>
    requires ids { id + length sheet.objects ≤ 4294967295 }
    requires room { length sheet.objects < project.old.spare.things }
    requires room_for_name { 0 < project.old.spare.names }
    ensures contents { OnOk result
        (project.new.contents ≡ put project.old.contents (sheet_items name id sheet)) }
    ensures next { IfOk result (λ next. next ≡ id + length sheet.objects) }
    ensures things { OnOk result
        (project.old.spare.things ≤ project.new.spare.things + (length sheet.objects + 1)) }
    ensures names { OnOk result (project.old.spare.names ≤ project.new.spare.names + 1) }
{
    let thing = Thing::SheetName(name.clone()?);
    let Sheet { head, objects } = sheet;
    drop(project.put_one(&thing, Some(Value::Head(head))));
    put_objects(project, &name, id, objects)
}

fn put_sheets(project: &mut Project, names: Vec<Name>, sheets: Vec<Sheet>) -> Result<(), AllocError>
    requires few { sum_by object_count sheets.items ≤ most_project_objects }
    requires room { length names.items + sum_by object_count sheets.items
        ≤ project.old.spare.things }
    requires room_for_names { length names.items ≤ project.old.spare.names }
    ensures contents { OnOk result (project.new.contents
        ≡ put project.old.contents (sheets_items 0 names.items sheets.items)) }
    ensures things { OnOk result (project.old.spare.things ≤ project.new.spare.things
        + (length names.items + sum_by object_count sheets.items)) }
    ensures names { OnOk result
        (project.old.spare.names ≤ project.new.spare.names + length names.items) }
{
    let mut sheets = sheets.into_iter();
    let mut id: u32 = 0;
    for name in names {
        let Some(sheet) = sheets.next() else {
            return Ok(());
        };
        id = put_sheet(project, name, id, sheet)?;
    }
    Ok(())
}

fn put_symbols(project: &mut Project, symbols: Vec<(Name, Option<Symbol>)>)
    requires room { length (filter_map found_symbol symbols.items) ≤ project.old.spare.things }
    requires room_for_names { length (filter_map found_symbol symbols.items)
        ≤ project.old.spare.names }
    ensures contents { project.new.contents ≡ put project.old.contents
        (symbol_items (filter_map found_symbol symbols.items)) }
{
    for (name, symbol) in symbols {
        if let Some(symbol) = symbol {
            drop(project.put_one(&Thing::SymbolName(name), Some(Value::Symbol(symbol))));
        }
    }
}

/// The project that what is gathered makes of the empty one.
fn project_from(alloc: Global, gathered: GatheredFiles) -> Result<Project, AllocError>
    requires objects { sum_by object_count gathered.sheets ≤ most_project_objects }
    requires sheets { length gathered.queue ≤ most_sheets }
    requires symbols { length (found_library gathered) ≤ most_symbols }
    ensures { IfOk result
        (λ project. project.contents ≡ put empty_project (gathered_items gathered)) }
{
    let GatheredFiles {
        queue,
        sheets,
        symbols,
    } = gathered;
    let names = queue.len() + symbol_count(&symbols);
    let mut project = Project::new(alloc);
    project.reserve_for(alloc, names + object_count(&sheets), names)?;
    put_sheets(&mut project, queue, sheets)?;
    put_symbols(&mut project, symbols);
    Ok(project)
}

/// The project of what is gathered. Its objects have the ids from 0 in the order of the sheets, and
/// on each in file order.
///
/// `TooManyObjects` exactly where there are more objects than a project may have; `ProjectFull`
/// exactly where else there are more sheets or symbols, or more text (docs/FORMATS.md, "Limits").
pub fn opened(alloc: Global, gathered: GatheredFiles) -> Result<Project, FileFault>
    requires { IsWhole gathered }
    ensures { IsAnswer (λ end. end ≡ gathered_project gathered)
        (with_view (λ p. p.contents) result) }
{
    if has_too_many_objects(&gathered) {
        return Err(FileFault::TooManyObjects);
    }
    if is_over_full(&gathered) {
        return Err(FileFault::ProjectFull);
    }
    Ok(project_from(alloc, gathered)?)
}
