// The sheets of a project and their objects, as texts.
ghost use Rattle.std.specs.Prelude.{◌≡◌, ◌++◌, ◌∷◌, [], IfOk, OnOk, filter, map};
ghost use Rattle.std.specs.List.{flat_map};
ghost use Rattle.std.specs.Fmt.{decimal};
ghost use Rattle.geda_defs.specs.Lines.{ended};
ghost use Rattle.project_model.specs.Tables.{row_now};
ghost use Rattle.project_model.specs.Projects.{ProjectData, is_on};
ghost use Rattle.geda_grammar.specs.Canonical.{sheet_text};
ghost use Rattle.printed_texts.specs.PrintedTexts.{word};
ghost use Rattle.instance_objects.specs.SheetIds.{AreIdsBySheet};
ghost use Rattle.reports.specs.SheetTexts.{object_letter, object_line, objects_on, objects_text};
ghost use Rattle.reports.specs.SheetTexts.{sheet_line, sheet_under, sheets_text};
ghost use Rattle.reports.specs.steps.Rows.{row_text};

use geda_model::{Body, Head, Items, Name, Object};
use geda_write::{head_text, letter_of_shape, object_text};
use instance_objects::{ids_at, ids_by_sheet};
use printed_texts::put_word;
use project_model::{Placed, Project};
use std::alloc::{AllocError, Global};
use std::collections::BTreeMap;

/// Those of these objects that stand on a sheet, in their order.
fn rows_on<'a>(
    alloc: Global,
    rows: &[(u32, &'a Placed)],
    name: &Name,
) -> Result<Vec<(u32, &'a Placed)>, AllocError>
    ensures { IfOk result (λ found. map row_now found.items
        ≡ filter (is_on name.now) (map row_now rows.now)) }
{
    let mut found = Vec::new(alloc);
    for row in rows {
        if row.1.sheet == *name {
            found.push(*row)?;
        }
    }
    Ok(found)
}

/// The objects of a sheet with their ids, by id.
fn objects_on<'a>(
    alloc: Global,
    project: &'a Project,
    name: &Name,
) -> Result<Vec<(u32, &'a Placed)>, AllocError>
    ensures { IfOk result
        (λ rows. map row_now rows.items ≡ objects_on project.now.contents name.now) }
{
    let rows = project.objects_by_id(alloc)?;
    rows_on(alloc, &rows, name)
}

/// Puts the canonical texts of objects behind a text.
fn put_objects(alloc: Global, text: &mut Vec<u8>, rows: &[(u32, &Placed)]) -> Result<(), AllocError>
    ensures { OnOk result (text.new.items
        ≡ text.old.items ++ flat_map row_text (map row_now rows.now)) }
{
    for row in rows {
        text.append(&mut object_text(alloc, &row.1.object)?)?;
    }
    Ok(())
}

/// The canonical text of a sheet under its version line.
#[tactic(auto, using(crate::proofs::RowLemmas::texts_of))]
pub fn sheet_text(
    alloc: Global,
    project: &Project,
    name: &Name,
    head: &Head,
) -> Result<Vec<u8>, AllocError>
    ensures { IfOk result
        (λ text. text.items ≡ sheet_text (sheet_under project.now.contents name.now head.now)) }
{
    let rows = objects_on(alloc, project, name)?;
    let mut text = head_text(alloc, head)?;
    put_objects(alloc, &mut text, &rows)?;
    Ok(text)
}

fn letter_of(body: &Body) -> u8
    ensures { result ≡ object_letter body.now }
{
    match body {
        Body::Shape(shape) => letter_of_shape(shape),
        Body::Component(_) => b'C',
    }
}

/// Puts the line of an object behind a text: its id and its letter.
fn put_object_line(
    alloc: Global,
    text: &mut Vec<u8>,
    id: u32,
    object: &Object,
) -> Result<(), AllocError>
    ensures { OnOk result (text.new.items ≡ text.old.items ++ ended
        (decimal id ++ 32 ∷ object_letter object.now.body ∷ [])) }
{
    let number = format!(in alloc; "{id} ")?;
    text.extend_from_slice(number.as_bytes())?;
    text.push(letter_of(&object.body))?;
    text.push(b'\n')?;
    Ok(())
}

/// Puts a line for each of these objects behind a text.
fn put_object_lines(
    alloc: Global,
    text: &mut Vec<u8>,
    rows: &[(u32, &Placed)],
) -> Result<(), AllocError>
    ensures { OnOk result (text.new.items
        ≡ text.old.items ++ flat_map object_line (map row_now rows.now)) }
{
    for row in rows {
        put_object_line(alloc, text, row.0, &row.1.object)?;
    }
    Ok(())
}

/// A line for each object of a sheet.
pub fn objects_text(alloc: Global, project: &Project, name: &Name) -> Result<Vec<u8>, AllocError>
    ensures { IfOk result (λ text. text.items ≡ objects_text project.now.contents name.now) }
{
    let rows = objects_on(alloc, project, name)?;
    let mut text = Vec::new(alloc);
    put_object_lines(alloc, &mut text, &rows)?;
    Ok(text)
}

/// Puts the line of a sheet behind a text: its name and how many objects it has.
fn put_sheet_line(
    alloc: Global,
    text: &mut Vec<u8>,
    name: &Name,
    count: usize,
) -> Result<(), AllocError>
    ensures { OnOk result (text.new.items ≡ text.old.items ++ ended
        (word name.now ++ 32 ∷ decimal count)) }
{
    put_word(text, name.as_str().as_bytes())?;
    let number = format!(in alloc; " {count}\n")?;
    text.extend_from_slice(number.as_bytes())?;
    Ok(())
}

/// The lines of sheets, by a table of the ids of their objects.
fn sheet_lines(
    alloc: Global,
    names: &[Name],
    table: &BTreeMap<Name, Items<u32>>,
) -> Result<Vec<u8>, AllocError>
    ensures { (p : ProjectData) → AreIdsBySheet p table.now
        → IfOk result (λ text. text.items ≡ flat_map (sheet_line p) names.now) }
{
    let mut text = Vec::new(alloc);
    for name in names {
        put_sheet_line(alloc, &mut text, name, ids_at(table, name).len())?;
    }
    Ok(text)
}

/// A line for each sheet of a project, by name.
pub fn sheets_text(alloc: Global, project: &Project) -> Result<Vec<u8>, AllocError>
    ensures { IfOk result (λ text. text.items ≡ sheets_text project.now.contents) }
{
    let names = project.sheet_names(alloc)?;
    let table = ids_by_sheet(alloc, project)?;
    sheet_lines(alloc, &names, &table)
}
