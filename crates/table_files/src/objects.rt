// The objects of a sheet by their ids, among which components are put in, and the file that they
// make.
ghost use Rattle.std.specs.Prelude.{◌≡◌, ◌≤◌, ◌++◌, ◌-◌, ◌^◌, IfOk, OnOk, map, min, option_copied};
ghost use Rattle.std.specs.Prelude.{slice_set, true};
ghost use Rattle.std.specs.List.{AllByRecursion, flat_map, sum_by};
ghost use Rattle.geda_grammar.specs.Canonical.{object_text};
ghost use Rattle.project_model.specs.Tables.{row_now};
ghost use Rattle.desk_entries.specs.steps.RoomForEntries.{IsFileText, component_bytes};
ghost use Rattle.table_files.specs.steps.Objects.{all_on, files_of, has_key, have_keys, object_of};
ghost use Rattle.table_files.specs.steps.Objects.{objects_now, row_bytes, with_components};
ghost use Rattle.table_files.specs.steps.Room.{IsInItsRanges};

use geda_model::{Head, MOST_FILE_BYTES, Name, Object};
use geda_write::{head_text, put_object_text};
use project_files::object_bound;
use project_model::Placed;
use renum_files::FileText;
use std::alloc::{AllocError, Global};

/// Tells that each component is in its ranges.
pub(crate) fn tell_ranges(components: &[(u32, Object)])
    ensures { AllByRecursion IsInItsRanges components.now }
{
    for component in components {
        // A field is read so that the proof sees that the component is in range.
        let _ = &component.1.body;
    }
}

/// At least the bytes of the texts of objects, and 18,446,744,073,709,551,615 where they are more.
/// It takes no memory.
pub(crate) fn bytes_of_rows(rows: &[(u32, &Placed)]) -> u64
    ensures { min (sum_by row_bytes (map row_now rows.now)) (2 ^ 64 - 1) ≤ result }
{
    let mut bytes: u64 = 0;
    for row in rows {
        bytes = bytes.saturating_add(object_bound(&row.1.object));
    }
    bytes
}

/// The same of components.
pub(crate) fn bytes_of(components: &[(u32, Object)]) -> u64
    ensures { min (sum_by component_bytes components.now) (2 ^ 64 - 1) ≤ result }
{
    let mut bytes: u64 = 0;
    for component in components {
        bytes = bytes.saturating_add(object_bound(&component.1));
    }
    bytes
}

fn is_short(component: &(u32, Object)) -> bool
    ensures { result ≡ true → IsFileText component.now }
{
    object_bound(&component.1) <= MOST_FILE_BYTES as u64
}

/// Whether no text of a component is longer than a file may be, as far as that is told without
/// counting each of its numbers. It takes no memory.
pub(crate) fn are_short(components: &[(u32, Object)]) -> bool
    ensures { result ≡ true → AllByRecursion IsFileText components.now }
{
    for component in components {
        if !is_short(component) {
            return false;
        }
    }
    true
}

/// Whether all objects stand in the sheet. It takes no memory.
pub(crate) fn all_on(rows: &[(u32, &Placed)], sheet: &Name) -> bool
    ensures { result ≡ all_on sheet.now (map row_now rows.now) }
{
    for row in rows {
        if row.1.sheet != *sheet {
            return false;
        }
    }
    true
}

fn has_key(rows: &[(u32, &Placed)], id: u32) -> bool
    ensures { result ≡ has_key rows.now id }
{
    match rows.get(id as usize) {
        Some(row) => row.0 == id,
        None => false,
    }
}

/// Whether each component has the id of the row whose place is this id. It takes no memory.
pub(crate) fn have_keys(rows: &[(u32, &Placed)], components: &[(u32, Object)]) -> bool
    ensures { result ≡ have_keys rows.now components.now }
{
    for component in components {
        if !has_key(rows, component.0) {
            return false;
        }
    }
    true
}

/// The objects of rows.
pub(crate) fn objects_of<'a>(
    alloc: Global,
    rows: &[(u32, &'a Placed)],
) -> Result<Vec<&'a Object>, AllocError>
    ensures { IfOk result (λ objects.
        objects_now objects.items ≡ map object_of (map row_now rows.now)) }
{
    let mut objects = Vec::with_capacity(alloc, rows.len())?;
    for row in rows {
        objects.push(&row.1.object)?;
    }
    Ok(objects)
}

fn put_component<'a>(objects: &mut Vec<&'a Object>, component: &'a (u32, Object))
    ensures { objects_now objects.new.items
        ≡ slice_set (objects_now objects.old.items) component.now.0 component.now.1 }
{
    let place = component.0 as usize;
    if place >= objects.len() {
        return;
    }
    objects[place] = &component.1;
}

/// Puts components in, each at the place that its id is, if there is one.
pub(crate) fn put_components<'a>(objects: &mut Vec<&'a Object>, components: &'a [(u32, Object)])
    ensures { objects_now objects.new.items
        ≡ with_components (objects_now objects.old.items) components.now }
{
    for component in components {
        put_component(objects, component);
    }
}

/// Puts the canonical texts of objects behind another text.
fn put_texts(text: &mut Vec<u8>, objects: &[&Object]) -> Result<(), AllocError>
    ensures { OnOk result (text.new.items
        ≡ text.old.items ++ flat_map object_text (objects_now objects.now)) }
{
    for object in objects {
        put_object_text(text, object)?;
    }
    Ok(())
}

/// The file of a sheet with this version line and these objects; none where there is no such line.
pub(crate) fn files_of(
    alloc: Global,
    sheet: &Name,
    head: Option<&Head>,
    objects: &[&Object],
) -> Result<Vec<FileText>, AllocError>
    ensures { IfOk result (λ files. files.items
        ≡ files_of sheet.now (option_copied head.entry) (objects_now objects.now)) }
{
    let mut files = Vec::new(alloc);
    let Some(head) = head else {
        return Ok(files);
    };
    let mut text = head_text(alloc, head)?;
    put_texts(&mut text, objects)?;
    let name = sheet.clone()?;
    files.push(FileText { name, text })?;
    Ok(files)
}
