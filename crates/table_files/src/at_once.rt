// Components that are put into the file of a sheet at once, where no limit is near: none of their
// entries is then spelled and read.
ghost use Rattle.std.specs.Prelude.{◌≡◌, Ok, true, IfOk, IfSome, codes, map, nat_le};
ghost use Rattle.std.specs.FinMap.{entries};
ghost use Rattle.std.specs.Str.{bytes_eq};
ghost use Rattle.edit_entries.specs.Entries.{entry_size};
ghost use Rattle.edit_rules.specs.Histories.{project};
ghost use Rattle.edit_rules.specs.Verdicts.{Legal};
ghost use Rattle.project_model.specs.Tables.{row_now};
ghost use Rattle.attr_table.specs.Filling.{entries_from};
ghost use Rattle.table_files.specs.FilledFiles.{filled_in_history};
ghost use Rattle.table_files.specs.steps.Openings.{adds_sheet, is_opened, is_opening};
ghost use Rattle.table_files.specs.steps.Room.{AreLittle, AreOfTable, HaveRoom};

use crate::filling::FilledFile;
use crate::objects::{
    all_on, are_short, bytes_of, bytes_of_rows, files_of, have_keys, objects_of, put_components,
    tell_ranges,
};
use edit_desk::Desk;
use edit_entries::{Edit, Entry};
use geda_model::{MOST_PROJECT_TEXT, Name, Object};
use project_model::Placed;
use std::alloc::{AllocError, Global};

fn is_of_tables(entry: &Entry) -> bool
    ensures { result ≡ bytes_eq entry.now.session (codes "fill") }
{
    entry.session.as_str() == "fill"
}

fn adds_sheet(edit: &Edit) -> bool
    ensures { result ≡ adds_sheet edit.now }
{
    matches!(edit, Edit::AddSheet { .. })
}

fn is_small(entry: &Entry) -> bool
    ensures { result ≡ nat_le (entry_size entry.now) 134217728 }
{
    entry.size() <= 134_217_728
}

fn is_opening(entry: &Entry) -> bool
    ensures { result ≡ is_opening entry.now }
{
    is_of_tables(entry) && entry.number == 1 && adds_sheet(&entry.edit) && is_small(entry)
}

/// Whether the history is that of a sheet that was opened. It takes no memory.
fn is_opened(desk: &Desk) -> bool
    ensures opened { result ≡ is_opened desk.now.history }
    ensures legal { Legal desk.now.history }
{
    if desk.front() != 1 {
        return false;
    }
    match desk.entry(0) {
        Some(entry) => is_opening(entry),
        None => false,
    }
}

/// Whether so many components, with these bytes of new texts beside those of the old ones, are far
/// from all limits.
fn are_little(old: u64, new: u64, count: usize) -> bool
    ensures { result ≡ true → AreLittle old new count }
{
    if count > 199_999 {
        return false;
    }
    old.saturating_add(new) <= MOST_PROJECT_TEXT as u64
}

/// Whether each of these components has its place among the objects of an opened sheet, and no
/// limit is near. It takes no memory.
fn have_room(
    desk: &Desk,
    sheet: &Name,
    rows: &[(u32, &Placed)],
    components: &[(u32, Object)],
) -> bool
    requires { map row_now rows.now ≡ entries (project desk.now.history).objects }
    ensures { result ≡ true
        → HaveRoom desk.now.history sheet.now (map row_now rows.now) components.now }
{
    if !is_opened(desk) {
        return false;
    }
    if !all_on(rows, sheet) {
        return false;
    }
    if !have_keys(rows, components) {
        return false;
    }
    if !are_short(components) {
        return false;
    }
    tell_ranges(components);
    are_little(bytes_of_rows(rows), bytes_of(components), components.len())
}

/// What it comes to that the components of a table are put into an opened sheet; nothing where a
/// limit may be near.
pub(crate) fn filled_at_once<'a>(
    alloc: Global,
    desk: &'a Desk,
    sheet: &Name,
    components: &'a [(u32, Object)],
) -> Result<Option<FilledFile>, AllocError>
    requires { AreOfTable (project desk.now.history) sheet.now components.now }
    ensures { IfOk result (λ answer. IfSome answer (λ filled.
        filled_in_history desk.now.history sheet.now
        (entries_from (codes "fill") 2 1 components.now)
        ≡ Ok filled)) }
{
    if components.is_empty() {
        return Ok(None);
    }
    let project = desk.project();
    let rows = project.objects_by_id(alloc)?;
    if !have_room(desk, sheet, rows.as_slice(), components) {
        return Ok(None);
    }
    let mut objects = objects_of(alloc, rows.as_slice())?;
    put_components(&mut objects, components);
    let files = files_of(alloc, sheet, project.head(sheet), objects.as_slice())?;
    let count = components.len();
    Ok(Some(FilledFile { count, files }))
}
