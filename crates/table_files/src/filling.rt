// A table that is filled into the file of a sheet.
ghost use Rattle.std.specs.Prelude.{◌≡◌, ◌≤◌, ◌∷◌, [], IfOk, codes, length};
ghost use Rattle.std.specs.List.{filter_map};
ghost use Rattle.attr_table.specs.Filling.{entries_from};
ghost use Rattle.edit_rules.specs.Histories.{project};
ghost use Rattle.renum_files.specs.RenumberedFiles.{renumbered_sheet_file};
ghost use Rattle.table_files.specs.FilledFiles.{changed_files, entries_in, filled_in_history};
ghost use Rattle.table_files.specs.FilledFiles.{filled_file, filled_with};
ghost use Rattle.table_files.specs.OpenedFiles.{GivesTableFile};
ghost use Rattle.table_files.specs.steps.Room.{AreOfTable};

use crate::at_once::filled_at_once;
use crate::fault::{TableFileFault, TableKind, refused, row_fault};
use crate::opening::session;
use attr_table::{components_of, entries_from};
use desk_entries::put_all;
use edit_desk::Desk;
use edit_entries::Entry;
use geda_model::{MOST_FILE_BYTES, Name, Object};
use project_model::Project;
use renum_files::{FileText, sheet_files};
use std::alloc::{AllocError, Global};
use std::collections::BTreeSet;
use std::marker::Model;

/// What filling a table into the file of a sheet comes to.
#[derive(Debug, Drop)]
pub struct FilledFile {
    /// How many components change.
    pub count: usize,
    /// The file of the sheet, if one of its components changes.
    pub files: Vec<FileText>,
}

impl Model for FilledFile {
    ghost use Rattle.table_files.specs.FilledFiles.{FilledData};

    ghost Value = { FilledData };

    ghost view = { λ f. record { count = f.count; files = f.files.items } };
}

/// The file of a sheet of a project, with its objects by id.
fn sheet_files_of(
    alloc: Global,
    project: &Project,
    sheet: &Name,
) -> Result<Vec<FileText>, AllocError>
    ensures { IfOk result (λ files.
        files.items ≡ filter_map (renumbered_sheet_file project.now.contents) (sheet.now ∷ [])) }
{
    let mut names = BTreeSet::new(alloc);
    names.insert(sheet.clone()?)?;
    let rows = project.objects_by_id(alloc)?;
    sheet_files(alloc, project, rows.as_slice(), &names)
}

/// The file of a sheet in which so many components have changed, if one has.
fn changed_files(
    alloc: Global,
    desk: &Desk,
    sheet: &Name,
    count: usize,
) -> Result<Vec<FileText>, AllocError>
    ensures { IfOk result (λ files. files.items ≡ changed_files sheet.now count desk.now.history) }
{
    if count == 0 {
        return Ok(Vec::new(alloc));
    }
    sheet_files_of(alloc, desk.project(), sheet)
}

/// What a history comes to, in which so many components of a sheet have changed.
fn filled_with(
    alloc: Global,
    desk: &Desk,
    sheet: &Name,
    count: usize,
) -> Result<FilledFile, AllocError>
    ensures { IfOk result (λ filled. filled ≡ filled_with sheet.now count desk.now.history) }
{
    let files = changed_files(alloc, desk, sheet, count)?;
    Ok(FilledFile { count, files })
}

/// The components that a table makes, which its entries put in: session `fill`, numbers from 2 on.
fn components_in(
    alloc: Global,
    desk: &Desk,
    sheet: &Name,
    table: &Name,
    bytes: &[u8],
) -> Result<Vec<(u32, Object)>, TableFileFault>
    requires { length bytes.now ≤ 4194304 }
    ensures entries { GivesTableFile
        (λ components. entries_from (codes "fill") 2 1 components.items) result
        (entries_in desk.now.history sheet.now table.now bytes.now) }
    ensures table { IfOk result (λ components.
        AreOfTable (project desk.now.history) sheet.now components.items) }
    ensures few { IfOk result (λ components. length components.items ≤ 4194304) }
{
    match components_of(alloc, desk.project(), sheet, bytes) {
        Ok(components) => Ok(components),
        Err(fault) => {
            let file = table.clone()?;
            Err(row_fault(file, fault))
        }
    }
}

/// The entries of components.
fn entries_of(alloc: Global, components: &[(u32, Object)]) -> Result<Vec<Entry>, AllocError>
    requires { length components.now ≤ 4194304 }
    ensures { IfOk result (λ entries.
        entries.items ≡ entries_from (codes "fill") 2 1 components.now) }
{
    let session = session(alloc)?;
    entries_from(alloc, &session, 2, 1, components)
}

/// What it comes to that these entries are put into a history, one after the other.
fn filled_in_order(
    alloc: Global,
    desk: &mut Desk,
    sheet: &Name,
    entries: Vec<Entry>,
) -> Result<FilledFile, TableFileFault>
    ensures { GivesTableFile (λ filled. filled) result
        (filled_in_history desk.old.history sheet.now entries.items) }
{
    let count = entries.len();
    match put_all(alloc, desk, entries)? {
        None => {
            let filled = filled_with(alloc, desk, sheet, count)?;
            Ok(filled)
        }
        Some(fault) => {
            let file = sheet.clone()?;
            Err(TableFileFault::EditRefused { file, fault })
        }
    }
}

/// What it comes to that the entries of these components are put into a history, one after the
/// other.
fn filled_one_by_one(
    alloc: Global,
    desk: &mut Desk,
    sheet: &Name,
    components: Vec<(u32, Object)>,
) -> Result<FilledFile, TableFileFault>
    requires { length components.items ≤ 4194304 }
    ensures { GivesTableFile (λ filled. filled) result (filled_in_history desk.old.history sheet.now
        (entries_from (codes "fill") 2 1 components.items)) }
{
    let entries = entries_of(alloc, components.as_slice());
    drop(components);
    filled_in_order(alloc, desk, sheet, entries?)
}

/// What it comes to that the entries of the components of a table are put into a history.
fn filled_by(
    alloc: Global,
    desk: &mut Desk,
    sheet: &Name,
    components: Vec<(u32, Object)>,
) -> Result<FilledFile, TableFileFault>
    requires table { AreOfTable (project desk.old.history) sheet.now components.items }
    requires few { length components.items ≤ 4194304 }
    ensures { GivesTableFile (λ filled. filled) result (filled_in_history desk.old.history sheet.now
        (entries_from (codes "fill") 2 1 components.items)) }
{
    match filled_at_once(alloc, desk, sheet, components.as_slice()) {
        Ok(Some(filled)) => {
            drop(components);
            Ok(filled)
        }
        Ok(None) => filled_one_by_one(alloc, desk, sheet, components),
        Err(_) => {
            drop(components);
            Err(TableFileFault::NoMemory)
        }
    }
}

/// What it comes to that the table in the file of this name is filled into the sheet of a history.
fn filled_into(
    alloc: Global,
    desk: &mut Desk,
    sheet: &Name,
    table: &Name,
    bytes: &[u8],
) -> Result<FilledFile, TableFileFault>
    ensures { GivesTableFile (λ filled. filled) result
        (filled_file desk.old.history sheet.now table.now bytes.now) }
{
    if bytes.len() > MOST_FILE_BYTES {
        let file = table.clone()?;
        return Err(refused(file, 1, TableKind::TooLarge));
    }
    match components_in(alloc, desk, sheet, table, bytes) {
        Ok(components) => filled_by(alloc, desk, sheet, components),
        Err(fault) => Err(fault),
    }
}

/// What it comes to that the table in the file of this name is filled into a sheet: how many of its
/// components change, and the canonical text of the sheet then, if there is one (docs/RULES.md,
/// "Attributes as a table").
///
/// `TableRefused` exactly where the table has over 4,194,304 bytes, as the kind `TooLarge` of its
/// record 1, or where a record has a fault: that of the first such record. `EditRefused` exactly
/// where an entry of the table is refused.
pub fn filled_file(
    alloc: Global,
    desk: Desk,
    sheet: &Name,
    table: &Name,
    bytes: &[u8],
) -> Result<FilledFile, TableFileFault>
    ensures { GivesTableFile (λ filled. filled) result
        (filled_file desk.history sheet.now table.now bytes.now) }
{
    let mut desk = desk;
    let filled = filled_into(alloc, &mut desk, sheet, table, bytes);
    drop(desk);
    filled
}
