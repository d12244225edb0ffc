// The sheets of a project as files, and how much text the project has.
ghost use Rattle.std.specs.Prelude.{◌≡◌, ◌-◌, ◌^◌, IfOk, OnOk, map, min};
ghost use Rattle.std.specs.FinMap.{entries, get};
ghost use Rattle.std.specs.List.{filter_map, sum_by};
ghost use Rattle.project_files.specs.Measures.{symbols_text};
ghost use Rattle.project_files.specs.MemoryFolder.{files_in};
ghost use Rattle.project_model.specs.Tables.{row_now};
ghost use Rattle.renum_files.specs.RenumberedFiles.{has_too_much_text, renumbered_sheet_file};
ghost use Rattle.renum_files.specs.steps.Growing.{head_file, with_head, with_object, with_objects};
ghost use Rattle.renum_files.specs.steps.Rows.{row_bytes};

use crate::file_text::FileText;
use geda_model::{MOST_PROJECT_TEXT, Name, Object};
use geda_write::{head_text, object_size, put_object_text};
use project_model::{Placed, Project};
use std::alloc::{AllocError, Global};
use std::collections::{BTreeMap, BTreeSet};

/// Puts the version line of a sheet among others, if the project has the sheet.
fn put_head(
    alloc: Global,
    project: &Project,
    texts: &mut BTreeMap<Name, Vec<u8>>,
    name: &Name,
) -> Result<(), AllocError>
    ensures { OnOk result (files_in texts.new
        ≡ with_head name.now (get project.now.contents.sheets name.now) (files_in texts.old)) }
{
    let Some(head) = project.head(name) else {
        return Ok(());
    };
    let text = head_text(alloc, head)?;
    texts.insert(name.clone()?, text)?;
    Ok(())
}

/// The version lines of those of these sheets that a project has, by name.
fn head_texts(
    alloc: Global,
    project: &Project,
    names: &BTreeSet<Name>,
) -> Result<BTreeMap<Name, Vec<u8>>, AllocError>
    ensures { IfOk result (λ texts.
        files_in texts ≡ filter_map (head_file project.now.contents) names.now.keys) }
{
    let mut texts = BTreeMap::new(alloc);
    for name in names {
        put_head(alloc, project, &mut texts, name)?;
    }
    Ok(texts)
}

/// Puts the canonical text of an object behind that of its sheet, if the sheet is there.
fn put_object(texts: &mut BTreeMap<Name, Vec<u8>>, placed: &Placed) -> Result<(), AllocError>
    ensures { OnOk result (files_in texts.new ≡ map (with_object placed.now) (files_in texts.old)) }
{
    if let Some(text) = texts.get_mut(&placed.sheet) {
        return put_object_text(text, &placed.object);
    }
    Ok(())
}

/// Puts the canonical texts of objects, each behind that of its sheet, if the sheet is there.
fn put_objects(
    texts: &mut BTreeMap<Name, Vec<u8>>,
    rows: &[(u32, &Placed)],
) -> Result<(), AllocError>
    ensures { OnOk result
        (files_in texts.new ≡ with_objects (map row_now rows.now) (files_in texts.old)) }
{
    for row in rows {
        put_object(texts, row.1)?;
    }
    Ok(())
}

/// Texts by name as files.
fn files_of(alloc: Global, texts: BTreeMap<Name, Vec<u8>>) -> Result<Vec<FileText>, AllocError>
    ensures { IfOk result (λ files. files.items ≡ files_in texts) }
{
    let mut files = Vec::new(alloc);
    for (name, text) in texts {
        files.push(FileText { name, text })?;
    }
    Ok(files)
}

/// The files of these sheets of a project that has these objects, by name: their canonical texts.
#[tactic(auto, using(crate::proofs::GrowingLemmas::files_are))]
pub fn sheet_files(
    alloc: Global,
    project: &Project,
    rows: &[(u32, &Placed)],
    names: &BTreeSet<Name>,
) -> Result<Vec<FileText>, AllocError>
    requires { map row_now rows.now ≡ entries project.now.contents.objects }
    ensures { IfOk result (λ files.
        files.items ≡ filter_map (renumbered_sheet_file project.now.contents) names.now.keys) }
{
    let mut texts = head_texts(alloc, project, names)?;
    put_objects(&mut texts, rows)?;
    files_of(alloc, texts)
}

fn bytes_of_objects(rows: &[(u32, &Placed)]) -> u64
    ensures { result ≡ min (sum_by row_bytes (map row_now rows.now)) (2 ^ 64 - 1) }
{
    let mut bytes: u64 = 0;
    for row in rows {
        bytes = bytes.saturating_add(object_size(&row.1.object));
    }
    bytes
}

/// Whether a project that has these objects, and symbols with texts of so many bytes, has more text
/// than a project may have. It takes no memory.
pub(crate) fn has_too_much_text(
    project: &Project,
    rows: &[(u32, &Placed)],
    symbol_bytes: u64,
) -> bool
    requires objects { map row_now rows.now ≡ entries project.now.contents.objects }
    requires symbols { symbol_bytes ≡ min (symbols_text project.now.contents) (2 ^ 64 - 1) }
    ensures { result ≡ has_too_much_text project.now.contents }
{
    bytes_of_objects(rows).saturating_add(symbol_bytes) > MOST_PROJECT_TEXT as u64
}
