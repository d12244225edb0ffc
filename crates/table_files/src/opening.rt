// The file of a sheet, opened as a history.
ghost use Rattle.std.specs.Prelude.{◌≡◌, IfOk, codes};
ghost use Rattle.edit_rules.specs.Values.{sheet_value};
ghost use Rattle.table_files.specs.Faults.{IsFaultOf};
ghost use Rattle.table_files.specs.OpenedFiles.{GivesTableFile, add_sheet, opened_file, put_sheet};
ghost use Rattle.table_files.specs.declared.fault.TableFileFault.TheVariants.{EditRefused};

use crate::fault::{TableFileFault, unread};
use desk_entries::put_all;
use edit_desk::Desk;
use edit_entries::{Edit, EditFault, Entry};
use edit_rules::sheet_of;
use geda_model::{Block, Name};
use geda_text::text_of;
use std::alloc::{AllocError, Global};

/// The session of all edits of a table.
pub(crate) fn session(alloc: Global) -> Result<Name, AllocError>
    ensures { IfOk result (λ name. name ≡ codes "fill") }
{
    match Name::new(alloc, "fill") {
        Ok(name) => Ok(name),
        Err(_) => Err(AllocError),
    }
}

/// The entry that adds a sheet with this text.
fn add_sheet(alloc: Global, sheet: &Name, text: &str) -> Result<Entry, AllocError>
    ensures { IfOk result (λ entry. entry ≡ add_sheet sheet.now text.now) }
{
    let session = session(alloc)?;
    let name = sheet.clone()?;
    let text = Block::new(alloc, text)?;
    Ok(Entry {
        session,
        number: 1,
        base: 0,
        edit: Edit::AddSheet { name, text },
    })
}

/// Puts the entry that adds a sheet into a desk.
fn put_sheet(
    alloc: Global,
    desk: &mut Desk,
    sheet: &Name,
    text: &str,
) -> Result<Option<EditFault>, AllocError>
    ensures { IfOk result (λ fault. (desk.new.history, fault)
        ≡ put_sheet desk.old.history sheet.now text.now) }
{
    let entry = add_sheet(alloc, sheet, text)?;
    let mut entries = Vec::new(alloc);
    entries.push(entry)?;
    let fault = put_all(alloc, desk, entries)?;
    Ok(fault)
}

/// The fault of the bytes of a sheet's file, and this one where they have none.
fn fault_of(alloc: Global, sheet: &Name, bytes: &[u8], other: TableFileFault) -> TableFileFault
    ensures { IsFaultOf sheet.now other (sheet_value bytes.now) result }
{
    let Ok(file) = sheet.clone() else {
        return TableFileFault::NoMemory;
    };
    match sheet_of(alloc, bytes) {
        Ok(sheet) => {
            drop(sheet);
            other
        }
        Err(fault) => {
            drop(other);
            unread(file, fault)
        }
    }
}

/// The fault of a text, where the entry that adds its sheet is refused so.
fn refused_text(alloc: Global, sheet: &Name, text: &str, fault: EditFault) -> TableFileFault
    ensures { IsFaultOf sheet.now (EditRefused sheet.now fault) (sheet_value text.now) result }
{
    let Ok(file) = sheet.clone() else {
        return TableFileFault::NoMemory;
    };
    let refused = TableFileFault::EditRefused { file, fault };
    fault_of(alloc, sheet, text.as_bytes(), refused)
}

/// The history of the sheet that a text spells. The sheet is read once where its entry is accepted.
fn opened_text(alloc: Global, sheet: &Name, text: &str) -> Result<Desk, TableFileFault>
    ensures { GivesTableFile (λ desk. desk.history) result (opened_file sheet.now text.now) }
{
    let mut desk = Desk::new(alloc);
    match put_sheet(alloc, &mut desk, sheet, text) {
        Ok(None) => Ok(desk),
        Ok(Some(fault)) => {
            drop(desk);
            Err(refused_text(alloc, sheet, text, fault))
        }
        Err(_) => {
            drop(desk);
            Err(TableFileFault::NoMemory)
        }
    }
}

/// The sheet that the bytes of the file of this name spell, as the history of the entry that adds
/// it: session `fill`, number 1.
///
/// `Refused` exactly where the bytes spell none, with the line and the kind of their fault
/// (docs/RULES.md, "Faults"); `EditRefused` exactly where the entry is refused. Bytes that are not
/// UTF-8 spell none, so that such bytes without a fault are want of memory.
#[tactic(auto, using(crate::proofs::OpeningLemmas::no_text))]
pub fn opened_file(alloc: Global, sheet: &Name, bytes: &[u8]) -> Result<Desk, TableFileFault>
    ensures { GivesTableFile (λ desk. desk.history) result (opened_file sheet.now bytes.now) }
{
    match text_of(bytes) {
        Some(text) => opened_text(alloc, sheet, text),
        None => Err(fault_of(alloc, sheet, bytes, TableFileFault::NoMemory)),
    }
}
