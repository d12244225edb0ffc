// Entries as JSON, a line of a file each. Where the text of an edit is `@NAME`, it is that of the
// file NAME, and `[0 to 999]` is a list of ids.
ghost use Rattle.std.specs.Prelude.{IfOk};
ghost use Rattle.edit_entries.specs.Entries.{EditIsInRange};

use crate::ids::with_ids;
use case_tables::{CaseFault, TableFiles, text_in};
use edit_entries::{Edit, Entry};
use edit_json::{EntryFault, read_entry};
use geda_model::Block;
use std::alloc::Global;

/// A text, or that of the file which it names behind `@`.
fn named_text(alloc: Global, text: Block, files: &TableFiles) -> Result<Block, CaseFault> {
    let Some(name) = text.as_str().strip_prefix('@') else {
        return Ok(text);
    };
    let text = text_in(alloc, files.find(name)?)?;
    Ok(Block::new(alloc, text.as_str())?)
}

fn edit_of(alloc: Global, edit: Edit, files: &TableFiles) -> Result<Edit, CaseFault>
    requires { EditIsInRange edit }
    ensures { IfOk result EditIsInRange }
{
    match edit {
        Edit::AddSheet { name, text } => Ok(Edit::AddSheet {
            name,
            text: named_text(alloc, text, files)?,
        }),
        Edit::AddSymbol { name, text } => Ok(Edit::AddSymbol {
            name,
            text: named_text(alloc, text, files)?,
        }),
        Edit::ReplaceSymbol { name, text } => Ok(Edit::ReplaceSymbol {
            name,
            text: named_text(alloc, text, files)?,
        }),
        Edit::AddObject { sheet, text } => Ok(Edit::AddObject {
            sheet,
            text: named_text(alloc, text, files)?,
        }),
        Edit::Replace { id, text } => Ok(Edit::Replace {
            id,
            text: named_text(alloc, text, files)?,
        }),
        edit => Ok(edit),
    }
}

/// The entry, with the texts of its edit from the files that they name.
fn with_texts(alloc: Global, entry: Entry, files: &TableFiles) -> Result<Entry, CaseFault> {
    let Entry {
        session,
        number,
        base,
        edit,
    } = entry;
    match edit_of(alloc, edit, files) {
        Ok(edit) => Ok(Entry {
            session,
            number,
            base,
            edit,
        }),
        Err(fault) => {
            drop(session);
            Err(fault)
        }
    }
}

fn case_fault(fault: EntryFault) -> CaseFault {
    match fault {
        EntryFault::BadEdit { .. } => CaseFault::BadCase,
        EntryFault::NoMemory => CaseFault::NoMemory,
    }
}

/// The entry of a line.
pub fn entry_of(alloc: Global, line: &str, files: &TableFiles) -> Result<Entry, CaseFault> {
    let line = with_ids(alloc, line)?;
    match read_entry(alloc, line.as_str().as_bytes()) {
        Ok(entry) => with_texts(alloc, entry, files),
        Err(fault) => Err(case_fault(fault)),
    }
}

fn put_entries(
    alloc: Global,
    entries: &mut Vec<Entry>,
    lines: &str,
    files: &TableFiles,
) -> Result<(), CaseFault> {
    for line in lines.lines() {
        entries.push(entry_of(alloc, line, files)?)?;
    }
    Ok(())
}

/// The entries of a file.
pub fn entries_of(alloc: Global, file: &str, files: &TableFiles) -> Result<Vec<Entry>, CaseFault> {
    let text = text_in(alloc, files.find(file)?)?;
    let mut entries = Vec::new(alloc);
    match put_entries(alloc, &mut entries, text.as_str(), files) {
        Ok(()) => Ok(entries),
        Err(fault) => {
            drop(entries);
            Err(fault)
        }
    }
}
