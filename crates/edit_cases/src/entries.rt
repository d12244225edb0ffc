// Entries as JSON, and stored rows.
use case_tables::{CaseFault, TableFiles, bytes_of, cell, text_in};
use edit_entries::Entry;
use edit_json::{EntryFault, Row, RowFault, entry_text, read_entry, read_row, row_text};
use std::alloc::Global;

/// The pointer of a fault behind its name.
fn refused(alloc: Global, pointer: &str) -> Result<String, CaseFault> {
    if pointer.is_empty() {
        return Ok(String::from_str(alloc, "BadEdit")?);
    }
    Ok(format!(in alloc; "BadEdit {pointer}")?)
}

/// Whether a text is read as this entry.
fn is_read_back(alloc: Global, text: &[u8], entry: &Entry) -> Result<bool, CaseFault> {
    match read_entry(alloc, text) {
        Ok(again) => {
            let is_same = again == *entry;
            drop(again);
            Ok(is_same)
        }
        Err(EntryFault::BadEdit { .. }) => Ok(false),
        Err(EntryFault::NoMemory) => Err(CaseFault::NoMemory),
    }
}

/// The one spelling of an entry, which has to be read back.
fn written(alloc: Global, entry: &Entry) -> Result<String, CaseFault> {
    let text = entry_text(alloc, entry)?;
    if !is_read_back(alloc, text.as_slice(), entry)? {
        return Ok(String::from_str(alloc, "another entry")?);
    }
    text_in(alloc, text.as_slice())
}

/// What a body is read as.
fn told(alloc: Global, body: &[u8]) -> Result<String, CaseFault> {
    match read_entry(alloc, body) {
        Ok(entry) => {
            let text = written(alloc, &entry);
            drop(entry);
            text
        }
        Err(EntryFault::BadEdit { pointer }) => refused(alloc, pointer.as_str()),
        Err(EntryFault::NoMemory) => Err(CaseFault::NoMemory),
    }
}

/// A body of these bytes, or of those of the file that `@NAME` names.
pub fn body(alloc: Global, cells: &[&str], files: &TableFiles) -> Result<String, CaseFault> {
    match cell(cells, 0).strip_prefix('@') {
        Some(name) => told(alloc, files.find(name)?),
        None => told(alloc, bytes_of(alloc, cell(cells, 0))?.as_slice()),
    }
}

/// The first entry of ann, with this edit.
pub fn edit(alloc: Global, cells: &[&str]) -> Result<String, CaseFault> {
    let mut body = b"{\"session\":\"ann\",\"number\":1,\"base\":0,\"edit\":".to_vec(alloc)?;
    let edit = bytes_of(alloc, cell(cells, 0))?;
    body.extend_from_slice(edit.as_slice())?;
    body.push(b'}')?;
    told(alloc, body.as_slice())
}

/// Whether a text is read as the row of version 2 of this entry.
fn is_row_read_back(alloc: Global, text: &[u8], entry: &Entry) -> Result<bool, CaseFault> {
    match read_row(alloc, text) {
        Ok(row) => {
            let is_same = row.version == 2 && row.entry == *entry;
            drop(row);
            Ok(is_same)
        }
        Err(RowFault::BadRow) => Ok(false),
        Err(RowFault::NoMemory) => Err(CaseFault::NoMemory),
    }
}

/// The spelling of a row in version 2, which has to be read back, behind the version that it has.
fn written_row(alloc: Global, row: &Row) -> Result<String, CaseFault> {
    let text = row_text(alloc, &row.entry)?;
    if !is_row_read_back(alloc, text.as_slice(), &row.entry)? {
        return Ok(String::from_str(alloc, "another row")?);
    }
    let text = text_in(alloc, text.as_slice())?;
    Ok(format!(in alloc; "{} {}", row.version, text.as_str())?)
}

/// A stored row of these bytes: its version, and its entry as a row of version 2.
pub fn row(alloc: Global, cells: &[&str]) -> Result<String, CaseFault> {
    match read_row(alloc, bytes_of(alloc, cell(cells, 0))?.as_slice()) {
        Ok(row) => {
            let text = written_row(alloc, &row);
            drop(row);
            text
        }
        Err(RowFault::BadRow) => Ok(String::from_str(alloc, "BadRow")?),
        Err(RowFault::NoMemory) => Err(CaseFault::NoMemory),
    }
}
