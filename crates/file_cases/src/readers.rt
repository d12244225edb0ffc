// Files that are read, their faults, and their canonical text.
use crate::faults::read;
use case_tables::{CaseFault, TableFiles, bytes_of, cell, number_of, text_in};
use geda_read::{ReadFault, ReadKind, read_object, read_sheet, read_symbol};
use geda_write::{head_text, object_text, sheet_text, symbol_text};
use std::alloc::Global;

/// The fault of what was read, or `read`.
fn told<T: Drop>(alloc: Global, read: Result<T, ReadFault>) -> Result<String, CaseFault> {
    match read {
        Ok(_) => Ok(String::from_str(alloc, "read")?),
        Err(ReadFault::At { read, line }) => Ok(format!(in alloc; "{read:?} {line}")?),
        Err(ReadFault::NoMemory) => Err(CaseFault::NoMemory),
    }
}

/// A version line, the lines of a cell, and a line feed.
fn file_of(alloc: Global, cells: &[&str]) -> Result<Vec<u8>, CaseFault> {
    let mut file = b"v 20130925 2\n".to_vec(alloc)?;
    let lines = bytes_of(alloc, cell(cells, 0))?;
    file.extend_from_slice(lines.as_slice())?;
    file.push(b'\n')?;
    Ok(file)
}

/// A sheet of exactly these bytes.
pub fn sheet_bytes(alloc: Global, cells: &[&str]) -> Result<String, CaseFault> {
    let file = bytes_of(alloc, cell(cells, 0))?;
    told(alloc, read_sheet(alloc, file.as_slice()))
}

/// A sheet of a version line and these lines.
pub fn sheet_lines(alloc: Global, cells: &[&str]) -> Result<String, CaseFault> {
    let file = file_of(alloc, cells)?;
    told(alloc, read_sheet(alloc, file.as_slice()))
}

/// A symbol of a version line and these lines.
pub fn symbol_lines(alloc: Global, cells: &[&str]) -> Result<String, CaseFault> {
    let file = file_of(alloc, cells)?;
    told(alloc, read_symbol(alloc, file.as_slice()))
}

/// An object of exactly these bytes.
pub fn object_bytes(alloc: Global, cells: &[&str]) -> Result<String, CaseFault> {
    let file = bytes_of(alloc, cell(cells, 0))?;
    told(alloc, read_object(alloc, file.as_slice()))
}

fn repeated(alloc: Global, first: &str, piece: &str, count: u32) -> Result<Vec<u8>, CaseFault> {
    let mut file = bytes_of(alloc, first)?;
    let piece = bytes_of(alloc, piece)?;
    for _ in 0..count {
        file.extend_from_slice(piece.as_slice())?;
    }
    Ok(file)
}

/// A sheet of bytes, a piece so many times, and the last bytes.
pub fn sheet_repeated(alloc: Global, cells: &[&str]) -> Result<String, CaseFault> {
    let count = number_of(cell(cells, 2))?;
    let mut file = repeated(alloc, cell(cells, 0), cell(cells, 1), count)?;
    let last = bytes_of(alloc, cell(cells, 3))?;
    file.extend_from_slice(last.as_slice())?;
    told(alloc, read_sheet(alloc, file.as_slice()))
}

/// Puts the count of first lines where they are a sheet, and with it their fault where they are not
/// cut short at their end.
fn put_first_lines(
    alloc: Global,
    out: &mut String,
    count: u32,
    first: &[u8],
) -> Result<(), CaseFault> {
    let space = if out.is_empty() { "" } else { " " };
    match read_sheet(alloc, first) {
        Ok(_) => Ok(write!(out, "{space}{count}")?),
        Err(ReadFault::At { read, line }) => {
            if matches!(read, ReadKind::CutShort) && line == count.saturating_add(1) {
                return Ok(());
            }
            Ok(write!(out, "{space}{count}: {read:?} {line}")?)
        }
        Err(ReadFault::NoMemory) => Err(CaseFault::NoMemory),
    }
}

/// The counts of first lines of a file that are a sheet. All others are cut short at their end.
pub fn first_lines(alloc: Global, cells: &[&str], files: &TableFiles) -> Result<String, CaseFault> {
    let file = text_in(alloc, files.find(cell(cells, 0))?)?;
    let mut out = String::new(alloc);
    let mut first = Vec::new(alloc);
    let mut count: u32 = 0;
    for line in file.as_str().split_inclusive('\n') {
        first.extend_from_slice(line.as_bytes())?;
        count = count.saturating_add(1);
        put_first_lines(alloc, &mut out, count, first.as_slice())?;
    }
    Ok(out)
}

/// `same` where the text is as the bytes; else the text without its last line feed.
fn spelled(alloc: Global, file: &[u8], text: &[u8]) -> Result<String, CaseFault> {
    if file == text {
        return Ok(String::from_str(alloc, "same")?);
    }
    text_in(alloc, text.strip_suffix(b"\n").unwrap_or(text))
}

/// The bytes of a cell, or of the file that `@NAME` names.
fn input(alloc: Global, cells: &[&str], files: &TableFiles) -> Result<Vec<u8>, CaseFault> {
    match cell(cells, 0).strip_prefix('@') {
        Some(name) => Ok(files.find(name)?.to_vec(alloc)?),
        None => bytes_of(alloc, cell(cells, 0)),
    }
}

/// The canonical text of a sheet.
pub fn sheet_again(alloc: Global, cells: &[&str], files: &TableFiles) -> Result<String, CaseFault> {
    let file = input(alloc, cells, files)?;
    let sheet = read(read_sheet(alloc, file.as_slice()))?;
    let text = sheet_text(alloc, &sheet)?;
    spelled(alloc, file.as_slice(), text.as_slice())
}

/// The canonical text of a symbol.
pub fn symbol_again(
    alloc: Global,
    cells: &[&str],
    files: &TableFiles,
) -> Result<String, CaseFault> {
    let file = input(alloc, cells, files)?;
    let symbol = read(read_symbol(alloc, file.as_slice()))?;
    let text = symbol_text(alloc, &symbol)?;
    spelled(alloc, file.as_slice(), text.as_slice())
}

/// The canonical text of an object.
pub fn object_again(
    alloc: Global,
    cells: &[&str],
    files: &TableFiles,
) -> Result<String, CaseFault> {
    let file = input(alloc, cells, files)?;
    let object = read(read_object(alloc, file.as_slice()))?;
    let text = object_text(alloc, &object)?;
    spelled(alloc, file.as_slice(), text.as_slice())
}

/// The canonical version line of a symbol.
pub fn head_again(alloc: Global, cells: &[&str], files: &TableFiles) -> Result<String, CaseFault> {
    let file = input(alloc, cells, files)?;
    let symbol = read(read_symbol(alloc, file.as_slice()))?;
    let text = head_text(alloc, &symbol.head)?;
    spelled(alloc, file.as_slice(), text.as_slice())
}
