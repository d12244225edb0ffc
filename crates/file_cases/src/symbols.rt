// Symbols, and the reports on them.
use crate::faults::read;
use case_tables::{CaseFault, TableFiles, bytes_of, name_of, text_in};
use geda_model::Items;
use geda_read::read_symbol;
use std::alloc::{AllocError, Global};
use sym_check::{CheckedFile, check_symbol, has_errors, report_text};

const TEXT: &[u8] = b"T 0 0 5 10 0 1 0 0 1\n";

fn checked(alloc: Global, name: &str, bytes: &[u8]) -> Result<CheckedFile, CaseFault> {
    let symbol = read(read_symbol(alloc, bytes))?;
    let findings = Items::from_vec(check_symbol(alloc, &symbol)?);
    let file = name_of(alloc, name)?;
    Ok(CheckedFile { file, findings })
}

fn put_text(alloc: Global, bytes: &mut Vec<u8>, text: &str) -> Result<(), CaseFault> {
    bytes.extend_from_slice(TEXT)?;
    bytes.extend_from_slice(bytes_of(alloc, text)?.as_slice())?;
    bytes.push(b'\n')?;
    Ok(())
}

fn put_attached(alloc: Global, bytes: &mut Vec<u8>, attributes: &str) -> Result<(), CaseFault> {
    bytes.extend_from_slice(b"{\n")?;
    for attribute in attributes.split('|') {
        put_text(alloc, bytes, attribute)?;
    }
    bytes.extend_from_slice(b"}\n")?;
    Ok(())
}

fn put_pin(alloc: Global, bytes: &mut Vec<u8>, pin: &str) -> Result<(), CaseFault> {
    let (pin, attributes) = pin.split_once('|').unwrap_or((pin, ""));
    bytes.extend_from_slice(pin.as_bytes())?;
    bytes.push(b'\n')?;
    if attributes.is_empty() {
        return Ok(());
    }
    put_attached(alloc, bytes, attributes)
}

/// The file `symbol` with more behind it: a cell that begins with `P ` is a pin, its attributes
/// each after a `|`, and any other one stands free.
fn symbol_with(
    alloc: Global,
    cells: &[&str],
    files: &TableFiles,
) -> Result<CheckedFile, CaseFault> {
    let mut bytes = files.find("symbol")?.to_vec(alloc)?;
    for cell in cells {
        if cell.starts_with("P ") {
            put_pin(alloc, &mut bytes, cell)?;
        } else if *cell != "-" {
            put_text(alloc, &mut bytes, cell)?;
        }
    }
    checked(alloc, "s", bytes.as_slice())
}

fn report_on(alloc: Global, files: &[CheckedFile]) -> Result<String, CaseFault> {
    let bytes = report_text(alloc, files)?;
    text_in(alloc, bytes.as_slice())
}

fn list_of(alloc: Global, file: CheckedFile) -> Result<Vec<CheckedFile>, AllocError> {
    let mut list = Vec::new(alloc);
    list.push(file)?;
    Ok(list)
}

/// The report on the file `symbol` with the pins and the free attributes of the cells, where `-` is
/// none. The file is called `s`.
pub fn one_report(alloc: Global, cells: &[&str], files: &TableFiles) -> Result<String, CaseFault> {
    let file = symbol_with(alloc, cells, files)?;
    let list = list_of(alloc, file)?;
    report_on(alloc, &list)
}

/// Whether an error is found in it.
pub fn errors(alloc: Global, cells: &[&str], files: &TableFiles) -> Result<String, CaseFault> {
    let file = symbol_with(alloc, cells, files)?;
    let list = list_of(alloc, file)?;
    let answer = if has_errors(&list) { "yes" } else { "no" };
    Ok(String::from_str(alloc, answer)?)
}

/// The report on the files that the cells name.
pub fn reports(alloc: Global, cells: &[&str], files: &TableFiles) -> Result<String, CaseFault> {
    let mut list = Vec::new(alloc);
    for name in cells {
        list.push(checked(alloc, name, files.find(name)?)?)?;
    }
    report_on(alloc, &list)
}
