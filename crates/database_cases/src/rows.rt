// The rows of the files of a table, and of keepers.
use case_tables::{CaseFault, TableFiles};
use edit_entries::Entry;
use http_lines::entries_of;
use keeper_core::{KeepFault, Keeper, MemoryKeeper};
use std::alloc::Global;

/// A keeper of the rows of a file, whose call of this number fails, where it is not 0.
pub fn rows_of(
    alloc: Global,
    file: &str,
    call: u32,
    files: &TableFiles,
) -> Result<MemoryKeeper, CaseFault> {
    let failing = Vec::from_slice(alloc, &[u64::from(call)])?;
    Ok(MemoryKeeper::new(entries_of(alloc, file, files)?, failing))
}

/// Whether this row was loaded.
fn is_row(loaded: Result<Option<Entry>, KeepFault>, row: &Entry) -> bool {
    match loaded {
        Ok(Some(found)) => {
            let is_same = found == *row;
            drop(found);
            is_same
        }
        Ok(None) => false,
        Err(_) => false,
    }
}

/// Whether no row was loaded, without a fault.
fn is_nothing(loaded: Result<Option<Entry>, KeepFault>) -> bool {
    match loaded {
        Ok(Some(found)) => {
            drop(found);
            false
        }
        Ok(None) => true,
        Err(_) => false,
    }
}

/// Whether these are all rows that a keeper has.
fn has_rows<K: Keeper>(keeper: &mut K, rows: &[Entry]) -> bool {
    let mut serial = 0u32;
    for row in rows {
        if !is_row(keeper.load(serial), row) {
            return false;
        }
        serial = serial.saturating_add(1);
    }
    is_nothing(keeper.load(serial))
}

/// Whether the rows of a file are all that a keeper has.
fn has_rows_of<K: Keeper>(
    alloc: Global,
    keeper: &mut K,
    file: &str,
    files: &TableFiles,
) -> Result<bool, CaseFault> {
    let rows = entries_of(alloc, file, files)?;
    let has_rows = has_rows(keeper, rows.as_slice());
    drop(rows);
    Ok(has_rows)
}

/// Puts the name of the first of some files whose rows are all that a keeper has.
pub fn put_holder<K: Keeper>(
    alloc: Global,
    out: &mut String,
    keeper: &mut K,
    names: &[&str],
    files: &TableFiles,
) -> Result<(), CaseFault> {
    for name in names {
        if has_rows_of(alloc, keeper, name, files)? {
            return Ok(writeln!(out, "> holds {name}")?);
        }
    }
    Ok(out.push_str("> holds neither\n")?)
}
