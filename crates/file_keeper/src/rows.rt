// What a row file holds.
ghost use Rattle.std.specs.Prelude.{◌≡◌, IfOk, MatchOption};
ghost use Rattle.geda_defs.specs.Lines.{ended};
ghost use Rattle.edit_entries.specs.Entries.{EntryData};
ghost use Rattle.edit_json.specs.Rows.{row_text};
ghost use Rattle.file_keeper.specs.RowFiles.{IsCut, IsLoaded, IsRow, IsRowLine, ReadsRow};
ghost use Rattle.file_keeper.specs.RowSums.{summed};
ghost use Rattle.file_keeper.specs.steps.RowTexts.{ReadsText, TakesEntry};

use crate::sums::{row_part, sum_of};
use edit_entries::Entry;
use edit_json::{Row, RowFault, read_row, row_text};
use keeper_core::KeepFault;
use std::alloc::{AllocError, Global};

/// The bytes of the row file of an entry: its one spelling as a row, its sum, and LF
/// (docs/FORMATS.md, "Stores"). `row_of` reads the entry back from them.
pub fn row_bytes(alloc: Global, entry: &Entry) -> Result<Vec<u8>, AllocError>
    ensures text { IfOk result (λ v. v.items ≡ ended (summed (row_text entry.now))) }
    ensures row { IfOk result (λ v. IsRow v.items entry.now) }
{
    // This brings the ranges of the entry into reach.
    let _ = &entry.edit;
    let mut bytes = row_text(alloc, entry)?;
    let sum = sum_of(alloc, bytes.as_slice())?;
    bytes.extend_from_slice(sum.as_slice())?;
    bytes.push(b'\n')?;
    Ok(bytes)
}

/// The bytes before the LF at the end; `None` exactly where none stands there.
fn whole_text(bytes: &[u8]) -> Option<&[u8]>
    ensures { MatchOption result (IsCut bytes.now) (λ text. bytes.now ≡ ended text.now) }
{
    match bytes.split_last() {
        Some((b'\n', text)) => Some(text),
        _ => None,
    }
}

/// The entry of what was read as a row.
fn entry_in(read: Result<Row, RowFault>) -> Result<Entry, KeepFault>
    ensures { TakesEntry read result }
{
    match read {
        Ok(row) => Ok(row.entry),
        Err(RowFault::BadRow) => Err(KeepFault::Failed),
        Err(RowFault::NoMemory) => Err(KeepFault::NoMemory),
    }
}

/// The entry of a text.
fn entry_of(alloc: Global, text: &[u8]) -> Result<Entry, KeepFault>
    ensures read { ReadsText text.now result }
    ensures every { (entry : EntryData) → IsRowLine text.now entry → IsLoaded entry result }
{
    entry_in(read_row(alloc, text))
}

/// The entry of a row file with these bytes. `None` exactly where they do not end in LF: such a row
/// was not written to its end, and counts as not there.
///
/// `Failed` exactly where they end in LF, and what stands before it is a row of neither version, or
/// ends in the sum of another one.
pub fn row_of(alloc: Global, bytes: &[u8]) -> Result<Option<Entry>, KeepFault>
    ensures row { ReadsRow bytes.now result }
    ensures every { (entry : EntryData) → IsRow bytes.now entry →
        IsLoaded (Some entry) result }
{
    let Some(text) = whole_text(bytes) else {
        return Ok(None);
    };
    match row_part(alloc, text) {
        Ok(Some(row)) => Ok(Some(entry_of(alloc, row)?)),
        Ok(None) => Err(KeepFault::Failed),
        Err(AllocError) => Err(KeepFault::NoMemory),
    }
}
