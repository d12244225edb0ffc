// The body of a row, and the entry that a body is.
ghost use Rattle.std.specs.Prelude.{◌≡◌, IfOk, MatchResult};
ghost use Rattle.row_texts.specs.RowTexts.{IsRowOf, entry_of};

use edit_entries::Entry;
use edit_json::{Row, RowFault, read_row, row_text};
use keeper_core::KeepFault;
use std::alloc::{AllocError, Global};

/// The body of the row of an entry.
pub fn row_body(alloc: Global, entry: &Entry) -> Result<Vec<u8>, AllocError>
    ensures { IfOk result (λ body. IsRowOf body.items entry.now) }
{
    row_text(alloc, entry)
}

/// The entry of what was read as a row.
fn entry_in(read: Result<Row, RowFault>) -> Result<Entry, KeepFault>
    ensures { MatchResult read
        (λ row. IfOk result (λ entry. entry ≡ row.entry))
        (λ _. IfOk result (λ _. ⊥)) }
{
    match read {
        Ok(row) => Ok(row.entry),
        Err(RowFault::BadRow) => Err(KeepFault::Failed),
        Err(RowFault::NoMemory) => Err(KeepFault::NoMemory),
    }
}

/// The entry of a body, which may be a row of either version.
pub fn row_entry(alloc: Global, body: &[u8]) -> Result<Entry, KeepFault>
    ensures { IfOk result (λ entry. entry_of body.now ≡ entry) }
{
    entry_in(read_row(alloc, body))
}
