// The calls of a keeper, on a connection.
ghost use Rattle.std.specs.Prelude.{◌≡◌, ◌++◌, ◌∷◌, [], IfOk, MatchResult, length};
ghost use Rattle.std.specs.List.{slice_get};
ghost use Rattle.std.specs.Option.{option_map};
ghost use Rattle.sqlite.specs.Held.{state};
ghost use Rattle.row_table.specs.Tables.{IsSafe};
ghost use Rattle.edit_entries.specs.Entries.{EntryData};
ghost use Rattle.row_texts.specs.RowTexts.{IsRowOf, entry_of};
ghost use Rattle.sqlite_keeper.specs.Told.{IsKept, Tells, told_rows};

use edit_entries::Entry;
use keeper_core::KeepFault;
use row_table::{create, insert, select};
use row_texts::{row_body, row_entry};
use sqlite::{Alter, Connection, Error, ErrorCode};
use std::alloc::Global;

/// A statement that was refused or failed.
fn keep_fault(error: Error) -> KeepFault {
    match error {
        Error::SqliteFailure(ErrorCode::OutOfMemory) => KeepFault::NoMemory,
        _ => KeepFault::Failed,
    }
}

/// Makes the table where it is missing. The rows stay.
pub fn make_table<S: Alter>(connection: &mut Connection<S>) -> Result<(), KeepFault>
    ensures { IsSafe (state S.Store connection.new) → IsKept (state S.Store connection.old) →
        Tells (state S.Store connection.new) (told_rows (state S.Store connection.old)) }
{
    match create(connection) {
        Ok(()) => Ok(()),
        Err(error) => Err(keep_fault(error)),
    }
}

/// Puts one more row last.
fn put_body<S: Alter>(
    connection: &mut Connection<S>,
    serial: u32,
    body: &[u8],
) -> Result<(), KeepFault>
    ensures { (entry : EntryData) → IsRowOf body.now entry → IsSafe (state S.Store connection.new) →
        IsKept (state S.Store connection.old) →
        serial ≡ length (told_rows (state S.Store connection.old)) → MatchResult result
        (λ _. Tells (state S.Store connection.new)
        (told_rows (state S.Store connection.old) ++ entry ∷ []))
        (λ _. Tells (state S.Store connection.new) (told_rows (state S.Store connection.old))) }
{
    match insert(connection, serial, body) {
        Ok(()) => Ok(()),
        Err(error) => Err(keep_fault(error)),
    }
}

/// Puts the row of an entry last.
pub fn put_row<S: Alter>(
    connection: &mut Connection<S>,
    alloc: Global,
    serial: u32,
    entry: &Entry,
) -> Result<(), KeepFault>
    ensures { IsSafe (state S.Store connection.new) → IsKept (state S.Store connection.old) →
        serial ≡ length (told_rows (state S.Store connection.old)) → MatchResult result
        (λ _. Tells (state S.Store connection.new)
        (told_rows (state S.Store connection.old) ++ entry.now ∷ []))
        (λ _. Tells (state S.Store connection.new) (told_rows (state S.Store connection.old))) }
{
    let body = row_body(alloc, entry)?;
    put_body(connection, serial, &body)
}

/// The entry of a body that was found.
fn read_found(alloc: Global, found: Option<Vec<u8>>) -> Result<Option<Entry>, KeepFault>
    ensures { IfOk result (λ row. row ≡ option_map (λ body. entry_of body.items) found) }
{
    match found {
        Some(body) => Ok(Some(row_entry(alloc, &body)?)),
        None => Ok(None),
    }
}

/// The row of a serial; `None` where there is none. The rows stay.
pub fn load_row<S: Alter>(
    connection: &mut Connection<S>,
    alloc: Global,
    serial: u32,
) -> Result<Option<Entry>, KeepFault>
    ensures kept { IsSafe (state S.Store connection.new) → IsKept (state S.Store connection.old) →
        Tells (state S.Store connection.new) (told_rows (state S.Store connection.old)) }
    ensures row { IsSafe (state S.Store connection.new) → IsKept (state S.Store connection.old) →
        IfOk result (λ row. row ≡ slice_get (told_rows (state S.Store connection.old)) serial) }
{
    match select(connection, serial) {
        Ok(found) => read_found(alloc, found),
        Err(error) => Err(keep_fault(error)),
    }
}

/// Runs a statement that begins or ends a transaction.
pub fn run_bound<S: Alter>(
    connection: &mut Connection<S>,
    statement: &str,
) -> Result<(), KeepFault> {
    match connection.execute(statement, &[]) {
        Ok(_) => Ok(()),
        Err(error) => Err(keep_fault(error)),
    }
}
