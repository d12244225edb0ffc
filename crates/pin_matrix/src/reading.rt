// The file of a matrix, read as TOML.
ghost use Rattle.std.specs.Prelude.{◌≡◌, ◌==◌, ◌++◌, Some, None, IfOk, IsErrOf, codes, length, option_map};
ghost use Rattle.toml.specs.Data.{get_member};
ghost use Rattle.toml.specs.View.{items_view, table_view, view};
ghost use Rattle.pin_matrix.specs.Matrices.{level_of};
ghost use Rattle.pin_matrix.specs.MatrixFiles.{count_of, levels_of, levels_row, matrix_in};
ghost use Rattle.pin_matrix.specs.MatrixFiles.{rows_from, rows_in, toml_document};
ghost use Rattle.pin_matrix.specs.steps.Gives.{Gives};

use crate::fault::MatrixFault;
use crate::level::Level;
use std::alloc::Global;
use toml::{Table, Value};

fn level_of(byte: u8) -> Option<Level>
    ensures { result ≡ level_of byte }
{
    match byte {
        b'c' => Some(Level::Correct),
        b'w' => Some(Level::Warning),
        b'e' => Some(Level::Error),
        _ => None,
    }
}

/// Adds the levels of a row to those before it.
fn put_levels(levels: &mut Vec<Level>, text: &[u8]) -> Result<(), MatrixFault>
    ensures { Gives (λ _. levels.new.items)
        result (option_map (λ more. levels.old.items ++ more) (levels_of text.now)) }
{
    for byte in text {
        levels.push(level_of(*byte).ok_or(MatrixFault::BadRows)?)?;
    }
    Ok(())
}

fn put_row(levels: &mut Vec<Level>, want: usize, row: &Value) -> Result<(), MatrixFault>
    ensures { Gives (λ _. levels.new.items)
        result (option_map (λ more. levels.old.items ++ more) (levels_row want (view row.now))) }
{
    let text = row.as_str().ok_or(MatrixFault::BadRows)?;
    if text.len() != want {
        return Err(MatrixFault::BadRows);
    }
    put_levels(levels, text.as_bytes())
}

#[tactic(auto, unfolding(crate::specs::MatrixFiles::rows_from))]
fn rows_of(alloc: Global, rows: &[Value]) -> Result<Vec<Level>, MatrixFault>
    ensures rows { Gives (λ v. v.items) result (rows_from 1 (items_view rows.now)) }
{
    let mut levels = Vec::new(alloc);
    let mut want = 1;
    for row in rows {
        put_row(&mut levels, want, row)?;
        want += 1;
    }
    if want != 13 {
        return Err(MatrixFault::BadRows);
    }
    Ok(levels)
}

fn whole_rows(alloc: Global, rows: &[Value]) -> Result<Vec<Level>, MatrixFault>
    ensures rows { Gives (λ v. v.items) result (rows_from 1 (items_view rows.now)) }
    ensures whole { IfOk result (λ v. length v.items ≡ 78) }
{
    let levels = rows_of(alloc, rows)?;
    Ok(levels)
}

fn rows_value(document: &Table) -> Option<&Value>
    ensures { option_map (λ v. view v.now) result
        ≡ get_member (codes "rows") (table_view document.now) }
{
    document.get("rows")
}

fn rows_in(alloc: Global, value: &Value) -> Result<Vec<Level>, MatrixFault>
    ensures rows { Gives (λ v. v.items) result (rows_in (view value.now)) }
    ensures whole { IfOk result (λ v. length v.items ≡ 78) }
{
    let rows = value.as_array().ok_or(MatrixFault::BadRows)?;
    whole_rows(alloc, rows.as_slice())
}

fn has_one_key(document: &Table) -> bool
    ensures { result ≡ (count_of (table_view document.now) == 1) }
{
    document.len() == 1
}

/// The levels of the rows of a document.
pub fn matrix_in(alloc: Global, document: &Table) -> Result<Vec<Level>, MatrixFault>
    ensures matrix { Gives (λ v. v.items) result (matrix_in (table_view document.now)) }
    ensures whole { IfOk result (λ v. length v.items ≡ 78) }
{
    if !has_one_key(document) {
        return Err(MatrixFault::BadRows);
    }
    let value = rows_value(document).ok_or(MatrixFault::BadRows)?;
    rows_in(alloc, value)
}

/// The document that a file is.
pub fn document_of(alloc: Global, text: &[u8]) -> Result<Table, MatrixFault>
    ensures document { IfOk result (λ t. toml_document text.now ≡ Some (table_view t)) }
    ensures bad { IsErrOf result MatrixFault.BadToml → toml_document text.now ≡ None }
    ensures few { ¬ (IsErrOf result MatrixFault.BadRows) }
{
    if text.len() > 4_194_304 {
        return Err(MatrixFault::BadToml);
    }
    match toml::table_from_slice(alloc, text) {
        Ok(table) => Ok(table),
        Err(error) => {
            if error.is_memory() {
                return Err(MatrixFault::NoMemory);
            }
            Err(MatrixFault::BadToml)
        }
    }
}

/// The levels as an array.
pub fn filled(levels: &[Level]) -> [Level; 78]
    requires { length levels.now ≡ 78 }
    ensures { result ≡ levels.now }
{
    let mut all = [Level::Correct; 78];
    all.copy_from_slice(levels);
    all
}
