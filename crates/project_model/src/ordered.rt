// The rows of tables in the order of their keys.
ghost use Rattle.std.specs.Prelude.{◌≡◌, IfOk, map};
ghost use Rattle.std.specs.FinMap.{entries, keys};
ghost use Rattle.project_model.specs.Tables.{row_now};
ghost use Rattle.project_model.specs.steps.TableRows.{ids_in_order, rows_by_id, rows_by_name};

use crate::change::Placed;
use geda_model::Name;
use std::alloc::{AllocError, Global};
use std::collections::HashMap;

/// The ids of a sheet's objects, rising.
pub(crate) fn ids_in(
    alloc: Global,
    rows: &HashMap<u32, Placed>,
    name: &Name,
) -> Result<Vec<u32>, AllocError>
    ensures { IfOk result (λ v. v.items ≡ ids_in_order name.now rows.now.entries) }
{
    // That no key stands twice is told by the length.
    let _ = rows.len();
    let mut ids = Vec::new(alloc);
    for (id, placed) in rows {
        if placed.sheet == *name {
            ids.push(*id)?;
        }
    }
    ids.sort_unstable();
    Ok(ids)
}

/// The names of the rows, rising.
pub(crate) fn names_in<V>(alloc: Global, rows: &HashMap<Name, V>) -> Result<Vec<Name>, AllocError>
    ensures { IfOk result (λ v. v.items ≡ keys (rows_by_name rows.now.entries)) }
{
    // That no key stands twice is told by the length.
    let _ = rows.len();
    let mut names = Vec::new(alloc);
    for (name, _) in rows {
        names.push(name.clone()?)?;
    }
    names.sort_unstable();
    Ok(names)
}

/// The rows with their ids, by rising id.
pub(crate) fn rows_in<V>(
    alloc: Global,
    rows: &HashMap<u32, V>,
) -> Result<Vec<(u32, &V)>, AllocError>
    ensures { IfOk result (λ v. map row_now v.items ≡ entries (rows_by_id rows.now.entries)) }
{
    // That no key stands twice is told by the length.
    let _ = rows.len();
    let mut found = Vec::new(alloc);
    for (id, row) in rows {
        found.push((*id, row))?;
    }
    found.sort_unstable_by_key(|row| row.0);
    Ok(found)
}
