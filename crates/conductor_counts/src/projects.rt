// The conductors of a project.
ghost use Rattle.std.specs.Prelude.{◌≡◌, IfOk};
ghost use Rattle.std.specs.List.{sum_by};
ghost use Rattle.conductor_counts.specs.Conductors.{conductors};
ghost use Rattle.conductor_counts.specs.steps.Rows.{row_conductors};

use crate::objects::object_conductors;
use project_model::{Placed, Project};
use std::alloc::{AllocError, Global};
use symbol_tables::SymbolTables;

/// The conductors of objects with their ids.
fn row_conductors<'a>(
    alloc: Global,
    tables: &mut SymbolTables<'a>,
    rows: &[(u32, &Placed)],
) -> Result<u64, AllocError>
    ensures count { IfOk result
        (λ count. count ≡ sum_by (row_conductors tables.old.symbols) rows.now) }
    ensures kept { tables.new ≡ tables.old }
{
    let mut sum: u64 = 0;
    for row in rows {
        let count = object_conductors(alloc, tables, &row.1.object)?;
        sum = sum.checked_add(count).ok_or(AllocError)?;
    }
    Ok(sum)
}

/// The conductors of a project, each object looked at once.
///
/// More than 18,446,744,073,709,551,615 are told as want of memory.
pub fn count_conductors(alloc: Global, project: &Project) -> Result<u64, AllocError>
    ensures { IfOk result (λ count. count ≡ conductors project.now.contents) }
{
    let objects = project.objects_by_id(alloc)?;
    let mut tables = SymbolTables::new(alloc, project);
    let count = row_conductors(alloc, &mut tables, objects.as_slice())?;
    Ok(count)
}
