// The groups of all sheets of a project.
ghost use Rattle.std.specs.Prelude.{◌≡◌, map, IfOk, OnOk};
ghost use Rattle.project_model.specs.Tables.{row_now};
ghost use Rattle.board_core.specs.steps.Kept.{AreAllKept, AreBare, IsGrouped, sheets_at};

use crate::drawn::drawn_in;
use group_runs::SheetGroups;
use project_model::{Placed, Project};
use std::alloc::{AllocError, Global};

/// Begins the groups of the sheets of objects, without conductors.
fn open_all(
    alloc: Global,
    groups: &mut SheetGroups,
    rows: &[(u32, &Placed)],
) -> Result<(), AllocError>
    requires bare { AreBare groups.old.rows }
    ensures bare { OnOk result (AreBare groups.new.rows) }
    ensures kept { OnOk result (AreAllKept groups.new.rows (sheets_at (map row_now rows.now))) }
    ensures steps { groups.new.steps ≡ groups.old.steps }
{
    for row in rows {
        groups.open(alloc, &row.1.sheet)?;
    }
    Ok(())
}

/// The groups of all sheets of a project. It makes at most one step for each conductor.
pub(crate) fn grouped(alloc: Global, project: &Project) -> Result<SheetGroups, AllocError>
    ensures { IfOk result
        (λ groups. IsGrouped project.now.contents groups.rows groups.steps) }
{
    let mut groups = SheetGroups::new(alloc);
    let rows = project.objects_by_id(alloc)?;
    open_all(alloc, &mut groups, &rows)?;
    let coming = drawn_in(alloc, project, &rows)?;
    groups.apply(&[], &coming)?;
    Ok(groups)
}
