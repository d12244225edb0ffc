// The groups of a project, read from those that are kept.
ghost use Rattle.std.specs.Prelude.{◌≡◌, [], IfOk, IsSome};
ghost use Rattle.std.specs.FinMap.{get};
ghost use Rattle.std.specs.List.Sorted.{IsStrictlySortedBy};
ghost use Rattle.std.specs.Map.{keys_of};
ghost use Rattle.geda_geom.specs.Keys.{by_key};
ghost use Rattle.net_flood.specs.Grouping.{IsLeast};
ghost use Rattle.group_runs.specs.Sheets.{IsKept, given_up, kept_at, row_at};
ghost use Rattle.sheet_groups.specs.Conductors.{sheet_conductors};
ghost use Rattle.sheet_groups.specs.Groups.{AreGroups};
ghost use Rattle.board_core.specs.steps.Kept.{HoldsProject};
ghost use Rattle.board_core.specs.steps.Reading.{CanRead, LeastRows};

use crate::drawn::drawn_in;
use geda_geom::{Conductor, Key};
use geda_model::Name;
use group_runs::SheetGroups;
use project_model::Project;
use std::alloc::{AllocError, Global};

/// The keys of conductors, each with the least key of its group.
fn least_rows(
    alloc: Global,
    groups: &SheetGroups,
    drawn: &[(Name, (Key, Conductor))],
) -> Result<Vec<(Key, Key)>, AllocError>
    requires { CanRead groups.now.rows drawn.now }
    ensures { IfOk result (λ rows. LeastRows (kept_at groups.now.rows) drawn.now rows.items) }
{
    let mut rows = Vec::with_capacity(alloc, drawn.len())?;
    for one in drawn {
        let key = one.1.0;
        rows.push((key, groups.group_of(&one.0, key)))?;
    }
    Ok(rows)
}

/// The key of each conductor with the least key of its group, where no groups are given up. The
/// keys of conductors rise.
pub(crate) fn kept_groups(
    alloc: Global,
    project: &Project,
    groups: &SheetGroups,
) -> Result<Vec<(Key, Key)>, AllocError>
    requires held { HoldsProject project.now.contents groups.now.rows }
    requires fresh { given_up groups.now.rows ≡ [] }
    ensures groups { IfOk result
        (λ rows. AreGroups (sheet_conductors project.now.contents) rows.items) }
    ensures rising { IfOk result (λ rows. IsStrictlySortedBy by_key (keys_of rows.items)) }
{
    let objects = project.objects_by_id(alloc)?;
    let drawn = drawn_in(alloc, project, &objects)?;
    let rows = least_rows(alloc, groups, &drawn)?;
    Ok(rows)
}
