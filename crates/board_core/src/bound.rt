// How many steps a change may cost groups that are kept.
ghost use Rattle.std.specs.Prelude.{IfOk};
ghost use Rattle.std.specs.FinMap.{entries};
ghost use Rattle.std.specs.HashSet.{contains_text};
ghost use Rattle.project_model.specs.Changes.{CanApply};
ghost use Rattle.board_core.specs.Bounds.{IsBound};
ghost use Rattle.board_core.specs.steps.SymbolNames.{AreKnown};

use crate::grouped::grouped;
use crate::regroup::regroup;
use project_model::{Change, Project};
use std::alloc::{AllocError, Global};
use std::collections::HashSet;

/// The bound of a change; at most 2^64 - 1. The project is grouped anew, and the change is made to
/// those groups.
pub(crate) fn bound_of(
    alloc: Global,
    project: &Project,
    names: &HashSet<String>,
    change: &Change,
) -> Result<u64, AllocError>
    requires known { AreKnown (contains_text names.now) (entries project.now.contents.objects) }
    requires can_apply { CanApply change.now.items }
    ensures { IfOk result (IsBound project.now.contents change.now.items) }
{
    let mut groups = grouped(alloc, project)?;
    regroup(alloc, project, &mut groups, names, change)
}
