// The groups of a project are those of the project after a change.
ghost use Rattle.std.specs.Prelude.{◌≡◌, ◌≤◌, ◌++◌, map, IfOk, OnOk, OnErr};
ghost use Rattle.std.specs.FinMap.{entries};
ghost use Rattle.std.specs.HashSet.{contains_text};
ghost use Rattle.project_model.specs.Changes.{CanApply};
ghost use Rattle.project_model.specs.Tables.{row_now};
ghost use Rattle.board_core.specs.Bounds.{IsBound};
ghost use Rattle.board_core.specs.steps.Kept.{AreMoves, AreRenewed, HoldsProject, IsPartly, IsRegrouped, Renews, StaysWithin, sheets_at, sheets_named, touched_sheets};
ghost use Rattle.board_core.specs.steps.SymbolNames.{AreKnown};

use crate::changed::Things;
use crate::drawn::{coming_drawn, keys_in};
use crate::renewing::{renew_named, renew_rows};
use crate::rows::{changed_rows, coming_rows};
use geda_geom::{Conductor, Key};
use geda_model::Name;
use group_runs::SheetGroups;
use project_model::{Change, Placed, Project, Thing, Value};
use std::alloc::{AllocError, Global};
use std::collections::HashSet;

/// What leaves and comes with a change: the objects, and what is drawn of them.
#[derive(Drop)]
pub(crate) struct Moves<'p> {
    pub before: Vec<(u32, &'p Placed)>,
    pub after: Vec<(u32, &'p Placed)>,
    pub leaving: Vec<(Name, Key)>,
    pub coming: Vec<(Name, (Key, Conductor))>,
}

/// What leaves and comes with a change.
fn moves_of<'p>(
    alloc: Global,
    project: &'p Project,
    names: &HashSet<String>,
    change: &Change,
    things: &'p Things<'_>,
) -> Result<Moves<'p>, AllocError>
    requires known { AreKnown (contains_text names.now) (entries project.now.contents.objects) }
    requires can_apply { CanApply change.now.items }
    requires same { things.now ≡ change.now.items }
    ensures { IfOk result (λ moves. AreMoves project.now.contents change.now.items
        (map row_now moves.before.items) (map row_now moves.after.items)
        moves.leaving.items moves.coming.items) }
{
    let before = changed_rows(alloc, project, names, things)?;
    let after = coming_rows(alloc, things, &before)?;
    let leaving = keys_in(alloc, project, &before)?;
    let coming = coming_drawn(alloc, project, change, things, &after)?;
    Ok(Moves {
        before,
        after,
        leaving,
        coming,
    })
}

/// Groups the conductors of the sheets of objects, and of those that a change names, unless their
/// groups are kept.
fn renew_touched(
    alloc: Global,
    project: &Project,
    groups: &mut SheetGroups,
    before: &[(u32, &Placed)],
    after: &[(u32, &Placed)],
    items: &[(Thing, Option<Value>)],
) -> Result<(), AllocError>
    requires held { HoldsProject project.now.contents groups.old.rows }
    ensures renews { Renews project.now.contents groups.old.rows groups.new.rows
        groups.old.steps groups.new.steps (sheets_at (map row_now before.now)
        ++ (sheets_at (map row_now after.now) ++ sheets_named items.now)) }
    ensures renewed { OnOk result (AreRenewed groups.old.rows groups.new.rows
        (sheets_at (map row_now before.now)
        ++ (sheets_at (map row_now after.now) ++ sheets_named items.now))) }
{
    renew_rows(alloc, project, groups, before)?;
    renew_rows(alloc, project, groups, after)?;
    renew_named(alloc, project, groups, items)
}

/// Groups the touched sheets anew that are not kept; then conductors leave, and others come. It
/// answers the bound of the change.
fn move_all(
    alloc: Global,
    project: &Project,
    groups: &mut SheetGroups,
    change: &Change,
    moves: &Moves<'_>,
) -> Result<u64, AllocError>
    requires can_apply { CanApply change.now.items }
    requires held { HoldsProject project.now.contents groups.old.rows }
    requires moves { AreMoves project.now.contents change.now.items
        (map row_now moves.now.before.items) (map row_now moves.now.after.items)
        moves.now.leaving.items moves.now.coming.items }
    ensures ok { OnOk result (IsRegrouped project.now.contents change.now.items
        groups.old.rows groups.new.rows) }
    ensures err { OnErr result (IsPartly project.now.contents change.now.items
        groups.old.rows groups.new.rows) }
    ensures bound { IfOk result (IsBound project.now.contents change.now.items) }
    ensures later { groups.old.steps ≤ groups.new.steps }
    ensures few { StaysWithin project.now.contents change.now.items groups.old.rows
        groups.old.steps groups.new.steps }
{
    let items = change.items.as_slice();
    renew_touched(alloc, project, groups, &moves.before, &moves.after, items)?;
    groups.apply(&moves.leaving, &moves.coming)
}

/// Makes the groups of a project those of the project after a change. It answers the bound of the
/// change. Only where the change has a symbol of one of these names, among which are those of all
/// components, all objects are looked through.
pub(crate) fn regroup(
    alloc: Global,
    project: &Project,
    groups: &mut SheetGroups,
    names: &HashSet<String>,
    change: &Change,
) -> Result<u64, AllocError>
    requires known { AreKnown (contains_text names.now) (entries project.now.contents.objects) }
    requires can_apply { CanApply change.now.items }
    requires held { HoldsProject project.now.contents groups.old.rows }
    ensures ok { OnOk result (IsRegrouped project.now.contents change.now.items
        groups.old.rows groups.new.rows) }
    ensures err { OnErr result (IsPartly project.now.contents change.now.items
        groups.old.rows groups.new.rows) }
    ensures bound { IfOk result (IsBound project.now.contents change.now.items) }
    ensures later { groups.old.steps ≤ groups.new.steps }
    ensures few { StaysWithin project.now.contents change.now.items groups.old.rows
        groups.old.steps groups.new.steps }
{
    let things = Things::of(alloc, change.items.as_slice())?;
    let moves = moves_of(alloc, project, names, change, &things)?;
    move_all(alloc, project, groups, change, &moves)
}
