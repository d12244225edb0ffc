// A change is put into a project.
ghost use Rattle.std.specs.Prelude.{◌≡◌, IfOk, OnErr, OnOk};
ghost use Rattle.project_model.specs.Changes.{CanApply, IsRoomFor, put};

use project_model::{Change, Project};
use std::alloc::{AllocError, Global};

/// An equal change, for which the project has room. The project stays, also where memory runs out.
pub(crate) fn with_room(
    alloc: Global,
    project: &mut Project,
    change: &Change,
) -> Result<Change, AllocError>
    ensures contents { project.new.contents ≡ project.old.contents }
    ensures items { IfOk result (λ copy. copy.items ≡ change.now.items) }
    ensures room { OnOk result (IsRoomFor change.now.items project.new.spare) }
{
    let copy = change.copy(alloc)?;
    project.reserve(alloc, &copy)?;
    Ok(copy)
}

/// Puts a change in. On AllocError the project is as before.
pub(crate) fn put_in(
    alloc: Global,
    project: &mut Project,
    change: &Change,
) -> Result<(), AllocError>
    requires { CanApply change.now.items }
    ensures ok { OnOk result (project.new.contents ≡ put project.old.contents change.now.items) }
    ensures err { OnErr result (project.new.contents ≡ project.old.contents) }
{
    let copy = with_room(alloc, project, change)?;
    project.apply(copy);
    Ok(())
}
