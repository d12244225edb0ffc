// A project as one flat list of what joins in it.
ghost use Rattle.std.specs.Prelude.{◌≡◌, IfOk};
ghost use Rattle.flat_sheets.specs.Conductors.{conductors_of};
ghost use Rattle.flat_sheets.specs.ListedParts.{listed_parts};

use crate::contents::contents_of;
use flat_rows::FlatRows;
use instance_objects::InstanceObjects;
use std::alloc::{AllocError, Global};

/// What joins in a project, by its objects in the instances of its sheets, and its listed
/// components (docs/RULES.md, "Conductors", "Ports" and "Packages"): first what is drawn, by route,
/// id and place, then the hidden pins; the parts by route and id.
pub fn flatten(alloc: Global, objects: &InstanceObjects<'_>) -> Result<FlatRows, AllocError>
    ensures conductors { IfOk result (λ flat. flat.conductors ≡ conductors_of objects.now) }
    ensures parts { IfOk result (λ flat. flat.parts ≡ listed_parts objects.now) }
{
    let rows = contents_of(alloc, objects)?;
    let flat = rows.in_order()?;
    Ok(flat)
}
