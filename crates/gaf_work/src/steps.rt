// What a step does.
ghost use Rattle.std.specs.Prelude.{◌≡◌, ◌<◌, ◌+◌, ◌^◌, ⊤};
ghost use Rattle.std.specs.Prelude.{IfOk, MatchOption, option_map};
ghost use Rattle.std.specs.FinMap.{keys};
ghost use Rattle.project_model.specs.Projects.{ProjectData};
ghost use Rattle.project_model.specs.Changes.{CanApply};
ghost use Rattle.gaf_work.specs.DrawnSteps.{HasRoom, coming, id_at, leaving, step};

use crate::live::LiveIds;
use crate::names::sheet_name;
use crate::objects::{part, wire};
use geda_model::Object;
use project_model::{Change, Placed, Project, Thing, Value};
use std::alloc::{AllocError, Global};

/// The change that brings an object onto the sheet, under the next id.
fn coming(alloc: Global, project: &Project, object: Object) -> Result<Change, AllocError>
    ensures items { IfOk result (λ change. change.items ≡ coming project.now.contents object) }
    ensures can_apply { HasRoom project.now.contents
        → IfOk result (λ change. CanApply change.items) }
{
    let placed = Placed {
        sheet: sheet_name(alloc)?,
        object,
    };
    Change::one(
        alloc,
        Thing::Object(project.next_id()),
        Some(Value::Object(placed)),
    )
}

/// The change that takes an object away, if there is one.
fn deletion(alloc: Global, live: &LiveIds, q: u32) -> Result<Option<Change>, AllocError>
    ensures step { IfOk result (λ change. option_map (λ c. c.items) change
        ≡ option_map leaving (id_at live.now q)) }
    ensures can_apply { (p : ProjectData) → HasRoom p → live.now ≡ keys p.objects
        → IfOk result (λ change. MatchOption change ⊤ (λ c. CanApply c.items)) }
{
    match live.at(q) {
        None => Ok(None),
        Some(id) => Ok(Some(Change::one(alloc, Thing::Object(id), None)?)),
    }
}

/// The change of a step by a drawn number (docs/RULES.md, "Work"), on a project whose live ids are
/// known.
///
/// `None` exactly where the step takes an object away and the project has none.
pub fn step(
    alloc: Global,
    project: &Project,
    live: &LiveIds,
    number: u32,
) -> Result<Option<Change>, AllocError>
    requires { live.now ≡ keys project.now.contents.objects }
    ensures step { IfOk result
        (λ change. option_map (λ c. c.items) change ≡ step project.now.contents number) }
    ensures can_apply { HasRoom project.now.contents
        → IfOk result (λ change. MatchOption change ⊤ (λ c. CanApply c.items)) }
{
    let q = number / 8;
    match number % 8 {
        0..=4 => Ok(Some(coming(alloc, project, wire(alloc, q))?)),
        5 => {
            let object = part(alloc, q, project.next_id())?;
            Ok(Some(coming(alloc, project, object)?))
        }
        _ => deletion(alloc, live, q),
    }
}
