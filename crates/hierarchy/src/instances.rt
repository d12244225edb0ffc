// Instances of sheets.
ghost use Rattle.std.specs.Prelude.{◌≡◌, ◌≢◌, ◌≤◌, ◌<◌, ◌∷◌, ◌++◌, [], All, AllPairs, IfOk, OnOk, length, map, take};
ghost use Rattle.hierarchy.specs.Ways.{last_sheet};
ghost use Rattle.hierarchy.specs.Instances.{instance_of, instance_with};
ghost use Rattle.hierarchy.specs.steps.Parents.{AreInOrder, parent_in};

use crate::table::TableSheet;
use crate::texts::{path_of, route_of};
use crate::way::Way;
use geda_model::{Items, Line, Name};
use std::alloc::{AllocError, Global};

/// An instance of a sheet: one of the sheets of which the whole design consists (docs/RULES.md,
/// "Instances").
#[derive(Debug, Drop)]
pub struct Instance {
    /// The name of the sheet.
    pub sheet: Name,
    /// The refdes of each hierarchical component on the way from the root, with `/` between them;
    /// empty for a root.
    pub path: Line,
    /// The ids of these components, from the root on.
    pub route: Items<u32>,
    /// The place of the instance directly above among all instances, counted from 0; `None` for a
    /// root.
    pub parent: Option<u32>,
}

/// The place of the instance directly above, by the places on the way to the instance before.
fn parent_in(entered: &[u32], way: &Way) -> Option<u32>
    ensures { result ≡ parent_in entered.now way.now }
{
    if way.steps.is_empty() {
        return None;
    }
    entered.get(way.steps.len() - 1).copied()
}

fn enter(entered: &mut Vec<u32>, way: &Way, place: u32) -> Result<(), AllocError>
    ensures { OnOk result
        (entered.new.items ≡ take (length way.now.steps) entered.old.items ++ place ∷ []) }
{
    entered.truncate(way.steps.len());
    entered.push(place)?;
    Ok(())
}

fn instance_at(
    alloc: Global,
    sheets: &[TableSheet],
    way: &Way,
    parent: Option<u32>,
) -> Result<Instance, AllocError>
    requires { last_sheet way.now < length sheets.now }
    ensures { IfOk result (λ instance. instance ≡ instance_with sheets.now way.now parent) }
{
    let sheet = &sheets[way.last_sheet()];
    let steps = way.steps.as_slice();
    Ok(Instance {
        sheet: sheet.name.clone()?,
        path: path_of(alloc, steps)?,
        route: Items::from_vec(route_of(alloc, steps)?),
        parent,
    })
}

/// The instances to which these ways lead, in order.
pub fn instances_at(
    alloc: Global,
    sheets: &[TableSheet],
    ways: &[Way],
) -> Result<Vec<Instance>, AllocError>
    requires few { length ways.now ≤ 4096 }
    requires inside { All (λ way. last_sheet way < length sheets.now) ways.now }
    requires order { AreInOrder ways.now }
    requires once { AllPairs ◌≢◌ ways.now }
    ensures { IfOk result
        (λ instances. instances.items ≡ map (instance_of sheets.now ways.now) ways.now) }
{
    let mut instances = Vec::new(alloc);
    let mut entered = Vec::new(alloc);
    for place in 0..ways.len() {
        let way = &ways[place];
        let parent = parent_in(entered.as_slice(), way);
        instances.push(instance_at(alloc, sheets, way, parent)?)?;
        enter(&mut entered, way, place as u32)?;
    }
    Ok(instances)
}
