// The ids of the objects of a project.
ghost use Rattle.std.specs.Prelude.{◌≡◌, IfOk, OnOk};
ghost use Rattle.std.specs.FinMap.{keys};
ghost use Rattle.gaf_work.specs.DrawnSteps.{id_at};
ghost use Rattle.gaf_work.specs.Live.{Follows};
ghost use Rattle.gaf_work.specs.steps.LiveSteps.{FollowsItem, FollowsPut, FollowsRemove};

use project_model::{Change, Project, Thing, Value};
use std::alloc::{AllocError, Global};
use std::marker::Model;

/// The ids of a project's objects, rising: what a deletion is drawn from. Contracts see them as a
/// list.
#[derive(Debug, Drop)]
pub struct LiveIds {
    ids: Vec<u32>,
}

impl Model for LiveIds {
    ghost use Rattle.std.specs.Prelude.{List, ℕ};

    ghost Value = { List ℕ };

    ghost view = { λ l. l.ids.items };
}

/// Puts an id in its place, unless it is there.
fn put_id(ids: &mut Vec<u32>, id: u32) -> Result<(), AllocError>
    ensures { OnOk result (FollowsPut id ids.old.items ids.new.items) }
{
    if let Err(place) = ids.binary_search(&id) {
        ids.insert(place, id)?;
    }
    Ok(())
}

/// Takes an id out, where it is there. It takes no memory.
fn remove_id(ids: &mut Vec<u32>, id: u32)
    ensures { FollowsRemove id ids.old.items ids.new.items }
{
    if let Ok(place) = ids.binary_search(&id) {
        ids.remove(place);
    }
}

fn follow_item(ids: &mut Vec<u32>, item: &(Thing, Option<Value>)) -> Result<(), AllocError>
    ensures { OnOk result (FollowsItem item.now ids.old.items ids.new.items) }
{
    match &item.0 {
        Thing::Object(id) => match &item.1 {
            Some(Value::Object(_)) => put_id(ids, *id),
            _ => {
                remove_id(ids, *id);
                Ok(())
            }
        },
        _ => Ok(()),
    }
}

fn follow_items(ids: &mut Vec<u32>, items: &[(Thing, Option<Value>)]) -> Result<(), AllocError>
    ensures { OnOk result (Follows items.now ids.old.items ids.new.items) }
{
    for item in items {
        follow_item(ids, item)?;
    }
    Ok(())
}

impl LiveIds {
    /// The ids of a project's objects.
    pub fn of(alloc: Global, project: &Project) -> Result<LiveIds, AllocError>
        ensures { IfOk result (λ live. live ≡ keys project.now.contents.objects) }
    {
        let rows = project.objects_by_id(alloc)?;
        let mut ids = Vec::new(alloc);
        for row in &rows {
            ids.push(row.0)?;
        }
        Ok(LiveIds { ids })
    }

    /// The id at a place, counted round.
    ///
    /// `None` exactly where there is no id. It takes no memory.
    pub(crate) fn at(&self, q: u32) -> Option<u32>
        ensures { result ≡ id_at self.now q }
    {
        if self.ids.is_empty() {
            return None;
        }
        Some(self.ids[q as usize % self.ids.len()])
    }

    /// Makes the ids of a project those of the project after a change. A change of one object costs
    /// one search, and a move of the ids above.
    pub fn follow(&mut self, change: &Change) -> Result<(), AllocError>
        ensures { OnOk result (Follows change.now.items self.old self.new) }
    {
        follow_items(&mut self.ids, change.items.as_slice())
    }
}
