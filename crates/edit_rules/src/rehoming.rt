// The numbers of objects of sheets, as a change goes in.
ghost use Rattle.std.specs.Prelude.{◌≡◌, ◌+◌, ◌≤◌, ◌<◌, ◌^◌, ◌||◌, All, IsSome, List, cond, is_some, ℕ};
ghost use Rattle.std.specs.FinMap as map;
ghost use Rattle.std.specs.Str.{bytes_eq};
ghost use Rattle.project_model.specs.Changes.{AreDistinct, count_names, name_count, put, value_at};
ghost use Rattle.project_model.specs.declared.change.Thing.TheVariants as things;
ghost use Rattle.edit_rules.specs.Histories.{changes_thing, is_same_thing};
ghost use Rattle.edit_rules.specs.Weights.{in_sheet, weigh, thing_weight};
ghost use Rattle.edit_rules.specs.HomeRows.{HasHome, home_count};

use crate::homes::Homes;
use geda_model::Name;
use project_model::{Project, Thing, Value};

fn open_one(homes: &mut Homes, thing: &Thing)
    requires { name_count thing.now ≤ homes.old.spare }
    ensures counted { (n : List ℕ) →
        home_count (map.get homes.new.rows n) ≡ home_count (map.get homes.old.rows n) }
    ensures there { (n : List ℕ) → is_some (map.get homes.new.rows n)
        ≡ (is_some (map.get homes.old.rows n) || is_same_thing (things.SheetName n) thing.now) }
    ensures spare { homes.old.spare ≤ homes.new.spare + name_count thing.now }
{
    match thing {
        Thing::Object(_) => {}
        Thing::SheetName(name) => homes.open(name),
        Thing::SymbolName(_) => {}
    }
}

/// Makes a row for each sheet of a change. It takes no memory.
pub(crate) fn open_all(homes: &mut Homes, items: &[(Thing, Option<Value>)])
    requires { count_names items.now ≤ homes.old.spare }
    ensures counted { (n : List ℕ) →
        home_count (map.get homes.new.rows n) ≡ home_count (map.get homes.old.rows n) }
    ensures there { (n : List ℕ) → is_some (map.get homes.new.rows n)
        ≡ (is_some (map.get homes.old.rows n) || changes_thing (things.SheetName n) items.now) }
{
    for item in items {
        open_one(homes, &item.0);
    }
}

fn leave(homes: &mut Homes, name: &Name)
    requires { 0 < home_count (map.get homes.old.rows name.now) }
    ensures left { (n : List ℕ) →
        home_count (map.get homes.new.rows n) + cond (bytes_eq n name.now) 1 0
        ≡ home_count (map.get homes.old.rows n) }
    ensures kept { (n : List ℕ) →
        is_some (map.get homes.new.rows n) ≡ is_some (map.get homes.old.rows n) }
{
    let count = homes.count(name) - 1;
    homes.set(name, count);
}

fn enter(homes: &mut Homes, name: &Name)
    requires there { IsSome (map.get homes.old.rows name.now) }
    requires few { home_count (map.get homes.old.rows name.now) + 1 < 2 ^ 64 }
    ensures entered { (n : List ℕ) → home_count (map.get homes.new.rows n)
        ≡ home_count (map.get homes.old.rows n) + cond (bytes_eq n name.now) 1 0 }
    ensures kept { (n : List ℕ) →
        is_some (map.get homes.new.rows n) ≡ is_some (map.get homes.old.rows n) }
{
    let count = homes.count(name) + 1;
    homes.set(name, count);
}

fn rehome(homes: &mut Homes, project: &Project, thing: &Thing, value: &Option<Value>)
    requires here { (n : List ℕ) →
        thing_weight (in_sheet n) thing.now (value_at project.now.contents thing.now)
        ≤ home_count (map.get homes.old.rows n) }
    requires few { (n : List ℕ) → home_count (map.get homes.old.rows n) + 1 < 2 ^ 64 }
    requires home { HasHome homes.old.rows (thing.now, value.now) }
    ensures moved { (n : List ℕ) → home_count (map.get homes.new.rows n)
        + thing_weight (in_sheet n) thing.now (value_at project.now.contents thing.now)
        ≡ home_count (map.get homes.old.rows n) + thing_weight (in_sheet n) thing.now value.now }
    ensures kept { (n : List ℕ) →
        is_some (map.get homes.new.rows n) ≡ is_some (map.get homes.old.rows n) }
{
    if let Thing::Object(id) = thing {
        if let Some(placed) = project.object(*id) {
            leave(homes, &placed.sheet);
        }
        if let Some(Value::Object(placed)) = value {
            enter(homes, &placed.sheet);
        }
    }
}

/// Takes the objects of a change from their sheets to those that they go to. It takes no memory.
pub(crate) fn rehome_all(homes: &mut Homes, project: &Project, items: &[(Thing, Option<Value>)])
    requires distinct { AreDistinct items.now }
    requires counted { (n : List ℕ) →
        home_count (map.get homes.old.rows n) ≡ weigh (in_sheet n) project.now.contents }
    requires few { (n : List ℕ) → weigh (in_sheet n) project.now.contents ≤ 67108864 }
    requires home { All (HasHome homes.old.rows) items.now }
    ensures counted { (n : List ℕ) → home_count (map.get homes.new.rows n)
        ≡ weigh (in_sheet n) (put project.now.contents items.now) }
    ensures kept { (n : List ℕ) →
        is_some (map.get homes.new.rows n) ≡ is_some (map.get homes.old.rows n) }
{
    for item in items {
        rehome(homes, project, &item.0, &item.1);
    }
}
