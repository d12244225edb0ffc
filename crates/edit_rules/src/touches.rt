// The last touch of each thing.
ghost use Rattle.std.specs.Prelude.{◌≡◌, ◌+◌, ◌≤◌, ◌<◌, cond, Some, OnOk, length};
ghost use Rattle.std.specs.FinMap as map;
ghost use Rattle.project_model.specs.Changes.{IsRoomFor, count_names, name_count};
ghost use Rattle.project_model.specs.declared.change.Thing.{Thing};
ghost use Rattle.edit_rules.specs.Histories.{changes_thing, is_same_thing};
ghost use Rattle.edit_rules.specs.TouchRows.{no_touches, touch_in};

use geda_model::Name;
use project_model::{ById, ByName, Thing, Value};
use std::alloc::{AllocError, Global};
use std::marker::Model;

/// Serials by thing. Contracts see the rows, and for how many things and how many names of sheets
/// and symbols among them there is room.
#[derive(Drop)]
pub struct Touches {
    objects: ById<u32>,
    sheets: ByName<u32>,
    symbols: ByName<u32>,
}

impl Model for Touches {
    ghost use Rattle.std.specs.Prelude.{min};
    ghost use Rattle.std.specs.FinMap as map;
    ghost use Rattle.std.specs.Coded.{codes};
    ghost use Rattle.edit_rules.specs.TouchRows.{TouchesView};

    ghost Value = { TouchesView };

    ghost coded = { Prim.hlevel (codes, map.code) };

    ghost view = { λ t. record {
      rows = record {
        objects = t.objects.rows;
        sheets = t.sheets.rows;
        symbols = t.symbols.rows;
      };
      spare = record {
        things = t.objects.spare;
        names = min t.sheets.spare t.symbols.spare;
      };
    } };
}

impl Touches {
    /// No rows, and no room. It takes no memory.
    pub fn new(alloc: Global) -> Touches
        ensures { result.rows ≡ no_touches }
    {
        Touches {
            objects: ById::new(alloc),
            sheets: ByName::new(alloc),
            symbols: ByName::new(alloc),
        }
    }

    /// The serial of an object. It takes no memory.
    pub fn object(&self, id: u32) -> Option<u32>
        ensures { result ≡ map.get self.now.rows.objects id }
    {
        self.objects.get(id).copied()
    }

    /// The serial of a sheet. It takes no memory.
    pub fn sheet(&self, name: &Name) -> Option<u32>
        ensures { result ≡ map.get self.now.rows.sheets name.now }
    {
        self.sheets.get(name).copied()
    }

    /// The serial of a symbol. It takes no memory.
    pub fn symbol(&self, name: &Name) -> Option<u32>
        ensures { result ≡ map.get self.now.rows.symbols name.now }
    {
        self.symbols.get(name).copied()
    }

    /// The serial of a thing. It takes no memory.
    pub fn get(&self, thing: &Thing) -> Option<u32>
        ensures { result ≡ touch_in self.now.rows thing.now }
    {
        match thing {
            Thing::Object(id) => self.object(*id),
            Thing::SheetName(name) => self.sheet(name),
            Thing::SymbolName(name) => self.symbol(name),
        }
    }

    /// Makes room for so many things, and for so many names among them. The rows and the room that
    /// there is stay, also where memory runs out.
    pub fn reserve(&mut self, alloc: Global, things: usize, names: usize) -> Result<(), AllocError>
        ensures rows { self.new.rows ≡ self.old.rows }
        ensures things { OnOk result (things ≤ self.new.spare.things) }
        ensures names { OnOk result (names ≤ self.new.spare.names) }
    {
        self.sheets.reserve(alloc, names)?;
        self.symbols.reserve(alloc, names)?;
        self.objects.reserve(things)
    }

    /// Notes a touch of a thing. It can't fail and takes no memory.
    pub fn put(&mut self, thing: &Thing, serial: u32)
        requires things { 0 < self.old.spare.things }
        requires names { name_count thing.now ≤ self.old.spare.names }
        ensures rows { (t : Thing) → touch_in self.new.rows t
            ≡ cond (is_same_thing t thing.now) (Some serial) (touch_in self.old.rows t) }
        ensures things { self.old.spare.things ≤ self.new.spare.things + 1 }
        ensures names { self.old.spare.names ≤ self.new.spare.names + name_count thing.now }
    {
        let _ = match thing {
            Thing::Object(id) => self.objects.set(*id, Some(serial)),
            Thing::SheetName(name) => self.sheets.set(name, Some(serial)),
            Thing::SymbolName(name) => self.symbols.set(name, Some(serial)),
        };
    }

    /// Notes a touch of each thing of a change. It can't fail and takes no memory.
    pub fn touch(&mut self, items: &[(Thing, Option<Value>)], serial: u32)
        requires { IsRoomFor items.now self.old.spare }
        ensures rows { (t : Thing) → touch_in self.new.rows t
            ≡ cond (changes_thing t items.now) (Some serial) (touch_in self.old.rows t) }
    {
        for item in items {
            self.put(&item.0, serial);
        }
    }
}
