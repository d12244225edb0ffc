// Projects, and how a change is put into one.
ghost use Rattle.std.specs.Prelude.{◌≡◌, ◌+◌, ◌≤◌, ◌<◌, IfOk, None, OnOk, length, map};
ghost use Rattle.std.specs.Prelude.{option_copied, option_map};
ghost use Rattle.std.specs.FinMap.{entries, get, keys};
ghost use Rattle.project_model.specs.Tables.{row_now, set_row};
ghost use Rattle.project_model.specs.Projects.{empty_project, ids_on};
ghost use Rattle.project_model.specs.Changes.{value_at, put_one, put, values_in, CanApply, IsIdInRange, IsRoomFor, count_names, name_count};
ghost use Rattle.project_model.specs.Changes.{as_head, as_symbol};

use crate::change::{Change, Placed, Thing, Value, head_of, symbol_of};
use crate::ordered::{ids_in, names_in, rows_in};
use crate::table::{ById, ByName};
use geda_model::{Head, Items, Name, Symbol};
use std::alloc::{AllocError, Global};
use std::marker::Model;

/// Sheets by name, their objects by id, and the symbols of a library by name.
#[derive(Drop)]
pub struct Project {
    sheets: ByName<Head>,
    objects: ById<Placed>,
    symbols: ByName<Symbol>,
    next_id: u32,
}

impl Model for Project {
    ghost use Rattle.std.specs.Prelude.{min};
    ghost use Rattle.std.specs.FinMap as map;
    ghost use Rattle.std.specs.Coded.{codes};
    ghost use Rattle.project_model.specs.Projects.{ProjectView};

    ghost Value = { ProjectView };

    ghost coded = { Prim.hlevel (codes, map.code) };

    ghost view = { λ p. record {
      contents = record {
        sheets = p.sheets.rows;
        objects = p.objects.rows;
        symbols = p.symbols.rows;
        next_id = p.next_id;
      };
      spare = record {
        things = p.objects.spare;
        names = min p.sheets.spare p.symbols.spare;
      };
    } };
}

// Most changes put new objects in. What else they do stands in functions of their own, so that an
// object moves once.

/// Takes an object out, and answers it.
#[inline(never)]
fn take_object(objects: &mut ById<Placed>, id: u32) -> Option<Value>
    requires { 0 < objects.old.spare }
    ensures before { result ≡ option_map Value.Object (get objects.old.rows id) }
    ensures rows { objects.new.rows ≡ set_row objects.old.rows id None }
    ensures spare { objects.old.spare ≤ objects.new.spare + 1 }
{
    objects.set(id, None).map(Value::Object)
}

/// Gives a sheet its version line, or none, and answers the one that it had.
#[inline(never)]
fn set_head(sheets: &mut ByName<Head>, name: &Name, value: Option<Value>) -> Option<Value>
    requires { 0 < sheets.old.spare }
    ensures before { result ≡ option_map Value.Head (get sheets.old.rows name.now) }
    ensures rows { sheets.new.rows ≡ set_row sheets.old.rows name.now (as_head value) }
    ensures spare { sheets.old.spare ≤ sheets.new.spare + 1 }
{
    sheets.set(name, head_of(value)).map(Value::Head)
}

/// Gives a name its symbol, or none, and answers the one that it had.
#[inline(never)]
fn set_symbol(symbols: &mut ByName<Symbol>, name: &Name, value: Option<Value>) -> Option<Value>
    requires { 0 < symbols.old.spare }
    ensures before { result ≡ option_map Value.Symbol (get symbols.old.rows name.now) }
    ensures rows { symbols.new.rows ≡ set_row symbols.old.rows name.now (as_symbol value) }
    ensures spare { symbols.old.spare ≤ symbols.new.spare + 1 }
{
    symbols.set(name, symbol_of(value)).map(Value::Symbol)
}

impl Project {
    /// The empty project, whose first object has the id 0. It takes no memory.
    pub fn new(alloc: Global) -> Project
        ensures contents { result.contents ≡ empty_project }
    {
        Project {
            sheets: ByName::new(alloc),
            objects: ById::new(alloc),
            symbols: ByName::new(alloc),
            next_id: 0,
        }
    }

    /// The version line of a sheet.
    ///
    /// `None` exactly where there is no such sheet. It takes no memory.
    pub fn head(&self, name: &Name) -> Option<&Head>
        ensures found { option_copied result ≡ get self.now.contents.sheets name.now }
    {
        self.sheets.get(name)
    }

    /// An object in its sheet.
    ///
    /// `None` exactly where no object has the id. It takes no memory.
    pub fn object(&self, id: u32) -> Option<&Placed>
        ensures found { option_copied result ≡ get self.now.contents.objects id }
    {
        self.objects.get(id)
    }

    /// A symbol of the library.
    ///
    /// `None` exactly where there is no such symbol. It takes no memory.
    pub fn symbol(&self, name: &Name) -> Option<&Symbol>
        ensures found { option_copied result ≡ get self.now.contents.symbols name.now }
    {
        self.symbols.get(name)
    }

    /// The id of the next object, above each that was given. It takes no memory.
    pub fn next_id(&self) -> u32
        ensures id { result ≡ self.now.contents.next_id }
    {
        self.next_id
    }

    /// The names of the sheets, rising.
    pub fn sheet_names(&self, alloc: Global) -> Result<Vec<Name>, AllocError>
        ensures names { IfOk result (λ v. v.items ≡ keys self.now.contents.sheets) }
    {
        names_in(alloc, self.sheets.rows())
    }

    /// The ids of a sheet's objects, rising.
    pub fn ids_of(&self, alloc: Global, name: &Name) -> Result<Vec<u32>, AllocError>
        ensures ids { IfOk result (λ v. v.items ≡ ids_on self.now.contents name.now) }
    {
        ids_in(alloc, self.objects.rows(), name)
    }

    /// All objects with their ids, by rising id.
    pub fn objects_by_id(&self, alloc: Global) -> Result<Vec<(u32, &Placed)>, AllocError>
        ensures objects { IfOk result (λ v.
            map row_now v.items ≡ entries self.now.contents.objects) }
    {
        rows_in(alloc, self.objects.rows())
    }

    /// Makes room for the things of a change, and for the names of sheets and symbols among them.
    /// The project and the room that it has stay, also where memory runs out.
    pub fn reserve(&mut self, alloc: Global, change: &Change) -> Result<(), AllocError>
        ensures contents { self.new.contents ≡ self.old.contents }
        ensures ok { OnOk result (IsRoomFor change.now.items self.new.spare) }
        ensures things { self.old.spare.things ≤ self.new.spare.things }
        ensures names { self.old.spare.names ≤ self.new.spare.names }
    {
        self.reserve_for(alloc, change.len(), change.count_names())
    }

    /// Makes room for as many more things, and for as many names of sheets and symbols among them.
    /// The project and the room that it has stay, also where memory runs out.
    pub fn reserve_for(
        &mut self,
        alloc: Global,
        things: usize,
        names: usize,
    ) -> Result<(), AllocError>
        ensures contents { self.new.contents ≡ self.old.contents }
        ensures ok { OnOk result
            ((things ≤ self.new.spare.things) × (names ≤ self.new.spare.names)) }
        ensures things { self.old.spare.things ≤ self.new.spare.things }
        ensures names { self.old.spare.names ≤ self.new.spare.names }
    {
        self.sheets.reserve(alloc, names)?;
        self.symbols.reserve(alloc, names)?;
        self.objects.reserve(things)
    }

    /// An equal project, without the room for changes.
    pub fn copy(&self, alloc: Global) -> Result<Project, AllocError>
        ensures contents { IfOk result (λ project. project.contents ≡ self.now.contents) }
    {
        Ok(Project {
            sheets: self.sheets.copy(alloc)?,
            objects: self.objects.copy()?,
            symbols: self.symbols.copy(alloc)?,
            next_id: self.next_id,
        })
    }

    /// Gives a thing a value, or none, as `apply` does with a change of this one item, and answers
    /// the value that it had.
    ///
    /// A value of another kind than its thing counts as none. It can't fail and takes no memory.
    pub fn put_one(&mut self, thing: &Thing, value: Option<Value>) -> Option<Value>
        requires things { 0 < self.old.spare.things }
        requires names { name_count thing.now ≤ self.old.spare.names }
        requires id { IsIdInRange thing.now }
        ensures contents { self.new.contents ≡ put_one self.old.contents thing.now value }
        ensures before { result ≡ value_at self.old.contents thing.now }
        ensures things { self.old.spare.things ≤ self.new.spare.things + 1 }
        ensures names { self.old.spare.names ≤ self.new.spare.names + name_count thing.now }
    {
        let id = match thing {
            Thing::Object(id) => *id,
            Thing::SheetName(name) => return set_head(&mut self.sheets, name, value),
            Thing::SymbolName(name) => return set_symbol(&mut self.symbols, name, value),
        };
        self.next_id = self.next_id.max(id + 1);
        let Some(Value::Object(placed)) = value else {
            return take_object(&mut self.objects, id);
        };
        if let Some(old) = self.objects.put(id, placed) {
            return Some(Value::Object(old));
        }
        None
    }

    /// Puts the values of a change in, and answers the same things in the same order, each with the
    /// value that it had before.
    ///
    /// A value of another kind than its thing counts as none. It can't fail and takes no memory.
    pub fn apply(&mut self, change: Change) -> Change
        requires can_apply { CanApply change.items }
        requires room { IsRoomFor change.items self.old.spare }
        ensures contents { self.new.contents ≡ put self.old.contents change.items }
        ensures before { result.items ≡ values_in self.old.contents change.items }
        ensures again { CanApply result.items }
        ensures things { self.old.spare.things ≤ self.new.spare.things + length change.items }
        ensures names { self.old.spare.names ≤ self.new.spare.names + count_names change.items }
    {
        self.exchange(change)
    }

    // The items are changed in place and given back, so that no memory is taken. That it can be
    // applied again is told by `apply`, since it follows from the things alone.
    fn exchange(&mut self, change: Change) -> Change
        requires can_apply { CanApply change.items }
        requires room { IsRoomFor change.items self.old.spare }
        ensures contents { self.new.contents ≡ put self.old.contents change.items }
        ensures before { result.items ≡ values_in self.old.contents change.items }
        ensures things { self.old.spare.things ≤ self.new.spare.things + length change.items }
        ensures names { self.old.spare.names ≤ self.new.spare.names + count_names change.items }
    {
        let mut items = change.items.into_vec();
        for item in items.iter_mut() {
            let value = item.1.take();
            item.1 = self.put_one(&item.0, value);
        }
        Change {
            items: Items::from_vec(items),
        }
    }
}
