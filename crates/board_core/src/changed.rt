// What a change has, for quick look-ups, and what it touches.
ghost use Rattle.std.specs.Prelude.{◌≡◌, false, IfOk, OnOk, map};
ghost use Rattle.std.specs.BTreeSet.{IsOrdered};
ghost use Rattle.std.specs.HashSet.{contains_text};
ghost use Rattle.std.specs.Ordering.{nat_cmp};
ghost use Rattle.std.specs.Option.{option_map};
ghost use Rattle.project_model.specs.Items.{Item};
ghost use Rattle.board_core.specs.Changed.{has_symbol, has_symbol_of, has_thing};
ghost use Rattle.board_core.specs.Changed.{is_changed, is_object};
ghost use Rattle.board_core.specs.Bounds.{is_renewed};
ghost use Rattle.board_core.specs.steps.ChangedThings.{AddsId, AddsSymbol, HasNoSymbol};
ghost use Rattle.board_core.specs.steps.ChangedThings.{has_id};
ghost use Rattle.board_core.specs.steps.Standing.{found_row, found_rows, own_rows};
ghost use Rattle.project_model.specs.Tables.{row_now};

use crate::rows::push_some;
use geda_model::{Body, Component, Object};
use project_model::{Placed, Project, Thing, Value};
use std::alloc::{AllocError, Global};
use std::collections::{BTreeSet, HashSet};
use std::marker::Model;

/// The items of a change, with the ids of its objects and the names of its symbols.
#[derive(Drop)]
pub(crate) struct Things<'a> {
    items: &'a [(Thing, Option<Value>)],
    ids: BTreeSet<u32>,
    symbols: HashSet<String>,
}

impl<'a> Model for Things<'a> {
    ghost use Rattle.std.specs.Prelude.{List};
    ghost use Rattle.std.specs.HashSet.{contains_text};
    ghost use Rattle.project_model.specs.Items.{Item};
    ghost use Rattle.board_core.specs.steps.ChangedThings.{HasThings, has_id};

    ghost Value = { List Item };

    ghost view = { λ t. t.items.now };

    ghost invariant = { λ t. HasThings t.items.now (has_id t.ids) (contains_text t.symbols) };
}

fn add_thing(
    alloc: Global,
    ids: &mut BTreeSet<u32>,
    symbols: &mut HashSet<String>,
    thing: &Thing,
) -> Result<(), AllocError>
    ensures ids { OnOk result (AddsId thing.now (has_id ids.old) (has_id ids.new)) }
    ensures symbols { OnOk result
        (AddsSymbol thing.now (contains_text symbols.old) (contains_text symbols.new)) }
{
    match thing {
        Thing::Object(id) => {
            ids.insert(*id)?;
        }
        Thing::SymbolName(name) => {
            symbols.insert(String::from_str(alloc, name.as_str())?)?;
        }
        Thing::SheetName(_) => {}
    }
    Ok(())
}

/// The object of a project that has an id, with the id. It takes no memory.
fn found_row(project: &Project, id: u32) -> Option<(u32, &Placed)>
    ensures { option_map row_now result ≡ found_row project.now.contents id }
{
    match project.object(id) {
        Some(placed) => Some((id, placed)),
        None => None,
    }
}

/// The objects of these ids that stand in a project, by id.
fn found_rows<'p>(
    alloc: Global,
    project: &'p Project,
    ids: &BTreeSet<u32>,
) -> Result<Vec<(u32, &'p Placed)>, AllocError>
    ensures rows { IfOk result (λ rows. map row_now rows.items
        ≡ found_rows project.now.contents ids.now.keys) }
    ensures rising { OnOk result (IsOrdered nat_cmp ids.now) }
{
    let mut rows = Vec::new(alloc);
    for id in ids {
        push_some(&mut rows, found_row(project, *id))?;
    }
    Ok(rows)
}

impl<'a> Things<'a> {
    /// The things of a change.
    pub(crate) fn of(
        alloc: Global,
        items: &'a [(Thing, Option<Value>)],
    ) -> Result<Things<'a>, AllocError>
        ensures { IfOk result (λ things. things ≡ items.now) }
    {
        let mut ids = BTreeSet::new(alloc);
        let mut symbols = HashSet::new(alloc);
        for item in items {
            add_thing(alloc, &mut ids, &mut symbols, &item.0)?;
        }
        Ok(Things {
            items,
            ids,
            symbols,
        })
    }

    /// The items of the change. It takes no memory.
    pub(crate) fn items(&self) -> &[(Thing, Option<Value>)]
        ensures { result.now ≡ self.now }
    {
        self.items
    }

    /// The objects of a project that the change has, by id.
    pub(crate) fn own_rows<'p>(
        &self,
        alloc: Global,
        project: &'p Project,
    ) -> Result<Vec<(u32, &'p Placed)>, AllocError>
        ensures { IfOk result (λ rows. map row_now rows.items
            ≡ own_rows project.now.contents self.now) }
    {
        found_rows(alloc, project, &self.ids)
    }

    /// Whether the change has any symbol. It takes no memory.
    pub(crate) fn has_symbols(&self) -> bool
        ensures { result ≡ false → HasNoSymbol self.now }
    {
        !self.symbols.is_empty()
    }

    fn has_object(&self, id: u32) -> bool
        ensures { result ≡ has_thing (is_object id) self.now }
    {
        self.ids.contains(&id)
    }

    fn has_symbol(&self, component: &Component) -> bool
        ensures { result ≡ has_symbol self.now component.now.basename component.now.embedded }
    {
        match &component.embedded {
            Some(_) => false,
            None => self.symbols.contains(component.basename.as_str()),
        }
    }

    fn has_symbol_of(&self, object: &Object) -> bool
        ensures { result ≡ has_symbol_of self.now object.now }
    {
        match &object.body {
            Body::Shape(_) => false,
            Body::Component(component) => self.has_symbol(component),
        }
    }

    /// Whether the change has an object, or its library symbol. It takes no memory.
    pub(crate) fn is_changed(&self, id: u32, placed: &Placed) -> bool
        ensures { result ≡ is_changed self.now (id, placed.now) }
    {
        self.has_object(id) || self.has_symbol_of(&placed.object)
    }

    /// Whether the change has the library symbol of an object, but not the object. It takes no
    /// memory.
    pub(crate) fn is_renewed(&self, id: u32, placed: &Placed) -> bool
        ensures { result ≡ is_renewed self.now (id, placed.now) }
    {
        !self.has_object(id) && self.has_symbol_of(&placed.object)
    }
}
