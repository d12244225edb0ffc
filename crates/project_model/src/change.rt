// Changes: things with their new values.
ghost use Rattle.std.specs.Prelude.{◌≡◌, ◌≤◌, ◌++◌, ◌∷◌, [], IfOk, OnErr, OnOk, length};
ghost use Rattle.project_model.specs.Changes.{CanApply, IsIdInRange, as_head, as_symbol};
ghost use Rattle.project_model.specs.Changes.{count_names};

use geda_model::{Head, Items, Name, Object, Symbol};
use std::alloc::{AllocError, Global};

/// An object in its sheet.
#[derive(Clone, Debug, Drop)]
pub struct Placed {
    /// The name of the sheet.
    pub sheet: Name,
    /// The object.
    pub object: Object,
}

/// The key of a change: what a project has a value of, or none.
#[derive(Clone, Debug, Drop)]
pub enum Thing {
    /// An object by its id, which is below 4,294,967,295.
    Object(u32),
    /// A sheet.
    SheetName(Name),
    /// A symbol of the library.
    SymbolName(Name),
}

/// What a thing has. A value of another kind than its thing counts as none.
#[derive(Clone, Debug, Drop)]
pub enum Value {
    /// An object, of the thing `Object`.
    Object(Placed),
    /// The version line of a sheet, of the thing `SheetName`.
    Head(Head),
    /// A symbol, of the thing `SymbolName`.
    Symbol(Symbol),
}

/// A change set: things, each with its new value, or with none.
#[derive(Debug, Drop)]
pub struct Change {
    /// The things and their values, in the order in which they are put in.
    pub items: Items<(Thing, Option<Value>)>,
}

impl Change {
    /// The change of nothing. It takes no memory.
    pub fn new(alloc: Global) -> Change
        ensures { result.items ≡ [] }
    {
        Change {
            items: Items::from_vec(Vec::new(alloc)),
        }
    }

    /// The change of one thing.
    #[tactic(auto, using(crate::proofs::BuiltChanges::one_can_apply))]
    pub fn one(alloc: Global, thing: Thing, value: Option<Value>) -> Result<Change, AllocError>
        ensures items { IfOk result (λ change. change.items ≡ (thing, value) ∷ []) }
        ensures can_apply { IsIdInRange thing → IfOk result (λ change. CanApply change.items) }
    {
        let mut change = Change::new(alloc);
        change.push(thing, value)?;
        Ok(change)
    }

    /// Puts an item behind the others. On want of memory they stay as they are.
    pub fn push(&mut self, thing: Thing, value: Option<Value>) -> Result<(), AllocError>
        ensures ok { OnOk result (self.new.items ≡ self.old.items ++ (thing, value) ∷ []) }
        ensures err { OnErr result (self.new.items ≡ self.old.items) }
    {
        self.items.push((thing, value))
    }

    /// How many items the change has. It takes no memory.
    pub fn len(&self) -> usize
        ensures { result ≡ length self.now.items }
    {
        self.items.len()
    }

    /// How many items give a sheet or a symbol its value, so that a project wants room for their
    /// names. It takes no memory.
    pub fn count_names(&self) -> usize
        ensures { result ≡ count_names self.now.items }
    {
        count_names(self.items.as_slice())
    }

    /// An equal change.
    pub fn copy(&self, alloc: Global) -> Result<Change, AllocError>
        ensures { IfOk result (λ change. change.items ≡ self.now.items) }
    {
        let list = self.items.as_slice().to_vec(alloc)?;
        Ok(Change {
            items: Items::from_vec(list),
        })
    }
}

fn count_names(items: &[(Thing, Option<Value>)]) -> usize
    ensures count { result ≡ count_names items.now }
    ensures few { result ≤ length items.now }
{
    let mut count = 0;
    for item in items {
        if !matches!(item.0, Thing::Object(_)) {
            count += 1;
        }
    }
    count
}

pub(crate) fn head_of(value: Option<Value>) -> Option<Head>
    ensures { result ≡ as_head value }
{
    match &value {
        Some(Value::Head(head)) => Some(*head),
        _ => None,
    }
}

pub(crate) fn symbol_of(value: Option<Value>) -> Option<Symbol>
    ensures { result ≡ as_symbol value }
{
    match value {
        Some(Value::Symbol(symbol)) => Some(symbol),
        _ => None,
    }
}
