// The numbers of a project that limits are about, as sums over a project and over a change.
ghost use Rattle.std.specs.Prelude.{◌≡◌, ◌-◌, ◌^◌, min};
ghost use Rattle.project_model.specs.Changes.{value_at, values_in};
ghost use Rattle.edit_rules.specs.Weights.{weight_in, thing_weight};
ghost use Rattle.edit_rules.specs.Tallies.{weights_of};

use geda_model::{Head, Symbol};
use geda_write::{object_size, symbol_size};
use project_model::{Placed, Project, Thing, Value};

/// What is counted.
#[derive(Clone, Copy, Debug, PartialEq, Eq)]
pub enum Which {
    /// Objects.
    Objects,
    /// Sheets.
    Sheets,
    /// Symbols.
    Symbols,
    /// The bytes of the texts of objects and symbols.
    Text,
}

fn placed_weight(which: Which, placed: &Placed) -> u64
    ensures { result ≡ min ((weights_of which).object placed.now) (2 ^ 64 - 1) }
{
    match which {
        Which::Objects => 1,
        Which::Sheets => 0,
        Which::Symbols => 0,
        Which::Text => object_size(&placed.object),
    }
}

fn head_weight(which: Which, head: &Head) -> u64
    ensures { result ≡ min ((weights_of which).head head.now) (2 ^ 64 - 1) }
{
    match which {
        Which::Objects => 0,
        Which::Sheets => 1,
        Which::Symbols => 0,
        Which::Text => 0,
    }
}

fn symbol_weight(which: Which, symbol: &Symbol) -> u64
    ensures { result ≡ min ((weights_of which).symbol symbol.now) (2 ^ 64 - 1) }
{
    match which {
        Which::Objects => 0,
        Which::Sheets => 0,
        Which::Symbols => 1,
        Which::Text => symbol_size(symbol),
    }
}

fn new_weight(which: Which, thing: &Thing, value: &Option<Value>) -> u64
    ensures { result ≡ min (thing_weight (weights_of which) thing.now value.now) (2 ^ 64 - 1) }
{
    match (thing, value) {
        (Thing::Object(_), Some(Value::Object(placed))) => placed_weight(which, placed),
        (Thing::SheetName(_), Some(Value::Head(head))) => head_weight(which, head),
        (Thing::SymbolName(_), Some(Value::Symbol(symbol))) => symbol_weight(which, symbol),
        _ => 0,
    }
}

fn old_weight(which: Which, project: &Project, thing: &Thing) -> u64
    ensures { result ≡ min
        (thing_weight (weights_of which) thing.now (value_at project.now.contents thing.now))
        (2 ^ 64 - 1) }
{
    match thing {
        Thing::Object(id) => match project.object(*id) {
            Some(placed) => placed_weight(which, placed),
            None => 0,
        },
        Thing::SheetName(name) => match project.head(name) {
            Some(head) => head_weight(which, head),
            None => 0,
        },
        Thing::SymbolName(name) => match project.symbol(name) {
            Some(symbol) => symbol_weight(which, symbol),
            None => 0,
        },
    }
}

/// What a change puts in, up to 18,446,744,073,709,551,615. It takes no memory.
pub(crate) fn put_in(which: Which, items: &[(Thing, Option<Value>)]) -> u64
    ensures { result ≡ min (weight_in (weights_of which) items.now) (2 ^ 64 - 1) }
{
    let mut sum: u64 = 0;
    for item in items {
        sum = sum.saturating_add(new_weight(which, &item.0, &item.1));
    }
    sum
}

/// What a change takes out of a project, up to 18,446,744,073,709,551,615. It takes no memory.
pub(crate) fn taken_out(which: Which, project: &Project, items: &[(Thing, Option<Value>)]) -> u64
    ensures { result ≡ min
        (weight_in (weights_of which) (values_in project.now.contents items.now))
        (2 ^ 64 - 1) }
{
    let mut sum: u64 = 0;
    for item in items {
        sum = sum.saturating_add(old_weight(which, project, &item.0));
    }
    sum
}
