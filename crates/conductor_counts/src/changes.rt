// The conductors of a project after a change.
ghost use Rattle.std.specs.Prelude.{◌≡◌, IfOk, false};
ghost use Rattle.std.specs.List.{list_any};
ghost use Rattle.project_model.specs.Changes.{CanApply, put, value_at, values_in};
ghost use Rattle.edit_rules.specs.Weights.{thing_weight, weight_in};
ghost use Rattle.conductor_counts.specs.Conductors.{conductor_weights, conductors};
ghost use Rattle.conductor_counts.specs.steps.SymbolItems.{is_symbol};

use crate::objects::object_conductors;
use crate::projects::count_conductors;
use project_model::{Change, Project, Thing, Value};
use std::alloc::{AllocError, Global};
use symbol_tables::SymbolTables;

fn new_conductors<'a>(
    alloc: Global,
    tables: &mut SymbolTables<'a>,
    item: &(Thing, Option<Value>),
) -> Result<u64, AllocError>
    ensures count { IfOk result (λ count. count
        ≡ thing_weight (conductor_weights tables.old.symbols) item.now.0 item.now.1) }
    ensures kept { tables.new ≡ tables.old }
{
    match item {
        (Thing::Object(_), Some(Value::Object(placed))) => {
            object_conductors(alloc, tables, &placed.object)
        }
        _ => Ok(0),
    }
}

fn old_conductors<'a>(
    alloc: Global,
    tables: &mut SymbolTables<'a>,
    project: &Project,
    thing: &Thing,
) -> Result<u64, AllocError>
    ensures count { IfOk result (λ count. count ≡ thing_weight
        (conductor_weights tables.old.symbols) thing.now (value_at project.now.contents thing.now)) }
    ensures kept { tables.new ≡ tables.old }
{
    let Thing::Object(id) = thing else {
        return Ok(0);
    };
    match project.object(*id) {
        Some(placed) => object_conductors(alloc, tables, &placed.object),
        None => Ok(0),
    }
}

/// What a change puts in.
fn put_in<'a>(
    alloc: Global,
    tables: &mut SymbolTables<'a>,
    items: &[(Thing, Option<Value>)],
) -> Result<u64, AllocError>
    ensures count { IfOk result
        (λ count. count ≡ weight_in (conductor_weights tables.old.symbols) items.now) }
    ensures kept { tables.new ≡ tables.old }
{
    let mut sum: u64 = 0;
    for item in items {
        let count = new_conductors(alloc, tables, item)?;
        sum = sum.checked_add(count).ok_or(AllocError)?;
    }
    Ok(sum)
}

/// What a change takes out of a project.
fn taken_out<'a>(
    alloc: Global,
    tables: &mut SymbolTables<'a>,
    project: &Project,
    items: &[(Thing, Option<Value>)],
) -> Result<u64, AllocError>
    ensures count { IfOk result (λ count. count ≡ weight_in
        (conductor_weights tables.old.symbols) (values_in project.now.contents items.now)) }
    ensures kept { tables.new ≡ tables.old }
{
    let mut sum: u64 = 0;
    for item in items {
        let count = old_conductors(alloc, tables, project, &item.0)?;
        sum = sum.checked_add(count).ok_or(AllocError)?;
    }
    Ok(sum)
}

fn is_symbol(item: &(Thing, Option<Value>)) -> bool
    ensures { result ≡ is_symbol item.now }
{
    matches!(item.0, Thing::SymbolName(_))
}

fn has_symbol(items: &[(Thing, Option<Value>)]) -> bool
    ensures { result ≡ list_any is_symbol items.now }
{
    items.iter().any(is_symbol)
}

/// Where the symbols stay: what the change puts in, and what it takes out.
fn after_objects(
    alloc: Global,
    project: &Project,
    before: u64,
    change: &Change,
) -> Result<u64, AllocError>
    requires before { before ≡ conductors project.now.contents }
    requires can_apply { CanApply change.now.items }
    requires objects { list_any is_symbol change.now.items ≡ false }
    ensures { IfOk result (λ count. count ≡ conductors (put project.now.contents change.now.items)) }
{
    let items = change.items.as_slice();
    let mut tables = SymbolTables::new(alloc, project);
    let added = put_in(alloc, &mut tables, items)?;
    let gone = taken_out(alloc, &mut tables, project, items)?;
    let all = before.checked_add(added).ok_or(AllocError)?;
    Ok(all - gone)
}

/// Where a symbol changes, each component may have other pins: all objects are counted, in a copy
/// of the project.
fn after_symbols(alloc: Global, project: &Project, change: &Change) -> Result<u64, AllocError>
    requires can_apply { CanApply change.now.items }
    ensures { IfOk result (λ count. count ≡ conductors (put project.now.contents change.now.items)) }
{
    let mut after = project.copy(alloc)?;
    after.reserve(alloc, change)?;
    drop(after.apply(change.copy(alloc)?));
    count_conductors(alloc, &after)
}

/// The conductors of a project of which so many are known, after a change. It takes time by what the
/// change puts in and takes out, and where a symbol is among it by the project.
///
/// More than 18,446,744,073,709,551,615 are told as want of memory.
pub fn conductors_after(
    alloc: Global,
    project: &Project,
    before: u64,
    change: &Change,
) -> Result<u64, AllocError>
    requires before { before ≡ conductors project.now.contents }
    requires can_apply { CanApply change.now.items }
    ensures { IfOk result (λ count. count ≡ conductors (put project.now.contents change.now.items)) }
{
    if has_symbol(change.items.as_slice()) {
        return after_symbols(alloc, project, change);
    }
    after_objects(alloc, project, before, change)
}
