// The conductors of one object.
ghost use Rattle.std.specs.Prelude.{◌≡◌, IfOk, is_some};
ghost use Rattle.geda_model.specs.declared.object.Body.TheVariants as bodies;
ghost use Rattle.pin_place.specs.Plans.{library_parts};
ghost use Rattle.pin_place.specs.SymbolPins.{symbol_pin};
ghost use Rattle.conductor_counts.specs.Conductors.{body_conductors, named, net_pins};
ghost use Rattle.conductor_counts.specs.Conductors.{shape_conductors};

use geda_model::{Body, Component, Object, Part, Shape};
use std::alloc::{AllocError, Global};
use symbol_tables::SymbolTables;

fn shape_conductors(shape: &Shape) -> u64
    ensures { result ≡ shape_conductors shape.now }
{
    match shape {
        Shape::Net { .. } | Shape::Bus { .. } => 1,
        _ => 0,
    }
}

fn is_net_pin(part: &Part) -> bool
    ensures { result ≡ is_some (symbol_pin part.now) }
{
    matches!(part.shape, Shape::Pin { bus: false, .. })
}

fn net_pins(parts: &[Part]) -> u64
    ensures { result ≡ net_pins parts.now }
{
    let mut count: u64 = 0;
    for part in parts {
        if is_net_pin(part) {
            count += 1;
        }
    }
    count
}

fn library_pins<'a>(
    alloc: Global,
    tables: &mut SymbolTables<'a>,
    object: &Object,
    component: &Component,
) -> Result<u64, AllocError>
    requires body { object.now.body ≡ bodies.Component component.now }
    ensures pins { IfOk result (λ count. count
        ≡ net_pins (library_parts (named tables.old.symbols component.now.basename))) }
    ensures kept { tables.new ≡ tables.old }
{
    let basename = component.basename.as_str();
    if let Some(table) = tables.get(basename) {
        return Ok(table.ends().len() as u64);
    }
    let table = tables.table_of(alloc, object)?;
    let count = table.ends().len() as u64;
    tables.put(alloc, basename, table)?;
    Ok(count)
}

/// The conductors of an object with the symbols of the tables' project. The pins of a library symbol
/// are found once.
pub(crate) fn object_conductors<'a>(
    alloc: Global,
    tables: &mut SymbolTables<'a>,
    object: &Object,
) -> Result<u64, AllocError>
    ensures count { IfOk result
        (λ count. count ≡ body_conductors tables.old.symbols object.now.body) }
    ensures kept { tables.new ≡ tables.old }
{
    match &object.body {
        Body::Shape(shape) => Ok(shape_conductors(shape)),
        Body::Component(component) => match &component.embedded {
            Some(parts) => Ok(net_pins(parts.as_slice())),
            None => library_pins(alloc, tables, object, component),
        },
    }
}
