// A component as the check sees it.
ghost use Rattle.std.specs.Prelude.{◌≡◌, IfOk, IfSome, None, OnOk, Some, option_copied};
ghost use Rattle.geda_model.specs.declared.object.Body.TheVariants as bodies;
ghost use Rattle.attr_rules.specs.FirstValues.{values_of};
ghost use Rattle.attr_rules.specs.Libraries.{library_of, symbol_named};
ghost use Rattle.component_checks.specs.CheckedComponents.{checked_component, checked_object};
ghost use Rattle.component_checks.specs.CheckedComponents.{finds_symbol, is_port_if};
ghost use Rattle.component_checks.specs.steps.CheckedValues.{checked_by};
ghost use Rattle.component_checks.specs.steps.SoundSymbols.{AreSound};

use crate::attributes::{printed_refdes, slot_count};
use crate::checked::CheckedComponent;
use crate::drawn_pins::DrawnPins;
use crate::sound_symbols::{is_sound, take_in};
use crate::value_faults::{ValueFaults, value_faults};
use attr_rules::FirstValues;
use geda_model::{Body, Component, Symbol};
use instance_objects::InstanceObject;
use pin_place::{SymbolTable, is_plain};
use std::alloc::{AllocError, Global};
use std::collections::HashSet;
use symbol_tables::SymbolTables;
use text_tallies::PairKey;

fn has_symbol(component: &Component, library: Option<&Symbol>) -> bool
    ensures { result ≡ finds_symbol component.now (option_copied library.entry) }
{
    component.embedded.is_some() || library.is_some()
}

fn is_port_if(found: &InstanceObject<'_>, refdes: Option<&str>) -> bool
    ensures { result ≡
        is_port_if found.now.project found.now.flat.instance (option_copied refdes.entry) }
{
    match refdes {
        None => false,
        Some(refdes) => found.is_port(refdes),
    }
}

/// A component with these first values, faults and drawn pins, as the check sees it.
fn checked_by<'a>(
    alloc: Global,
    found: &InstanceObject<'a>,
    component: &'a Component,
    library: Option<&Symbol>,
    values: &FirstValues<'a>,
    faults: ValueFaults,
    pins: DrawnPins<'a>,
) -> Result<CheckedComponent<'a>, AllocError>
    requires { values.now ≡ values_of found.now.flat.object (option_copied library) }
    ensures { IfOk result (λ made. made ≡ checked_by found.now.project found.now.flat
        component.now (option_copied library.entry) values.now faults pins.entry) }
{
    let instance = found.instance();
    let refdes = values.refdes_line();
    Ok(CheckedComponent {
        sheet: &instance.sheet,
        id: found.id(),
        basename: &component.basename,
        has_symbol: has_symbol(component, library),
        refdes: printed_refdes(alloc, instance, refdes)?,
        is_hierarchical: values.has_sources(),
        is_port: is_port_if(found, refdes),
        has_net: values.net.is_some(),
        has_bad_net: faults.bad_net,
        slot: values.slot,
        slot_fault: faults.slot,
        slots: slot_count(values.numslots),
        pins,
    })
}

/// A component that is neither graphical nor a directive, by the table of its library symbol, where
/// its pins are kept there.
fn checked_by_table<'a>(
    alloc: Global,
    sound: &HashSet<PairKey<'a>>,
    found: &InstanceObject<'a>,
    component: &'a Component,
    table: &SymbolTable<'a>,
) -> Result<Option<CheckedComponent<'a>>, AllocError>
    requires body { found.now.flat.object.body ≡ bodies.Component component.now }
    requires alone { component.now.embedded ≡ None }
    ensures { AreSound found.now.project sound.now
        → table.now ≡ symbol_named found.now.project component.now.basename
        → IfOk result (λ known. IfSome known (λ made. checked_component found.now.project
        found.now.flat component.now table.now ≡ Some made)) }
{
    let object = found.object();
    let own = FirstValues::of_texts(object.attrs.as_slice());
    let values = own.over(table.values());
    if !is_plain(&own, &values) {
        return Ok(None);
    }
    match table.plan(values.slot) {
        None => Ok(None),
        Some(plan) => {
            let library = table.library();
            let pins = DrawnPins::by_plan(alloc, object, library, plan)?;
            let known = is_sound(sound, component, &values);
            let faults = value_faults(alloc, object, library, &values, known)?;
            let made = checked_by(alloc, found, component, library, &values, faults, pins)?;
            Ok(Some(made))
        }
    }
}

/// The same by the tables of the library symbols, where one of them is its symbol's.
fn checked_by_tables<'a>(
    alloc: Global,
    tables: &SymbolTables<'a>,
    sound: &HashSet<PairKey<'a>>,
    found: &InstanceObject<'a>,
    component: &'a Component,
) -> Result<Option<CheckedComponent<'a>>, AllocError>
    requires body { found.now.flat.object.body ≡ bodies.Component component.now }
    requires same { tables.now ≡ found.now.project }
    requires sound { AreSound found.now.project sound.now }
    ensures { IfOk result (λ known. IfSome known (λ made. checked_component found.now.project
        found.now.flat component.now (library_of found.now.project found.now.flat.object)
        ≡ Some made)) }
{
    if component.embedded.is_none() {
        if let Some(table) = tables.get(component.basename.as_str()) {
            return checked_by_table(alloc, sound, found, component, table);
        }
    }
    Ok(None)
}

/// A component as the check sees it, by all its pins; the tables keep them, where its library
/// symbol gives them.
fn checked_by_pins<'a>(
    alloc: Global,
    tables: &mut SymbolTables<'a>,
    sound: &mut HashSet<PairKey<'a>>,
    found: &InstanceObject<'a>,
    component: &'a Component,
) -> Result<Option<CheckedComponent<'a>>, AllocError>
    requires body { found.now.flat.object.body ≡ bodies.Component component.now }
    requires same { tables.old ≡ found.now.project }
    requires sound { AreSound found.now.project sound.old }
    ensures made { IfOk result (λ made. made ≡ checked_component found.now.project
        found.now.flat component.now (library_of found.now.project found.now.flat.object)) }
    ensures kept { tables.new ≡ tables.old }
    ensures sound { OnOk result (AreSound found.now.project sound.new) }
{
    let object = found.object();
    let values = tables.values_of(alloc, object)?;
    if values.is_annotation() {
        return Ok(None);
    }
    let library = tables.library_of(alloc, object)?;
    let all = tables.pins_of(alloc, object)?;
    let pins = DrawnPins::of(alloc, object, library, all)?;
    let faults = value_faults(alloc, object, library, &values, false)?;
    let made = checked_by(alloc, found, component, library, &values, faults, pins)?;
    take_in(sound, object, component, &values, faults)?;
    Ok(Some(made))
}

fn checked_component<'a>(
    alloc: Global,
    tables: &mut SymbolTables<'a>,
    sound: &mut HashSet<PairKey<'a>>,
    found: &InstanceObject<'a>,
    component: &'a Component,
) -> Result<Option<CheckedComponent<'a>>, AllocError>
    requires body { found.now.flat.object.body ≡ bodies.Component component.now }
    requires same { tables.old ≡ found.now.project }
    requires sound { AreSound found.now.project sound.old }
    ensures made { IfOk result (λ made. made ≡ checked_component found.now.project
        found.now.flat component.now (library_of found.now.project found.now.flat.object)) }
    ensures kept { tables.new ≡ tables.old }
    ensures sound { OnOk result (AreSound found.now.project sound.new) }
{
    let known = checked_by_tables(alloc, tables, sound, found, component)?;
    match known {
        Some(made) => Ok(Some(made)),
        None => checked_by_pins(alloc, tables, sound, found, component),
    }
}

/// An object as the check sees it, if it is a component that is neither graphical nor a directive.
pub fn checked_object<'a>(
    alloc: Global,
    tables: &mut SymbolTables<'a>,
    sound: &mut HashSet<PairKey<'a>>,
    found: &InstanceObject<'a>,
) -> Result<Option<CheckedComponent<'a>>, AllocError>
    requires same { tables.old ≡ found.now.project }
    requires sound { AreSound found.now.project sound.old }
    ensures made { IfOk result
        (λ made. made ≡ checked_object found.now.project found.now.flat) }
    ensures kept { tables.new ≡ tables.old }
    ensures sound { OnOk result (AreSound found.now.project sound.new) }
{
    match found.body() {
        Body::Shape(_) => Ok(None),
        Body::Component(component) => checked_component(alloc, tables, sound, found, component),
    }
}
