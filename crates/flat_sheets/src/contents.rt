// What each object of a project adds to the conductors and the listed components.
ghost use Rattle.std.specs.Prelude.{◌≡◌, ◌++◌, IfOk, OnOk, map};
ghost use Rattle.std.specs.Option.{option_to_list};
ghost use Rattle.geda_model.specs.declared.object.Body.TheVariants as bodies;
ghost use Rattle.attr_rules.specs.FirstValues.{values_of};
ghost use Rattle.attr_rules.specs.Libraries.{library_of};
ghost use Rattle.pin_place.specs.Pins.{pins_of};
ghost use Rattle.pin_place.specs.Plans.{put_pin};
ghost use Rattle.instance_objects.specs.Occurrences.{object_at, occurrences};
ghost use Rattle.flat_sheets.specs.ListedParts.{listed_part};
ghost use Rattle.flat_sheets.specs.Conductors.{drawn_of, hidden_of};
ghost use Rattle.flat_sheets.specs.steps.ObjectContents.{drawn_if, drawn_in, drawn_of_component};
ghost use Rattle.flat_sheets.specs.steps.ObjectContents.{hidden_if, hidden_in, hidden_of_component};
ghost use Rattle.flat_sheets.specs.steps.ObjectContents.{part_if, part_of_component, parts_in};

use crate::conductors::{push_pins, push_shape};
use crate::package::listed_role;
use crate::plan_rows::push_plan;
use crate::planned::{Planned, values_and_plan};
use crate::roles::role_of;
use flat_rows::GrowingRows;
use geda_model::{Body, Component};
use instance_objects::{InstanceObject, InstanceObjects, Occurrence};
use std::alloc::{AllocError, Global};
use symbol_tables::{SymbolTables, ValuedPins};

/// Takes in a component with these first values, of which a plan gives the pins.
fn take_planned(
    rows: &mut GrowingRows,
    alloc: Global,
    found: &InstanceObject<'_>,
    component: &Component,
    planned: &Planned<'_, '_>,
) -> Result<(), AllocError>
    requires body { found.now.flat.object.body ≡ bodies.Component component.now }
    requires values { planned.now.values ≡ values_of found.now.flat.object
        (library_of found.now.project found.now.flat.object) }
    requires pins { pins_of found.now.flat.object
        (library_of found.now.project found.now.flat.object)
        ≡ map (put_pin component.now) planned.now.plan.now.drawn.items
        ++ planned.now.plan.now.hidden.items }
    ensures drawn { OnOk result (rows.new.drawn
        ≡ rows.old.drawn ++ drawn_of_component found.now.project found.now.flat) }
    ensures hidden { OnOk result (rows.new.hidden
        ≡ rows.old.hidden ++ hidden_of_component found.now.project found.now.flat) }
    ensures parts { OnOk result (rows.new.parts
        ≡ rows.old.parts ++ option_to_list (part_of_component found.now.project found.now.flat)) }
{
    let role = role_of(alloc, found, component, &planned.values)?;
    let listed = listed_role(rows, alloc, &planned.values, role)?;
    push_plan(
        rows,
        alloc,
        found.place(),
        found.id(),
        &listed,
        component,
        planned.plan,
    )?;
    Ok(())
}

fn take_valued<'a>(
    rows: &mut GrowingRows,
    alloc: Global,
    tables: &mut SymbolTables<'a>,
    found: &InstanceObject<'a>,
    component: &Component,
) -> Result<(), AllocError>
    requires body { found.now.flat.object.body ≡ bodies.Component component.now }
    requires same { tables.old ≡ found.now.project }
    ensures drawn { OnOk result (rows.new.drawn
        ≡ rows.old.drawn ++ drawn_of_component found.now.project found.now.flat) }
    ensures hidden { OnOk result (rows.new.hidden
        ≡ rows.old.hidden ++ hidden_of_component found.now.project found.now.flat) }
    ensures parts { OnOk result (rows.new.parts
        ≡ rows.old.parts ++ option_to_list (part_of_component found.now.project found.now.flat)) }
    ensures kept { tables.new ≡ tables.old }
{
    let ValuedPins { values, pins } = tables.valued_pins_of(alloc, found.object())?;
    let role = role_of(alloc, found, component, &values)?;
    let listed = listed_role(rows, alloc, &values, role)?;
    push_pins(rows, alloc, found.place(), found.id(), &listed, pins)?;
    Ok(())
}

fn take_component<'a>(
    rows: &mut GrowingRows,
    alloc: Global,
    tables: &mut SymbolTables<'a>,
    found: &InstanceObject<'a>,
    component: &Component,
) -> Result<(), AllocError>
    requires body { found.now.flat.object.body ≡ bodies.Component component.now }
    requires same { tables.old ≡ found.now.project }
    ensures drawn { OnOk result (rows.new.drawn
        ≡ rows.old.drawn ++ drawn_of_component found.now.project found.now.flat) }
    ensures hidden { OnOk result (rows.new.hidden
        ≡ rows.old.hidden ++ hidden_of_component found.now.project found.now.flat) }
    ensures parts { OnOk result (rows.new.parts
        ≡ rows.old.parts ++ option_to_list (part_of_component found.now.project found.now.flat)) }
    ensures kept { tables.new ≡ tables.old }
{
    if component.embedded.is_none() {
        if let Some(table) = tables.get(component.basename.as_str()) {
            if let Some(planned) = values_and_plan(found.object(), component, table) {
                take_planned(rows, alloc, found, component, &planned)?;
                return Ok(());
            }
        }
    }
    take_valued(rows, alloc, tables, found, component)?;
    Ok(())
}

fn take_object<'a>(
    rows: &mut GrowingRows,
    alloc: Global,
    tables: &mut SymbolTables<'a>,
    found: &InstanceObject<'a>,
) -> Result<(), AllocError>
    requires same { tables.old ≡ found.now.project }
    ensures drawn { OnOk result
        (rows.new.drawn ≡ rows.old.drawn ++ drawn_of found.now.project found.now.flat) }
    ensures hidden { OnOk result
        (rows.new.hidden ≡ rows.old.hidden ++ hidden_of found.now.project found.now.flat) }
    ensures parts { OnOk result (rows.new.parts
        ≡ rows.old.parts ++ option_to_list (listed_part found.now.project found.now.flat)) }
    ensures kept { tables.new ≡ tables.old }
{
    match found.body() {
        Body::Shape(shape) => push_shape(rows, alloc, found, shape),
        Body::Component(component) => take_component(rows, alloc, tables, found, component),
    }
}

fn take_at<'a>(
    rows: &mut GrowingRows,
    alloc: Global,
    tables: &mut SymbolTables<'a>,
    objects: &'a InstanceObjects<'_>,
    occurrence: &Occurrence<'_>,
) -> Result<(), AllocError>
    requires same { tables.old ≡ objects.now }
    ensures drawn { OnOk result (rows.new.drawn
        ≡ rows.old.drawn ++ drawn_if objects.now (object_at objects.now occurrence.now)) }
    ensures hidden { OnOk result (rows.new.hidden
        ≡ rows.old.hidden ++ hidden_if objects.now (object_at objects.now occurrence.now)) }
    ensures parts { OnOk result (rows.new.parts
        ≡ rows.old.parts ++ part_if objects.now (object_at objects.now occurrence.now)) }
    ensures kept { tables.new ≡ tables.old }
{
    let Some(found) = objects.object(occurrence) else {
        return Ok(());
    };
    take_object(rows, alloc, tables, &found)
}

/// What a project has, by its objects in order.
pub fn contents_of(alloc: Global, objects: &InstanceObjects<'_>) -> Result<GrowingRows, AllocError>
    ensures drawn { IfOk result
        (λ rows. rows.drawn ≡ drawn_in objects.now (occurrences objects.now)) }
    ensures hidden { IfOk result
        (λ rows. rows.hidden ≡ hidden_in objects.now (occurrences objects.now)) }
    ensures parts { IfOk result
        (λ rows. rows.parts ≡ parts_in objects.now (occurrences objects.now)) }
{
    let occurrences = objects.occurrences();
    let mut rows = GrowingRows::with_room(alloc, occurrences.len())?;
    let mut tables = SymbolTables::new(alloc, objects.project());
    for occurrence in occurrences {
        take_at(&mut rows, alloc, &mut tables, objects, occurrence)?;
    }
    Ok(rows)
}
