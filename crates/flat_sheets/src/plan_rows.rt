// The pins that the plan of a library symbol gives a component, put into rows straight.
ghost use Rattle.std.specs.Prelude.{◌≡◌, ◌++◌, IfOk, IsTrue, OnOk, length, map, option_map};
ghost use Rattle.std.specs.List.{flat_map};
ghost use Rattle.pin_place.specs.Plans.{put_pin};
ghost use Rattle.flat_sheets.specs.steps.ObjectContents.{drawn_pin, hidden_pin};
ghost use Rattle.flat_sheets.specs.steps.PartRoles.{HasNoPorts, IsPlaceOf, member_at, pin_row};
ghost use Rattle.flat_sheets.specs.steps.PartRoles.{role_in};

use crate::conductors::{PartRole, pin_row, push_pins};
use attr_rules::PinKind;
use flat_rows::{FlatRow, GrowingRows, RowMember};
use geda_geom::{Conductor, Key};
use geda_model::{Component, Word};
use pin_place::{PinPlan, PlacedPin, PlanPin, pins_by_plan};
use std::alloc::{AllocError, Global};

fn member_at(
    part: Option<usize>,
    number: &Word,
    kind: PinKind,
) -> Result<Option<RowMember>, AllocError>
    ensures { IfOk result (λ member. member ≡ option_map (member_at number.now kind) part) }
{
    match part {
        Some(part) => Ok(Some(RowMember {
            pin: number.clone()?,
            part,
            kind,
        })),
        None => Ok(None),
    }
}

fn plan_row(place: usize, id: u32, role: &PartRole, component: &Component, pin: &PlanPin) -> FlatRow
    ensures { result ≡ pin_row place id role.now (put_pin component.now pin.now) }
{
    let at = pin.end_under(component);
    FlatRow {
        instance: place,
        key: Key {
            id,
            place: pin.place,
        },
        shape: Some(Conductor::End { at }),
        directive: role.directive,
    }
}

fn push_plan_pin(
    rows: &mut GrowingRows,
    place: usize,
    id: u32,
    role: &PartRole,
    component: &Component,
    pin: &PlanPin,
) -> Result<(), AllocError>
    requires part { IsPlaceOf (length rows.old.parts) role.now.part }
    requires ports { HasNoPorts role.now }
    ensures parts { OnOk result (rows.new.parts ≡ rows.old.parts) }
    ensures drawn { OnOk result (rows.new.drawn ≡ rows.old.drawn
        ++ drawn_pin place id (role_in rows.old.parts role.now) (put_pin component.now pin.now)) }
    ensures hidden { OnOk result (rows.new.hidden ≡ rows.old.hidden
        ++ hidden_pin place id (role_in rows.old.parts role.now) (put_pin component.now pin.now)) }
{
    let row = plan_row(place, id, role, component, pin);
    let member = member_at(role.part, &pin.number, pin.kind)?;
    rows.push_named(row, member, pin.nets.as_slice())?;
    Ok(())
}

fn push_placed_pin(
    rows: &mut GrowingRows,
    place: usize,
    id: u32,
    role: &PartRole,
    pin: &PlacedPin,
) -> Result<(), AllocError>
    requires part { IsPlaceOf (length rows.old.parts) role.now.part }
    requires ports { HasNoPorts role.now }
    ensures parts { OnOk result (rows.new.parts ≡ rows.old.parts) }
    ensures drawn { OnOk result (rows.new.drawn ≡ rows.old.drawn
        ++ drawn_pin place id (role_in rows.old.parts role.now) pin.now) }
    ensures hidden { OnOk result (rows.new.hidden ≡ rows.old.hidden
        ++ hidden_pin place id (role_in rows.old.parts role.now) pin.now) }
{
    let row = pin_row(place, id, role, pin);
    let member = member_at(role.part, &pin.number, pin.kind)?;
    if pin.end.is_some() {
        rows.push_named(row, member, pin.nets.as_slice())?;
        return Ok(());
    }
    if role.part.is_none() {
        return Ok(());
    }
    rows.push_hidden_named(row, member, pin.nets.as_slice())?;
    Ok(())
}

fn push_plan_pins(
    rows: &mut GrowingRows,
    place: usize,
    id: u32,
    role: &PartRole,
    component: &Component,
    pins: &[PlanPin],
) -> Result<(), AllocError>
    requires part { IsPlaceOf (length rows.old.parts) role.now.part }
    requires ports { HasNoPorts role.now }
    ensures parts { OnOk result (rows.new.parts ≡ rows.old.parts) }
    ensures drawn { OnOk result (rows.new.drawn ≡ rows.old.drawn
        ++ flat_map (drawn_pin place id (role_in rows.old.parts role.now))
        (map (put_pin component.now) pins.now)) }
    ensures hidden { OnOk result (rows.new.hidden ≡ rows.old.hidden
        ++ flat_map (hidden_pin place id (role_in rows.old.parts role.now))
        (map (put_pin component.now) pins.now)) }
{
    for pin in pins {
        push_plan_pin(rows, place, id, role, component, pin)?;
    }
    Ok(())
}

fn push_placed_pins(
    rows: &mut GrowingRows,
    place: usize,
    id: u32,
    role: &PartRole,
    pins: &[PlacedPin],
) -> Result<(), AllocError>
    requires part { IsPlaceOf (length rows.old.parts) role.now.part }
    requires ports { HasNoPorts role.now }
    ensures parts { OnOk result (rows.new.parts ≡ rows.old.parts) }
    ensures drawn { OnOk result (rows.new.drawn ≡ rows.old.drawn
        ++ flat_map (drawn_pin place id (role_in rows.old.parts role.now)) pins.now) }
    ensures hidden { OnOk result (rows.new.hidden ≡ rows.old.hidden
        ++ flat_map (hidden_pin place id (role_in rows.old.parts role.now)) pins.now) }
{
    for pin in pins {
        push_placed_pin(rows, place, id, role, pin)?;
    }
    Ok(())
}

fn has_no_ports(role: &PartRole) -> bool
    ensures { IsTrue result → HasNoPorts role.now }
{
    if role.leads_down {
        return false;
    }
    role.leads_up.is_none()
}

/// Takes in the pins that a plan gives a component that stands in an instance, at a place among
/// all, in this role. A hidden pin joins where the component is a listed part.
pub fn push_plan(
    rows: &mut GrowingRows,
    alloc: Global,
    place: usize,
    id: u32,
    role: &PartRole,
    component: &Component,
    plan: &PinPlan,
) -> Result<(), AllocError>
    requires { IsPlaceOf (length rows.old.parts) role.now.part }
    ensures parts { OnOk result (rows.new.parts ≡ rows.old.parts) }
    ensures drawn { OnOk result (rows.new.drawn ≡ rows.old.drawn
        ++ flat_map (drawn_pin place id (role_in rows.old.parts role.now))
        (map (put_pin component.now) plan.now.drawn.items ++ plan.now.hidden.items)) }
    ensures hidden { OnOk result (rows.new.hidden ≡ rows.old.hidden
        ++ flat_map (hidden_pin place id (role_in rows.old.parts role.now))
        (map (put_pin component.now) plan.now.drawn.items ++ plan.now.hidden.items)) }
{
    if !has_no_ports(role) {
        let pins = pins_by_plan(alloc, component, plan)?;
        push_pins(rows, alloc, place, id, role, pins)?;
        return Ok(());
    }
    push_plan_pins(rows, place, id, role, component, plan.drawn.as_slice())?;
    push_placed_pins(rows, place, id, role, plan.hidden.as_slice())?;
    Ok(())
}
