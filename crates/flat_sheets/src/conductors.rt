// What joins of each object in an instance of its sheet.
ghost use Rattle.std.specs.Prelude.{◌≡◌, ◌++◌, ◌∷◌, [], IfOk, IsTrue, OnOk, length, option_copied};
ghost use Rattle.std.specs.Prelude.{option_map};
ghost use Rattle.std.specs.List.{flat_map};
ghost use Rattle.geda_model.specs.declared.object.Body.TheVariants as bodies;
ghost use Rattle.geda_geom.specs.declared.conductor.Conductor.TheVariants.{End};
ghost use Rattle.flat_sheets.specs.Conductors.{pin_conductor, pins_below};
ghost use Rattle.flat_sheets.specs.steps.ObjectContents.{drawn_of_shape, drawn_pin, hidden_pin};
ghost use Rattle.flat_sheets.specs.steps.PartRoles.{IsPlaceOf, IsPlainPin, new_pin, pin_row};
ghost use Rattle.flat_sheets.specs.steps.PartRoles.{role_in, row_member, segment_with};

use crate::texts::names_under;
use attr_rules::{PinKind, attrs_of};
use flat_rows::{FlatRow, GrowingRows, NewConductor, PortPins, RowMember};
use geda_geom::{Conductor, Key, Point};
use geda_model::{Block, Items, Shape, Word};
use instance_objects::InstanceObject;
use pin_place::PlacedPin;
use std::alloc::{AllocError, Global};

/// What a component is in an instance of its sheet.
#[derive(Drop)]
pub struct PartRole {
    /// The place of its part among the listed ones, if it is one.
    pub part: Option<usize>,
    /// Whether it leads down to sheets below.
    pub leads_down: bool,
    /// The pins above for which it stands, if it is a port.
    pub leads_up: Option<PortPins>,
    /// Whether it is a no-connection directive.
    pub directive: bool,
}

fn end_of(end: Option<Point>) -> Option<Conductor>
    ensures { result ≡ option_map End end }
{
    match end {
        Some(at) => Some(Conductor::End { at }),
        None => None,
    }
}

fn row_member(part: Option<usize>, pin: Word, kind: PinKind) -> Option<RowMember>
    ensures { result ≡ option_map (λ part. record { pin = pin; part = part; kind = kind }) part }
{
    match part {
        Some(part) => Some(RowMember { pin, part, kind }),
        None => None,
    }
}

fn pins_below(place: usize, id: u32, leads_down: bool, label: Option<Block>) -> Option<PortPins>
    ensures { result ≡ pins_below place id leads_down label }
{
    match label {
        Some(label) if leads_down => Some(PortPins {
            instance: place,
            id,
            label,
        }),
        _ => None,
    }
}

fn copied(pins: Option<&PortPins>) -> Result<Option<PortPins>, AllocError>
    ensures { IfOk result (λ copy. copy ≡ option_copied pins.entry) }
{
    match pins {
        None => Ok(None),
        Some(pins) => Ok(Some(pins.clone()?)),
    }
}

fn new_pin(
    alloc: Global,
    place: usize,
    id: u32,
    role: &PartRole,
    pin: PlacedPin,
) -> Result<NewConductor, AllocError>
    ensures { IfOk result (λ c. c ≡ new_pin place id role.now pin) }
{
    let leads_up = copied(role.leads_up.as_ref())?;
    Ok(NewConductor {
        instance: place,
        key: Key {
            id,
            place: pin.place,
        },
        shape: end_of(pin.end),
        global_names: pin.nets,
        drawn_names: Items::from_vec(Vec::new(alloc)),
        member: row_member(role.part, pin.number, pin.kind),
        leads_down: pins_below(place, id, role.leads_down, pin.label),
        leads_up,
        directive: role.directive,
    })
}

/// Whether a pin of a component in this role has neither names nor ports, as most have none.
fn is_plain_pin(role: &PartRole, pin: &PlacedPin) -> bool
    ensures { IsTrue result → IsPlainPin role.now pin.now }
{
    if role.leads_down {
        return false;
    }
    if role.leads_up.is_some() {
        return false;
    }
    pin.nets.len() == 0
}

pub fn pin_row(place: usize, id: u32, role: &PartRole, pin: &PlacedPin) -> FlatRow
    ensures { result ≡ pin_row place id role.now pin.now }
{
    FlatRow {
        instance: place,
        key: Key {
            id,
            place: pin.place,
        },
        shape: end_of(pin.end),
        directive: role.directive,
    }
}

fn push_plain_pin(
    rows: &mut GrowingRows,
    place: usize,
    id: u32,
    role: &PartRole,
    pin: PlacedPin,
) -> Result<(), AllocError>
    requires part { IsPlaceOf (length rows.old.parts) role.now.part }
    requires plain { IsPlainPin role.now pin }
    ensures parts { OnOk result (rows.new.parts ≡ rows.old.parts) }
    ensures drawn { OnOk result (rows.new.drawn ≡ rows.old.drawn
        ++ pin_conductor place id (role_in rows.old.parts role.now) pin ∷ []) }
    ensures hidden { OnOk result (rows.new.hidden ≡ rows.old.hidden) }
{
    let row = pin_row(place, id, role, &pin);
    let member = row_member(role.part, pin.number, pin.kind);
    rows.push_plain(row, member)?;
    Ok(())
}

fn push_drawn_pin(
    rows: &mut GrowingRows,
    alloc: Global,
    place: usize,
    id: u32,
    role: &PartRole,
    pin: PlacedPin,
) -> Result<(), AllocError>
    requires { IsPlaceOf (length rows.old.parts) role.now.part }
    ensures parts { OnOk result (rows.new.parts ≡ rows.old.parts) }
    ensures drawn { OnOk result (rows.new.drawn ≡ rows.old.drawn
        ++ pin_conductor place id (role_in rows.old.parts role.now) pin ∷ []) }
    ensures hidden { OnOk result (rows.new.hidden ≡ rows.old.hidden) }
{
    let conductor = new_pin(alloc, place, id, role, pin)?;
    rows.push_drawn(conductor)?;
    Ok(())
}

fn push_hidden_pin(
    rows: &mut GrowingRows,
    alloc: Global,
    place: usize,
    id: u32,
    role: &PartRole,
    pin: PlacedPin,
) -> Result<(), AllocError>
    requires { IsPlaceOf (length rows.old.parts) role.now.part }
    ensures parts { OnOk result (rows.new.parts ≡ rows.old.parts) }
    ensures drawn { OnOk result (rows.new.drawn ≡ rows.old.drawn) }
    ensures hidden { OnOk result (rows.new.hidden ≡ rows.old.hidden
        ++ pin_conductor place id (role_in rows.old.parts role.now) pin ∷ []) }
{
    let conductor = new_pin(alloc, place, id, role, pin)?;
    rows.push_hidden(conductor)?;
    Ok(())
}

fn push_pin(
    rows: &mut GrowingRows,
    alloc: Global,
    place: usize,
    id: u32,
    role: &PartRole,
    pin: PlacedPin,
) -> Result<(), AllocError>
    requires { IsPlaceOf (length rows.old.parts) role.now.part }
    ensures parts { OnOk result (rows.new.parts ≡ rows.old.parts) }
    ensures drawn { OnOk result (rows.new.drawn ≡ rows.old.drawn
        ++ drawn_pin place id (role_in rows.old.parts role.now) pin) }
    ensures hidden { OnOk result (rows.new.hidden ≡ rows.old.hidden
        ++ hidden_pin place id (role_in rows.old.parts role.now) pin) }
{
    if pin.end.is_some() {
        if is_plain_pin(role, &pin) {
            push_plain_pin(rows, place, id, role, pin)?;
            return Ok(());
        }
        push_drawn_pin(rows, alloc, place, id, role, pin)?;
        return Ok(());
    }
    match role.part {
        Some(_) => push_hidden_pin(rows, alloc, place, id, role, pin),
        None => Ok(()),
    }
}

/// Takes in the pins of a component that stands in an instance, at a place among all, in this role.
/// A hidden pin joins where the component is a listed part.
pub fn push_pins(
    rows: &mut GrowingRows,
    alloc: Global,
    place: usize,
    id: u32,
    role: &PartRole,
    pins: Items<PlacedPin>,
) -> Result<(), AllocError>
    requires { IsPlaceOf (length rows.old.parts) role.now.part }
    ensures parts { OnOk result (rows.new.parts ≡ rows.old.parts) }
    ensures drawn { OnOk result (rows.new.drawn ≡ rows.old.drawn
        ++ flat_map (drawn_pin place id (role_in rows.old.parts role.now)) pins) }
    ensures hidden { OnOk result (rows.new.hidden ≡ rows.old.hidden
        ++ flat_map (hidden_pin place id (role_in rows.old.parts role.now)) pins) }
{
    for pin in pins.into_vec() {
        push_pin(rows, alloc, place, id, role, pin)?;
    }
    Ok(())
}

/// Takes in a segment without names.
fn push_bare_segment(
    rows: &mut GrowingRows,
    place: usize,
    id: u32,
    segment: Conductor,
) -> Result<(), AllocError>
    ensures parts { OnOk result (rows.new.parts ≡ rows.old.parts) }
    ensures drawn { OnOk result
        (rows.new.drawn ≡ rows.old.drawn ++ segment_with place id segment [] ∷ []) }
    ensures hidden { OnOk result (rows.new.hidden ≡ rows.old.hidden) }
{
    let row = FlatRow {
        instance: place,
        key: Key { id, place: 0 },
        shape: Some(segment),
        directive: false,
    };
    rows.push_plain(row, None)?;
    Ok(())
}

/// Takes in a segment with these names.
fn push_segment(
    rows: &mut GrowingRows,
    alloc: Global,
    place: usize,
    id: u32,
    segment: Conductor,
    names: Vec<Block>,
) -> Result<(), AllocError>
    ensures parts { OnOk result (rows.new.parts ≡ rows.old.parts) }
    ensures drawn { OnOk result
        (rows.new.drawn ≡ rows.old.drawn ++ segment_with place id segment names.items ∷ []) }
    ensures hidden { OnOk result (rows.new.hidden ≡ rows.old.hidden) }
{
    rows.push_drawn(NewConductor {
        instance: place,
        key: Key { id, place: 0 },
        shape: Some(segment),
        global_names: Items::from_vec(Vec::new(alloc)),
        drawn_names: Items::from_vec(names),
        member: None,
        leads_down: None,
        leads_up: None,
        directive: false,
    })?;
    Ok(())
}

/// Takes in an object that is this shape: a net segment joins, with its attached `netname`s as they
/// print in its instance; no other shape does.
pub fn push_shape(
    rows: &mut GrowingRows,
    alloc: Global,
    found: &InstanceObject<'_>,
    shape: &Shape,
) -> Result<(), AllocError>
    requires body { found.now.flat.object.body ≡ bodies.Shape shape.now }
    ensures parts { OnOk result (rows.new.parts ≡ rows.old.parts) }
    ensures drawn { OnOk result
        (rows.new.drawn ≡ rows.old.drawn ++ drawn_of_shape found.now.flat shape.now) }
    ensures hidden { OnOk result (rows.new.hidden ≡ rows.old.hidden) }
{
    match shape {
        Shape::Net { x1, y1, x2, y2, .. } => {
            let a = Point { x: *x1, y: *y1 };
            let b = Point { x: *x2, y: *y2 };
            let segment = Conductor::Segment { a, b };
            if found.object().attrs.as_slice().is_empty() {
                push_bare_segment(rows, found.place(), found.id(), segment)?;
                return Ok(());
            }
            let names = attrs_of(alloc, found.object(), None, "netname")?;
            let printed = names_under(alloc, &found.instance().path, names.into_vec())?;
            push_segment(rows, alloc, found.place(), found.id(), segment, printed)?;
            Ok(())
        }
        _ => Ok(()),
    }
}
