// The objects that come onto the sheet.
ghost use Rattle.std.specs.Prelude.{◌≡◌, IfOk};
ghost use Rattle.gaf_work.specs.DrawnSteps.{across, extent, part, up, wire};
ghost use Rattle.gaf_work.specs.steps.Objects.{component, refdes_text};

use crate::names::basename;
use geda_model::{Block, Body, Component, Object, Shape, Text, Texts};
use std::alloc::{AllocError, Global};

/// How far across a number draws, in mils.
fn across(q: u32) -> u16
    ensures { result ≡ across q }
{
    (100 * (q % 100)) as u16
}

/// How far up it draws.
fn up(q: u32) -> u16
    ensures { result ≡ up q }
{
    (100 * (q / 100 % 100)) as u16
}

/// How long the wire is that it draws.
fn extent(q: u32) -> u16
    ensures { result ≡ extent q }
{
    (100 * (1 + q / 10_000 / 2 % 5)) as u16
}

/// The wire from the point that a number draws. It takes no memory.
pub fn wire(alloc: Global, q: u32) -> Object
    ensures { result ≡ wire q }
{
    let x = across(q);
    let y = up(q);
    let extent = extent(q);
    let (right, top) = if q / 10_000 % 2 == 0 {
        (x + extent, y)
    } else {
        (x, y + extent)
    };
    Object {
        body: Body::Shape(Shape::Net {
            x1: i32::from(x),
            y1: i32::from(y),
            x2: i32::from(right),
            y2: i32::from(top),
            color: 4,
        }),
        attrs: Texts::new(alloc),
    }
}

/// The refdes of a part, which is shown where the part stands.
fn refdes_text(alloc: Global, q: u32, id: u32) -> Result<Text, AllocError>
    ensures { IfOk result (λ text. text ≡ refdes_text q id) }
{
    let content = format!(in alloc; "refdes=W{id}")?;
    Ok(Text {
        x: i32::from(across(q)),
        y: i32::from(up(q)),
        color: 5,
        size: 10,
        visible: 1,
        show: 1,
        angle: 0,
        align: 0,
        content: Block::from_string(content),
    })
}

/// The symbol that a part places.
fn component(alloc: Global, q: u32) -> Result<Component, AllocError>
    ensures { IfOk result (λ c. c ≡ component q) }
{
    Ok(Component {
        x: i32::from(across(q)),
        y: i32::from(up(q)),
        selectable: true,
        angle: 0,
        mirror: false,
        basename: basename(alloc)?,
        embedded: None,
    })
}

/// The part at the point that a number draws, whose refdes is `W` and its id.
pub fn part(alloc: Global, q: u32, id: u32) -> Result<Object, AllocError>
    ensures { IfOk result (λ object. object ≡ part q id) }
{
    let component = component(alloc, q)?;
    let mut attrs = Texts::new(alloc);
    attrs.push(refdes_text(alloc, q, id)?)?;
    Ok(Object {
        body: Body::Component(component),
        attrs,
    })
}
