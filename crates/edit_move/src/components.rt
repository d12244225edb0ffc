// Components and objects under a motion.
ghost use Rattle.std.specs.Prelude.{IfOk};
ghost use Rattle.geda_model.specs.Shapes.{EmbeddedIsInRange};
ghost use Rattle.geda_model.specs.Sheets.{BodyIsInRange};
ghost use Rattle.edit_move.specs.Motions.{IsMotion};
ghost use Rattle.edit_move.specs.Objects.{body_after, component_after, embedded_after, object_after};
ghost use Rattle.edit_move.specs.steps.Walks.{Comes};

use crate::fault::MoveFault;
use crate::motion::{Motion, component_angle, component_mirror, point_after};
use crate::shapes::{parts_after, shape_after};
use crate::texts::texts_after;
use geda_geom::Point;
use geda_model::{Body, Component, Object, Parts};
use std::alloc::Global;

#[tactic(auto, unfolding(crate::specs::Objects::embedded_after))]
fn embedded_after(
    alloc: Global,
    motion: Motion,
    embedded: &Option<Parts>,
) -> Result<Option<Parts>, MoveFault>
    requires motion { IsMotion motion }
    ensures comes { Comes result (embedded_after motion embedded.now) }
    ensures range { IfOk result EmbeddedIsInRange }
{
    match embedded {
        Some(parts) => Ok(Some(parts_after(alloc, motion, parts.as_slice())?)),
        None => Ok(None),
    }
}

#[tactic(auto, unfolding(crate::specs::Objects::component_after))]
fn component_after(
    alloc: Global,
    motion: Motion,
    component: &Component,
) -> Result<Component, MoveFault>
    requires motion { IsMotion motion }
    ensures comes { Comes result (component_after motion component.now) }
{
    let point = Point {
        x: component.x,
        y: component.y,
    };
    let point = point_after(motion, point)?;
    let embedded = embedded_after(alloc, motion, &component.embedded)?;
    Ok(Component {
        x: point.x,
        y: point.y,
        selectable: component.selectable,
        angle: component_angle(motion, component.angle),
        mirror: component_mirror(motion, component.mirror),
        basename: component.basename.clone()?,
        embedded,
    })
}

#[tactic(auto, unfolding(crate::specs::Objects::body_after))]
fn body_after(alloc: Global, motion: Motion, body: &Body) -> Result<Body, MoveFault>
    requires motion { IsMotion motion }
    requires body { BodyIsInRange body.now }
    ensures comes { Comes result (body_after motion body.now) }
    ensures range { IfOk result BodyIsInRange }
{
    match body {
        Body::Shape(shape) => Ok(Body::Shape(shape_after(motion, shape)?)),
        Body::Component(component) => Ok(Body::Component(component_after(
            alloc, motion, component,
        )?)),
    }
}

/// An object afterwards.
#[tactic(auto, unfolding(crate::specs::Objects::object_after))]
pub(crate) fn object_after(
    alloc: Global,
    motion: Motion,
    object: &Object,
) -> Result<Object, MoveFault>
    requires motion { IsMotion motion }
    ensures comes { Comes result (object_after motion object.now) }
{
    let body = body_after(alloc, motion, &object.body)?;
    let attrs = texts_after(alloc, motion, object.attrs.as_slice())?;
    Ok(Object { body, attrs })
}
