// Shapes and parts under a motion.
ghost use Rattle.std.specs.Prelude.{◌≤◌, IfOk, length};
ghost use Rattle.geda_model.specs.Shapes.{ShapeIsInRange};
ghost use Rattle.edit_move.specs.Motions.{IsMotion};
ghost use Rattle.edit_move.specs.Objects.{part_after, parts_after, shape_after};
ghost use Rattle.edit_move.specs.steps.Walks.{Comes};

use crate::fault::MoveFault;
use crate::motion::{Motion, ends_after, point_after};
use crate::points::{put_first, put_second};
use crate::texts::{text_after, texts_after};
use geda_geom::Point;
use geda_model::{Part, Parts, Shape};
use std::alloc::Global;

/// A shape afterwards.
#[tactic(auto, unfolding(crate::specs::Objects::shape_after))]
pub(crate) fn shape_after(motion: Motion, shape: &Shape) -> Result<Shape, MoveFault>
    requires motion { IsMotion motion }
    requires shape { ShapeIsInRange shape.now }
    ensures comes { Comes result (shape_after motion shape.now) }
    ensures range { IfOk result ShapeIsInRange }
{
    match shape {
        Shape::Straight { x1, y1, x2, y2, .. }
        | Shape::Net { x1, y1, x2, y2, .. }
        | Shape::Bus { x1, y1, x2, y2, .. }
        | Shape::Pin { x1, y1, x2, y2, .. } => {
            let from = Point { x: *x1, y: *y1 };
            let to = Point { x: *x2, y: *y2 };
            let (from, to) = ends_after(motion, from, to)?;
            let mut after = shape.copy()?;
            put_first(&mut after, from);
            put_second(&mut after, to);
            Ok(after)
        }
        Shape::Picture { x, y, .. }
        | Shape::Rect { x, y, .. }
        | Shape::Circle { x, y, .. }
        | Shape::Arc { x, y, .. } => {
            let point = point_after(motion, Point { x: *x, y: *y })?;
            let mut after = shape.copy()?;
            put_first(&mut after, point);
            Ok(after)
        }
        Shape::Text(text) => Ok(Shape::Text(text_after(motion, text)?)),
        Shape::Path { .. } => Ok(shape.copy()?),
    }
}

/// A part afterwards.
#[tactic(auto, unfolding(crate::specs::Objects::part_after))]
fn part_after(alloc: Global, motion: Motion, part: &Part) -> Result<Part, MoveFault>
    requires motion { IsMotion motion }
    ensures comes { Comes result (part_after motion part.now) }
{
    let shape = shape_after(motion, &part.shape)?;
    let attrs = texts_after(alloc, motion, part.attrs.as_slice())?;
    Ok(Part { shape, attrs })
}

/// The parts afterwards.
#[tactic(auto, unfolding(crate::specs::Objects::parts_after))]
pub(crate) fn parts_after(alloc: Global, motion: Motion, parts: &[Part]) -> Result<Parts, MoveFault>
    requires motion { IsMotion motion }
    requires few { length parts.now ≤ 4294967295 }
    ensures comes { Comes result (parts_after motion parts.now) }
{
    let mut after = Parts::new(alloc);
    for part in parts {
        after.push(part_after(alloc, motion, part)?)?;
    }
    Ok(after)
}
