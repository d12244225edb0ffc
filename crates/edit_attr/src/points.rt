// The first points of objects.
ghost use Rattle.std.specs.Prelude.{◌≡◌};
ghost use Rattle.geda_geom.specs.Placing.{IsOnSheet};
ghost use Rattle.geda_model.specs.Shapes.{ShapeIsInRange};
ghost use Rattle.edit_attr.specs.FirstPoints.{first_of_shape, first_point};

use geda_geom::Point;
use geda_model::{Body, Object, Shape};

fn first_of_shape(shape: &Shape) -> Point
    requires shape { ShapeIsInRange shape.now }
    ensures point { result ≡ first_of_shape shape.now }
    ensures on_sheet { IsOnSheet result }
{
    match shape {
        Shape::Straight { x1: x, y1: y, .. }
        | Shape::Picture { x, y, .. }
        | Shape::Rect { x, y, .. }
        | Shape::Circle { x, y, .. }
        | Shape::Arc { x, y, .. }
        | Shape::Net { x1: x, y1: y, .. }
        | Shape::Bus { x1: x, y1: y, .. }
        | Shape::Pin { x1: x, y1: y, .. } => Point { x: *x, y: *y },
        Shape::Text(text) => Point {
            x: text.x,
            y: text.y,
        },
        Shape::Path { .. } => Point { x: 0, y: 0 },
    }
}

/// The first point of an object (docs/RULES.md, "Setting attributes"): the first end of a line, the
/// corner of a box, the centre of a circle or an arc, where a text, a picture or a component
/// stands, and (0, 0) of a path. It takes no memory.
#[tactic(auto, unfolding(crate::specs::FirstPoints::first_point))]
pub fn first_point(object: &Object) -> Point
    ensures point { result ≡ first_point object.now.body }
    ensures on_sheet { IsOnSheet result }
{
    match &object.body {
        Body::Shape(shape) => first_of_shape(shape),
        Body::Component(component) => Point {
            x: component.x,
            y: component.y,
        },
    }
}
