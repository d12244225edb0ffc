// The points of a shape, each coordinate put to another place.
ghost use Rattle.std.specs.Prelude.{◌≡◌};
ghost use Rattle.geda_geom.specs.Placing.{IsOnSheet};
ghost use Rattle.geda_model.specs.Shapes.{ShapeIsInRange};
ghost use Rattle.edit_move.specs.steps.Points.{with_first_x, with_first_y, with_second_x, with_second_y};

use geda_geom::Point;
use geda_model::Shape;

/// Puts the first end of a line, or a single point, across: the coordinate `x`.
fn put_first_x(shape: &mut Shape, point: Point)
    requires shape { ShapeIsInRange shape.old }
    requires point { IsOnSheet point }
    ensures same { shape.new ≡ with_first_x point shape.old }
    ensures range { ShapeIsInRange shape.new }
{
    match shape {
        Shape::Straight { x1, .. } => *x1 = point.x,
        Shape::Net { x1, .. } => *x1 = point.x,
        Shape::Bus { x1, .. } => *x1 = point.x,
        Shape::Pin { x1, .. } => *x1 = point.x,
        Shape::Picture { x, .. } => *x = point.x,
        Shape::Rect { x, .. } => *x = point.x,
        Shape::Circle { x, .. } => *x = point.x,
        Shape::Arc { x, .. } => *x = point.x,
        _ => {}
    }
}

/// Puts the first end of a line, or a single point, up: the coordinate `y`.
fn put_first_y(shape: &mut Shape, point: Point)
    requires shape { ShapeIsInRange shape.old }
    requires point { IsOnSheet point }
    ensures same { shape.new ≡ with_first_y point shape.old }
    ensures range { ShapeIsInRange shape.new }
{
    match shape {
        Shape::Straight { y1, .. } => *y1 = point.y,
        Shape::Net { y1, .. } => *y1 = point.y,
        Shape::Bus { y1, .. } => *y1 = point.y,
        Shape::Pin { y1, .. } => *y1 = point.y,
        Shape::Picture { y, .. } => *y = point.y,
        Shape::Rect { y, .. } => *y = point.y,
        Shape::Circle { y, .. } => *y = point.y,
        Shape::Arc { y, .. } => *y = point.y,
        _ => {}
    }
}

/// Puts the second end of a line across: the coordinate `x`.
fn put_second_x(shape: &mut Shape, point: Point)
    requires shape { ShapeIsInRange shape.old }
    requires point { IsOnSheet point }
    ensures same { shape.new ≡ with_second_x point shape.old }
    ensures range { ShapeIsInRange shape.new }
{
    match shape {
        Shape::Straight { x2, .. } => *x2 = point.x,
        Shape::Net { x2, .. } => *x2 = point.x,
        Shape::Bus { x2, .. } => *x2 = point.x,
        Shape::Pin { x2, .. } => *x2 = point.x,
        _ => {}
    }
}

/// Puts the second end of a line up: the coordinate `y`.
fn put_second_y(shape: &mut Shape, point: Point)
    requires shape { ShapeIsInRange shape.old }
    requires point { IsOnSheet point }
    ensures same { shape.new ≡ with_second_y point shape.old }
    ensures range { ShapeIsInRange shape.new }
{
    match shape {
        Shape::Straight { y2, .. } => *y2 = point.y,
        Shape::Net { y2, .. } => *y2 = point.y,
        Shape::Bus { y2, .. } => *y2 = point.y,
        Shape::Pin { y2, .. } => *y2 = point.y,
        _ => {}
    }
}

/// Puts the first end of a line, or the single point of a picture, a box, a circle or an arc.
pub(crate) fn put_first(shape: &mut Shape, point: Point)
    requires shape { ShapeIsInRange shape.old }
    requires point { IsOnSheet point }
    ensures same { shape.new ≡ with_first_y point (with_first_x point shape.old) }
    ensures range { ShapeIsInRange shape.new }
{
    put_first_x(shape, point);
    put_first_y(shape, point);
}

/// Puts the second end of a line.
pub(crate) fn put_second(shape: &mut Shape, point: Point)
    requires shape { ShapeIsInRange shape.old }
    requires point { IsOnSheet point }
    ensures same { shape.new ≡ with_second_y point (with_second_x point shape.old) }
    ensures range { ShapeIsInRange shape.new }
{
    put_second_x(shape, point);
    put_second_y(shape, point);
}
