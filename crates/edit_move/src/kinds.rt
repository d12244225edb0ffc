// Which objects are moved and turned.
ghost use Rattle.std.specs.Prelude.{◌≡◌};
ghost use Rattle.std.specs.List.{list_all};
ghost use Rattle.edit_move.specs.Faults.{is_movable, is_movable_part, is_no_path, is_turnable, is_turnable_shape};

use geda_model::{Body, Part, Shape};

fn is_no_path(shape: &Shape) -> bool
    ensures { result ≡ is_no_path shape.now }
{
    !matches!(shape, Shape::Path { .. })
}

fn are_movable_parts(parts: &[Part]) -> bool
    ensures { result ≡ list_all is_movable_part parts.now }
{
    parts.iter().all(|part| is_no_path(&part.shape))
}

/// Whether an object can be moved: it is no path, and none is embedded in it.
pub(crate) fn is_movable(body: &Body) -> bool
    ensures { result ≡ is_movable body.now }
{
    match body {
        Body::Shape(shape) => is_no_path(shape),
        Body::Component(component) => match &component.embedded {
            Some(parts) => are_movable_parts(parts.as_slice()),
            None => true,
        },
    }
}

fn is_turnable_shape(shape: &Shape) -> bool
    ensures { result ≡ is_turnable_shape shape.now }
{
    matches!(
        shape,
        Shape::Straight { .. } | Shape::Net { .. } | Shape::Bus { .. } | Shape::Text(_)
    )
}

/// Whether an object can be turned: it is a line, a net, a bus, a text, or a component without an
/// embedded symbol.
pub(crate) fn is_turnable(body: &Body) -> bool
    ensures { result ≡ is_turnable body.now }
{
    match body {
        Body::Shape(shape) => is_turnable_shape(shape),
        Body::Component(component) => component.embedded.is_none(),
    }
}
