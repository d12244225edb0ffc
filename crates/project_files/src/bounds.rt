// What the canonical texts have at most, without counting each of their numbers.
ghost use Rattle.std.specs.Prelude.{◌≡◌, ◌≤◌, ◌-◌, ◌^◌, min};
ghost use Rattle.project_files.specs.Opening.{object_bytes};
ghost use Rattle.project_files.specs.steps.Bounds.{attached_most, body_most, shape_most, text_most};

use geda_model::{Body, Object, Shape, Text};
use geda_write::object_size;

// Bytes of the longest lines: of a wire, of a text before its content, and of a component. A number
// has at most eight bytes, and a space before it.
const WIRE: u64 = 50;

const TEXT: u64 = 90;

const COMPONENT: u64 = 250;
// The bytes of the two lines round attached texts.
const BRACKETS: u64 = 4;

fn text_bound(text: &Text) -> u64
    ensures { result ≡ min (text_most text.now) (2 ^ 64 - 1) }
{
    (text.content.as_str().len() as u64).saturating_add(TEXT)
}

fn attached_bound(texts: &[Text]) -> u64
    ensures { result ≡ min (attached_most texts.now) (2 ^ 64 - 1) }
{
    let mut bytes = BRACKETS;
    for text in texts {
        bytes = bytes.saturating_add(text_bound(text));
    }
    bytes
}

fn shape_bound(shape: &Shape) -> Option<u64>
    ensures { result ≡ shape_most shape.now }
{
    match shape {
        Shape::Net { .. } => Some(WIRE),
        Shape::Text(text) => Some(text_bound(text)),
        _ => None,
    }
}

fn body_bound(body: &Body) -> Option<u64>
    ensures { result ≡ body_most body.now }
{
    match body {
        Body::Shape(shape) => shape_bound(shape),
        Body::Component(component) => match component.embedded {
            None => Some(COMPONENT),
            Some(_) => None,
        },
    }
}

/// At least the bytes of an object's canonical text, and 18,446,744,073,709,551,615 where they are
/// more. It takes no memory.
///
/// For a wire, a text and a component of a library, and what is attached to them, it is told by the
/// bytes of contents alone; all else is counted.
pub fn object_bound(object: &Object) -> u64
    ensures { min (object_bytes object.now) (2 ^ 64 - 1) ≤ result }
{
    match body_bound(&object.body) {
        Some(bytes) => bytes.saturating_add(attached_bound(object.attrs.as_slice())),
        None => object_size(object),
    }
}
