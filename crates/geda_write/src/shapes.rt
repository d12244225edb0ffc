// Shapes: each by its letter, the columns of its line, and the lines that follow it.
ghost use Rattle.std.specs.Prelude.{◌≡◌, ◌∷◌, ◌++◌, ◌+◌, ◌<◌, [], pos};
ghost use Rattle.geda_defs.specs.Lines.{ended};
ghost use Rattle.geda_grammar.specs.declared.row.Row.TheVariants.{Drawn};
ghost use Rattle.geda_model.specs.Limits.{most_lines};
ghost use Rattle.geda_model.specs.Ranges.{line_feeds};
ghost use Rattle.geda_model.specs.Shapes.{IsEmbeddedData, ShapeIsInRange};
ghost use Rattle.geda_write.specs.steps.Columns.{color_fields, columns_text, extent_fields, following_text, own_fields, place_fields, style_fields, text_fields};
ghost use Rattle.geda_write.specs.steps.Output.{Adds};
ghost use Rattle.geda_write.specs.steps.Texts.{data_text, fields_text, row_text, text_text};

use crate::fields::{put_fill, put_numbers, put_stroke};
use crate::letter::letter_of_shape;
use crate::output::Output;
use geda_model::{Block, Shape, Text, line_feeds};

#[tactic(auto, using(crate::proofs::Outputs::more_more))]
pub(crate) fn put_line<O: Output>(out: &mut O, line: &str) -> Result<(), O::Fault>
    ensures { Adds result (O.got out.old) (O.got out.new) (ended line.now) }
{
    out.piece(line.as_bytes())?;
    out.piece(b"\n")
}

fn line_count(content: &str) -> i32
    requires { line_feeds content.now < most_lines }
    ensures { result ≡ pos (line_feeds content.now + 1) }
{
    line_feeds(content) as i32 + 1
}

fn put_text_numbers<O: Output>(out: &mut O, text: &Text) -> Result<(), O::Fault>
    ensures { Adds result (O.got out.old) (O.got out.new) (fields_text (text_fields text.now)) }
{
    put_numbers(
        out,
        &[
            text.x,
            text.y,
            text.color,
            text.size,
            i32::from(text.visible),
            i32::from(text.show),
            i32::from(text.angle),
            i32::from(text.align),
            line_count(text.content.as_str()),
        ],
    )
}

pub(crate) fn put_text<O: Output>(out: &mut O, text: &Text) -> Result<(), O::Fault>
    ensures { Adds result (O.got out.old) (O.got out.new) (text_text text.now) }
{
    out.piece(b"T")?;
    put_text_numbers(out, text)?;
    out.piece(b"\n")?;
    put_line(out, text.content.as_str())
}

// The point at which it stands, or its two ends; all numbers of a net and of a text.
#[tactic(auto, using(crate::proofs::Outputs::more_nothing))]
fn put_place<O: Output>(out: &mut O, shape: &Shape) -> Result<(), O::Fault>
    ensures { Adds result (O.got out.old) (O.got out.new) (fields_text (place_fields shape.now)) }
{
    match shape {
        Shape::Net {
            x1,
            y1,
            x2,
            y2,
            color,
        } => put_numbers(out, &[*x1, *y1, *x2, *y2, *color]),
        Shape::Straight { x1, y1, x2, y2, .. }
        | Shape::Bus { x1, y1, x2, y2, .. }
        | Shape::Pin { x1, y1, x2, y2, .. } => put_numbers(out, &[*x1, *y1, *x2, *y2]),
        Shape::Picture { x, y, .. }
        | Shape::Rect { x, y, .. }
        | Shape::Circle { x, y, .. }
        | Shape::Arc { x, y, .. } => put_numbers(out, &[*x, *y]),
        Shape::Text(text) => put_text_numbers(out, text),
        Shape::Path { .. } => Ok(()),
    }
}

// How far it reaches from there.
#[tactic(auto, using(crate::proofs::Outputs::more_nothing))]
fn put_extent<O: Output>(out: &mut O, shape: &Shape) -> Result<(), O::Fault>
    ensures { Adds result (O.got out.old) (O.got out.new) (fields_text (extent_fields shape.now)) }
{
    match shape {
        Shape::Picture { width, height, .. } | Shape::Rect { width, height, .. } => {
            put_numbers(out, &[*width, *height])
        }
        Shape::Circle { radius, .. } => put_numbers(out, &[*radius]),
        Shape::Arc {
            radius,
            start,
            sweep,
            ..
        } => put_numbers(out, &[*radius, *start, *sweep]),
        Shape::Straight { .. }
        | Shape::Text(_)
        | Shape::Net { .. }
        | Shape::Bus { .. }
        | Shape::Pin { .. }
        | Shape::Path { .. } => Ok(()),
    }
}

#[tactic(auto, using(crate::proofs::Outputs::more_nothing))]
fn put_color<O: Output>(out: &mut O, shape: &Shape) -> Result<(), O::Fault>
    ensures { Adds result (O.got out.old) (O.got out.new) (fields_text (color_fields shape.now)) }
{
    match shape {
        Shape::Straight { color, .. }
        | Shape::Rect { color, .. }
        | Shape::Circle { color, .. }
        | Shape::Arc { color, .. }
        | Shape::Bus { color, .. }
        | Shape::Pin { color, .. }
        | Shape::Path { color, .. } => put_numbers(out, &[*color]),
        Shape::Picture { .. } | Shape::Text(_) | Shape::Net { .. } => Ok(()),
    }
}

// How its line is drawn, and how its area is filled.
#[tactic(auto, using(crate::proofs::Outputs::more_nothing))]
fn put_style<O: Output>(out: &mut O, shape: &Shape) -> Result<(), O::Fault>
    ensures { Adds result (O.got out.old) (O.got out.new) (fields_text (style_fields shape.now)) }
{
    match shape {
        Shape::Straight { stroke, .. } | Shape::Arc { stroke, .. } => put_stroke(out, stroke),
        Shape::Rect { stroke, fill, .. }
        | Shape::Circle { stroke, fill, .. }
        | Shape::Path { stroke, fill, .. } => {
            put_stroke(out, stroke)?;
            put_fill(out, fill)
        }
        Shape::Picture { .. }
        | Shape::Text(_)
        | Shape::Net { .. }
        | Shape::Bus { .. }
        | Shape::Pin { .. } => Ok(()),
    }
}

// The columns that no other shape has.
#[tactic(auto, using(crate::proofs::Outputs::more_nothing))]
fn put_own<O: Output>(out: &mut O, shape: &Shape) -> Result<(), O::Fault>
    requires { ShapeIsInRange shape.now }
    ensures { Adds result (O.got out.old) (O.got out.new) (fields_text (own_fields shape.now)) }
{
    match shape {
        Shape::Picture {
            angle,
            mirrored,
            embedded,
            ..
        } => {
            let has_data = embedded.is_some();
            let flags = [i32::from(*angle), i32::from(*mirrored), i32::from(has_data)];
            put_numbers(out, &flags)
        }
        Shape::Bus { ripper, .. } => put_numbers(out, &[i32::from(*ripper)]),
        Shape::Pin { bus, whichend, .. } => {
            put_numbers(out, &[i32::from(*bus), i32::from(*whichend)])
        }
        Shape::Path { content, .. } => put_numbers(out, &[line_count(content.as_str())]),
        Shape::Straight { .. }
        | Shape::Rect { .. }
        | Shape::Circle { .. }
        | Shape::Arc { .. }
        | Shape::Text(_)
        | Shape::Net { .. } => Ok(()),
    }
}

// The columns behind those of its place.
#[tactic(auto, using(crate::proofs::Outputs::more_nothing))]
fn put_columns<O: Output>(out: &mut O, shape: &Shape) -> Result<(), O::Fault>
    requires { ShapeIsInRange shape.now }
    ensures { Adds result (O.got out.old) (O.got out.new) (columns_text shape.now) }
{
    match shape {
        Shape::Net { .. } | Shape::Text(_) => Ok(()),
        _ => {
            put_extent(out, shape)?;
            put_color(out, shape)?;
            put_style(out, shape)?;
            put_own(out, shape)
        }
    }
}

fn put_data<O: Output>(out: &mut O, picture: &Option<Block>) -> Result<(), O::Fault>
    requires { IsEmbeddedData picture.now }
    ensures { Adds result (O.got out.old) (O.got out.new) (data_text picture.now) }
{
    match picture {
        None => Ok(()),
        Some(lines) => {
            out.piece(lines.as_str().as_bytes())?;
            put_line(out, ".")
        }
    }
}

// The lines that follow its line.
#[tactic(auto, using(crate::proofs::Outputs::more_nothing, crate::proofs::Outputs::more_more))]
fn put_following<O: Output>(out: &mut O, shape: &Shape) -> Result<(), O::Fault>
    requires { ShapeIsInRange shape.now }
    ensures { Adds result (O.got out.old) (O.got out.new) (following_text shape.now) }
{
    match shape {
        Shape::Text(text) => put_line(out, text.content.as_str()),
        Shape::Path { content, .. } => put_line(out, content.as_str()),
        Shape::Picture { file, embedded, .. } => {
            put_line(out, file.as_str())?;
            put_data(out, embedded)
        }
        Shape::Straight { .. }
        | Shape::Rect { .. }
        | Shape::Circle { .. }
        | Shape::Arc { .. }
        | Shape::Net { .. }
        | Shape::Bus { .. }
        | Shape::Pin { .. } => Ok(()),
    }
}

pub(crate) fn put_shape<O: Output>(out: &mut O, shape: &Shape) -> Result<(), O::Fault>
    requires { ShapeIsInRange shape.now }
    ensures { Adds result (O.got out.old) (O.got out.new) (row_text (Drawn shape.now)) }
{
    out.piece(&[letter_of_shape(shape)])?;
    put_place(out, shape)?;
    put_columns(out, shape)?;
    out.piece(b"\n")?;
    put_following(out, shape)
}
