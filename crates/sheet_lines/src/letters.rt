// What one line of a file says by itself: one function for each letter.
ghost use Rattle.std.specs.Prelude.{◌≡◌, ◌++◌, IfOk};
ghost use Rattle.geda_model.specs.Shapes.{ShapeIsInRange};
ghost use Rattle.geda_grammar.specs.Rows.{fill_fields, stroke_fields};
ghost use Rattle.geda_grammar.specs.declared.letter.Letter.TheVariants as letters;
ghost use Rattle.geda_grammar.specs.steps.Reading as reading;
ghost use Rattle.geda_grammar.specs.steps.SheetLines.{drawn_line};
ghost use Rattle.sheet_lines.specs.Pending.{pending_of};
ghost use Rattle.sheet_lines.specs.steps.Results.{Gives};
ghost use Rattle.sheet_lines.specs.SheetLines.{as_line, LineIsInRange, RowIsInRange};
ghost use Rattle.sheet_lines.specs.steps.Letters.{line_at, numbers_at};

use crate::content::{Content, no_content};
use crate::fault::LineFault;
use crate::fields::{angle, basename, line_count, natural, number};
use crate::line::SheetLine;
use crate::path_line::PathLine;
use crate::pending::Pending;
use crate::picture_line::PictureLine;
use geda_grammar::{ComponentLine, Letter, Row};
use geda_model::{Fill, GREATEST_COORDINATE, GREATEST_NUMBER, Shape, Stroke, Text};
use geda_text::Fields;
use std::alloc::Global;

/// How a line is drawn. It takes no memory.
#[tactic(auto, unfolding(crate::specs::steps::Letters::numbers_at))]
fn stroke(rest: &mut Fields) -> Result<Stroke, LineFault>
    ensures { Gives (λ s. (stroke_fields s, rest.new)) result (numbers_at 5 rest.old) }
{
    let width = number(rest, GREATEST_NUMBER)?;
    let cap = number(rest, GREATEST_NUMBER)?;
    let dash = number(rest, GREATEST_NUMBER)?;
    let dash_length = number(rest, GREATEST_NUMBER)?;
    let dash_space = number(rest, GREATEST_NUMBER)?;
    Ok(Stroke {
        width,
        cap,
        dash,
        dash_length,
        dash_space,
    })
}

/// How a line is drawn, and how the area in it is filled. It takes no memory.
#[tactic(auto, unfolding(crate::specs::steps::Letters::numbers_at))]
fn stroke_and_fill(rest: &mut Fields) -> Result<(Stroke, Fill), LineFault>
    ensures { Gives (λ p. (stroke_fields p.0 ++ fill_fields p.1, rest.new)) result
        (numbers_at 11 rest.old) }
{
    let stroke = stroke(rest)?;
    let sort = number(rest, GREATEST_NUMBER)?;
    let width = number(rest, GREATEST_NUMBER)?;
    let angle1 = number(rest, GREATEST_NUMBER)?;
    let pitch1 = number(rest, GREATEST_NUMBER)?;
    let angle2 = number(rest, GREATEST_NUMBER)?;
    let pitch2 = number(rest, GREATEST_NUMBER)?;
    let fill = Fill {
        sort,
        width,
        angle1,
        pitch1,
        angle2,
        pitch2,
    };
    Ok((stroke, fill))
}

#[tactic(auto, unfolding(crate::specs::steps::Letters::line_at, crate::specs::steps::Letters::numbers_at))]
fn straight(rest: &mut Fields) -> Result<Shape, LineFault>
    ensures given { Gives (λ s. (drawn_line s, rest.new)) result
        (line_at letters.Straight rest.old) }
    ensures range { IfOk result ShapeIsInRange }
{
    let x1 = number(rest, GREATEST_COORDINATE)?;
    let y1 = number(rest, GREATEST_COORDINATE)?;
    let x2 = number(rest, GREATEST_COORDINATE)?;
    let y2 = number(rest, GREATEST_COORDINATE)?;
    let color = number(rest, GREATEST_NUMBER)?;
    let stroke = stroke(rest)?;
    Ok(Shape::Straight {
        x1,
        y1,
        x2,
        y2,
        color,
        stroke,
    })
}

#[tactic(auto, unfolding(crate::specs::steps::Letters::line_at, crate::specs::steps::Letters::numbers_at))]
fn rect(rest: &mut Fields) -> Result<Shape, LineFault>
    ensures given { Gives (λ s. (drawn_line s, rest.new)) result (line_at letters.Rect rest.old) }
    ensures range { IfOk result ShapeIsInRange }
{
    let x = number(rest, GREATEST_COORDINATE)?;
    let y = number(rest, GREATEST_COORDINATE)?;
    let width = number(rest, GREATEST_NUMBER)?;
    let height = number(rest, GREATEST_NUMBER)?;
    let color = number(rest, GREATEST_NUMBER)?;
    let (stroke, fill) = stroke_and_fill(rest)?;
    Ok(Shape::Rect {
        x,
        y,
        width,
        height,
        color,
        stroke,
        fill,
    })
}

#[tactic(auto, unfolding(crate::specs::steps::Letters::line_at, crate::specs::steps::Letters::numbers_at))]
fn circle(rest: &mut Fields) -> Result<Shape, LineFault>
    ensures given { Gives (λ s. (drawn_line s, rest.new)) result
        (line_at letters.Circle rest.old) }
    ensures range { IfOk result ShapeIsInRange }
{
    let x = number(rest, GREATEST_COORDINATE)?;
    let y = number(rest, GREATEST_COORDINATE)?;
    let radius = number(rest, GREATEST_NUMBER)?;
    let color = number(rest, GREATEST_NUMBER)?;
    let (stroke, fill) = stroke_and_fill(rest)?;
    Ok(Shape::Circle {
        x,
        y,
        radius,
        color,
        stroke,
        fill,
    })
}

#[tactic(auto, unfolding(crate::specs::steps::Letters::line_at, crate::specs::steps::Letters::numbers_at))]
fn arc(rest: &mut Fields) -> Result<Shape, LineFault>
    ensures given { Gives (λ s. (drawn_line s, rest.new)) result (line_at letters.Arc rest.old) }
    ensures range { IfOk result ShapeIsInRange }
{
    let x = number(rest, GREATEST_COORDINATE)?;
    let y = number(rest, GREATEST_COORDINATE)?;
    let radius = number(rest, GREATEST_NUMBER)?;
    let start = number(rest, GREATEST_NUMBER)?;
    let sweep = number(rest, GREATEST_NUMBER)?;
    let color = number(rest, GREATEST_NUMBER)?;
    let stroke = stroke(rest)?;
    Ok(Shape::Arc {
        x,
        y,
        radius,
        start,
        sweep,
        color,
        stroke,
    })
}

#[tactic(auto, unfolding(crate::specs::steps::Letters::line_at))]
fn net(rest: &mut Fields) -> Result<Shape, LineFault>
    ensures given { Gives (λ s. (drawn_line s, rest.new)) result (line_at letters.Net rest.old) }
    ensures range { IfOk result ShapeIsInRange }
{
    let x1 = number(rest, GREATEST_COORDINATE)?;
    let y1 = number(rest, GREATEST_COORDINATE)?;
    let x2 = number(rest, GREATEST_COORDINATE)?;
    let y2 = number(rest, GREATEST_COORDINATE)?;
    let color = number(rest, GREATEST_NUMBER)?;
    Ok(Shape::Net {
        x1,
        y1,
        x2,
        y2,
        color,
    })
}

#[tactic(auto, unfolding(crate::specs::steps::Letters::line_at))]
fn bus(rest: &mut Fields) -> Result<Shape, LineFault>
    ensures given { Gives (λ s. (drawn_line s, rest.new)) result (line_at letters.Bus rest.old) }
    ensures range { IfOk result ShapeIsInRange }
{
    let x1 = number(rest, GREATEST_COORDINATE)?;
    let y1 = number(rest, GREATEST_COORDINATE)?;
    let x2 = number(rest, GREATEST_COORDINATE)?;
    let y2 = number(rest, GREATEST_COORDINATE)?;
    let color = number(rest, GREATEST_NUMBER)?;
    let ripper = number(rest, 1)?;
    Ok(Shape::Bus {
        x1,
        y1,
        x2,
        y2,
        color,
        ripper: ripper as i8,
    })
}

#[tactic(auto, unfolding(crate::specs::steps::Letters::line_at))]
fn pin(rest: &mut Fields) -> Result<Shape, LineFault>
    ensures given { Gives (λ s. (drawn_line s, rest.new)) result (line_at letters.Pin rest.old) }
    ensures range { IfOk result ShapeIsInRange }
{
    let x1 = number(rest, GREATEST_COORDINATE)?;
    let y1 = number(rest, GREATEST_COORDINATE)?;
    let x2 = number(rest, GREATEST_COORDINATE)?;
    let y2 = number(rest, GREATEST_COORDINATE)?;
    let color = number(rest, GREATEST_NUMBER)?;
    let bus = natural(rest, 1)?;
    let whichend = natural(rest, 1)?;
    Ok(Shape::Pin {
        x1,
        y1,
        x2,
        y2,
        color,
        bus: bus == 1,
        whichend: whichend as u8,
    })
}

#[tactic(auto, unfolding(crate::specs::steps::Letters::line_at))]
fn picture(rest: &mut Fields) -> Result<Pending, LineFault>
    ensures { Gives (λ p. (reading.Begins (pending_of p), rest.new)) result
        (line_at letters.Picture rest.old) }
{
    let x = number(rest, GREATEST_COORDINATE)?;
    let y = number(rest, GREATEST_COORDINATE)?;
    let width = number(rest, GREATEST_NUMBER)?;
    let height = number(rest, GREATEST_NUMBER)?;
    let angle = angle(rest)?;
    let mirrored = natural(rest, 1)?;
    let embedded = natural(rest, 1)?;
    let picture = PictureLine {
        x,
        y,
        width,
        height,
        angle,
        mirrored: mirrored == 1,
    };
    Ok(Pending::PictureName(picture, embedded == 1))
}

#[tactic(auto, unfolding(crate::specs::steps::Letters::line_at))]
fn text(alloc: Global, rest: &mut Fields) -> Result<Pending, LineFault>
    ensures { Gives (λ p. (reading.Begins (pending_of p), rest.new)) result
        (line_at letters.Text rest.old) }
{
    let x = number(rest, GREATEST_COORDINATE)?;
    let y = number(rest, GREATEST_COORDINATE)?;
    let color = number(rest, GREATEST_NUMBER)?;
    let size = number(rest, GREATEST_NUMBER)?;
    let visible = natural(rest, 1)?;
    let show = natural(rest, 2)?;
    let angle = angle(rest)?;
    let align = natural(rest, 8)?;
    let lines = line_count(rest)?;
    let text = Text {
        x,
        y,
        color,
        size,
        visible: visible as u8,
        show: show as u8,
        angle,
        align: align as u8,
        content: no_content(alloc),
    };
    Ok(Pending::Text(text, Content::new(alloc, lines)))
}

#[tactic(auto, unfolding(crate::specs::steps::Letters::line_at, crate::specs::steps::Letters::numbers_at))]
fn path(alloc: Global, rest: &mut Fields) -> Result<Pending, LineFault>
    ensures { Gives (λ p. (reading.Begins (pending_of p), rest.new)) result
        (line_at letters.Path rest.old) }
{
    let color = number(rest, GREATEST_NUMBER)?;
    let (stroke, fill) = stroke_and_fill(rest)?;
    let lines = line_count(rest)?;
    let path = PathLine {
        color,
        stroke,
        fill,
    };
    Ok(Pending::Path(path, Content::new(alloc, lines)))
}

#[tactic(auto, unfolding(crate::specs::steps::Letters::line_at))]
fn component(alloc: Global, rest: &mut Fields) -> Result<Row, LineFault>
    ensures given { Gives (λ r. (reading.Complete r, rest.new)) result
        (line_at letters.Component rest.old) }
    ensures range { IfOk result RowIsInRange }
{
    let x = number(rest, GREATEST_COORDINATE)?;
    let y = number(rest, GREATEST_COORDINATE)?;
    let selectable = natural(rest, 1)?;
    let angle = angle(rest)?;
    let mirror = natural(rest, 1)?;
    let (embedded, basename) = basename(alloc, rest)?;
    let line = ComponentLine {
        x,
        y,
        selectable: selectable == 1,
        angle,
        mirror: mirror == 1,
        basename,
    };
    if embedded {
        return Ok(Row::Embedding(line));
    }
    Ok(Row::Library(line))
}

/// What the fields behind a letter say.
///
/// `FieldCount` where one is missing, else the kind of the first wrong field from the left.
#[tactic(auto, unfolding(crate::specs::steps::Letters::line_at))]
pub fn letter_line(alloc: Global, letter: Letter, rest: &mut Fields) -> Result<SheetLine, LineFault>
    ensures given { Gives (λ l. (as_line l, rest.new)) result (line_at letter rest.old) }
    ensures range { IfOk result LineIsInRange }
{
    match letter {
        Letter::Straight => Ok(SheetLine::drawn(straight(rest)?)),
        Letter::Picture => Ok(SheetLine::Begins(picture(rest)?)),
        Letter::Rect => Ok(SheetLine::drawn(rect(rest)?)),
        Letter::Circle => Ok(SheetLine::drawn(circle(rest)?)),
        Letter::Arc => Ok(SheetLine::drawn(arc(rest)?)),
        Letter::Text => Ok(SheetLine::Begins(text(alloc, rest)?)),
        Letter::Net => Ok(SheetLine::drawn(net(rest)?)),
        Letter::Bus => Ok(SheetLine::drawn(bus(rest)?)),
        Letter::Pin => Ok(SheetLine::drawn(pin(rest)?)),
        Letter::Path => Ok(SheetLine::Begins(path(alloc, rest)?)),
        Letter::Component => Ok(SheetLine::Complete(component(alloc, rest)?)),
        Letter::OpenBlock => Ok(SheetLine::Complete(Row::OpenBlock)),
        Letter::CloseBlock => Ok(SheetLine::Complete(Row::CloseBlock)),
        Letter::OpenSymbol => Ok(SheetLine::Complete(Row::OpenSymbol)),
        Letter::CloseSymbol => Ok(SheetLine::Complete(Row::CloseSymbol)),
    }
}
