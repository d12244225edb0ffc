// What one line of a file says by itself.
ghost use Rattle.std.specs.Prelude.{◌≡◌, [], ◌∷◌, IfOk, MatchOption, length};
ghost use Rattle.geda_model.specs.Shapes.{ShapeIsInRange};
ghost use Rattle.geda_grammar.specs.Classes.{classes_of};
ghost use Rattle.geda_grammar.specs.steps.SheetLines.{drawn_line};
ghost use Rattle.geda_text.specs.Lines.{fields_of, other_fields};
ghost use Rattle.sheet_lines.specs.steps.Results.{Gives};
ghost use Rattle.sheet_lines.specs.SheetLines.{as_line, IsLineRead, LineIsInRange};
ghost use Rattle.sheet_lines.specs.steps.Letters.{kind_after_count, line_in, whole_line};

use crate::fault::LineFault;
use crate::fields::no_more;
use crate::letters::letter_line;
use crate::pending::Pending;
use geda_grammar::{Letter, ReadKind, Row};
use geda_model::Shape;
use geda_text::{Fields, fields};
use std::alloc::Global;

/// What a line says by itself.
#[derive(Drop)]
pub enum SheetLine {
    /// Nothing: it has no field.
    Blank,
    /// A whole row.
    Complete(Row),
    /// A shape that has lines to come.
    Begins(Pending),
}

impl SheetLine {
    /// A shape without lines to come. It takes no memory.
    pub(crate) fn drawn(shape: Shape) -> SheetLine
        requires { ShapeIsInRange shape }
        ensures line { as_line result ≡ drawn_line shape }
        ensures range { LineIsInRange result }
    {
        SheetLine::Complete(Row::Drawn(shape))
    }
}

/// How many fields stand behind a letter. It takes no memory.
fn field_count(letter: Letter) -> usize
    ensures { result ≡ length (classes_of letter) }
{
    match letter {
        Letter::Straight => 10,
        Letter::Picture => 7,
        Letter::Rect => 16,
        Letter::Circle => 15,
        Letter::Arc => 11,
        Letter::Text => 9,
        Letter::Net => 5,
        Letter::Bus => 6,
        Letter::Pin => 7,
        Letter::Path => 13,
        Letter::Component => 6,
        Letter::OpenBlock | Letter::CloseBlock | Letter::OpenSymbol | Letter::CloseSymbol => 0,
    }
}

/// The kind of a fault among the fields behind a letter: `FieldCount` where the line has more or
/// fewer of them than the letter takes, else the kind given. It takes no memory.
fn count_first(letter: Letter, line: &[u8], kind: ReadKind) -> ReadKind
    ensures { result ≡ kind_after_count letter (other_fields (fields_of line.now)) kind }
{
    if fields(line).skip(1).count() == field_count(letter) {
        kind
    } else {
        ReadKind::FieldCount
    }
}

/// What all the fields behind a letter say.
fn whole_line(alloc: Global, letter: Letter, rest: &mut Fields) -> Result<SheetLine, LineFault>
    ensures given { Gives as_line result (whole_line letter rest.old) }
    ensures range { IfOk result LineIsInRange }
{
    let line = letter_line(alloc, letter, rest)?;
    no_more(rest)?;
    Ok(line)
}

/// The first field of a line, and the fields behind it. `None` exactly where the line has no field.
/// It takes no memory.
///
/// Most lines begin with a letter and one space: these need no search for the field's end.
fn cut_first(line: &[u8]) -> Option<(&[u8], Fields<'_>)>
    ensures { MatchOption result (fields_of line.now ≡ [])
        (λ r. fields_of line.now ≡ r.0.now ∷ r.1) }
{
    if let [first, second, others @ ..] = line {
        if *first > b' ' && *second == b' ' {
            return Some((&line[..1], fields(others)));
        }
    }
    let mut rest = fields(line);
    let first = rest.next()?;
    Some((first, rest))
}

/// What a line says by itself, by its fields.
#[tactic(auto, unfolding(crate::specs::steps::Letters::line_in))]
fn line_in(alloc: Global, line: &[u8]) -> Result<SheetLine, LineFault>
    ensures given { Gives as_line result (line_in line.now) }
    ensures range { IfOk result LineIsInRange }
{
    let Some((first, mut rest)) = cut_first(line) else {
        return Ok(SheetLine::Blank);
    };
    let letter = Letter::from_field(first).ok_or(LineFault::Refused(ReadKind::UnknownLetter))?;
    match whole_line(alloc, letter, &mut rest) {
        Err(LineFault::Refused(kind)) => Err(LineFault::Refused(count_first(letter, line, kind))),
        said => said,
    }
}

/// What a line says by itself: nothing, a whole row, or a shape that has lines to come. What it
/// says is in its ranges.
///
/// `Refused` exactly where it says none of these, with the kind that holds first of:
/// `UnknownLetter`, where the first field is no letter and no bracket; `FieldCount`, where the
/// letter takes more or fewer fields; and the kind of the first wrong field from the left.
/// `NoMemory` where memory ran out. Rules: docs/RULES.md, "Grammar", "Faults".
#[tactic(auto, using(crate::proofs::LineLaws::line_read))]
pub fn sheet_line(alloc: Global, line: &[u8]) -> Result<SheetLine, LineFault>
    ensures read { IsLineRead line.now result }
    ensures range { IfOk result LineIsInRange }
{
    line_in(alloc, line)
}
