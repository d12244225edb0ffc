// A shape that has lines to come, and what each of these lines adds.
ghost use Rattle.std.specs.Prelude.{◌≡◌, IfOk};
ghost use Rattle.geda_grammar.specs.steps.Following.{add};
ghost use Rattle.geda_text.specs.Lines.{IsCutLine};
ghost use Rattle.sheet_lines.specs.declared.pending.Pending.TheVariants as pendings;
ghost use Rattle.sheet_lines.specs.Pending.{pending_of, IsAdded, ProgressIsInRange};
ghost use Rattle.sheet_lines.specs.steps.Adding.{Adds};

use crate::content::Content;
use crate::fault::LineFault;
use crate::path_line::PathLine;
use crate::picture_data::PictureData;
use crate::picture_line::PictureLine;
use geda_grammar::ReadKind;
use geda_model::{Line, Shape, Text};
use geda_text::text_of;
use std::alloc::Global;

/// A shape that has lines to come.
#[derive(Drop)]
pub enum Pending {
    /// A text without its content, and the content so far.
    Text(Text, Content),
    /// A path without its content, and the content so far.
    Path(PathLine, Content),
    /// A picture whose name comes next, and whether data follow.
    PictureName(PictureLine, bool),
    /// An embedded picture with its name, and its data so far.
    PictureLines(PictureLine, Line, PictureData),
}

/// A shape with the lines that are still to come, or the whole shape.
#[derive(Drop)]
pub enum Progress {
    /// Other lines are to come.
    Still(Pending),
    /// The line was the last one: this is the shape.
    Whole(Shape),
}

fn with_text_line(
    alloc: Global,
    text: Text,
    content: Content,
    line: &str,
) -> Result<Progress, LineFault>
    requires { IsCutLine line.now }
    ensures added { Adds (add (pending_of (pendings.Text text content)) line.now) result }
    ensures range { IfOk result ProgressIsInRange }
{
    if content.is_at_last() {
        let Text {
            x,
            y,
            color,
            size,
            visible,
            show,
            angle,
            align,
            ..
        } = text;
        let content = content.whole(alloc, line)?;
        return Ok(Progress::Whole(Shape::Text(Text {
            x,
            y,
            color,
            size,
            visible,
            show,
            angle,
            align,
            content,
        })));
    }
    Ok(Progress::Still(Pending::Text(text, content.with(line)?)))
}

fn with_path_line(
    alloc: Global,
    path: PathLine,
    content: Content,
    line: &str,
) -> Result<Progress, LineFault>
    requires { IsCutLine line.now }
    ensures added { Adds (add (pending_of (pendings.Path path content)) line.now) result }
    ensures range { IfOk result ProgressIsInRange }
{
    if content.is_at_last() {
        return Ok(Progress::Whole(path.shape(content.whole(alloc, line)?)));
    }
    Ok(Progress::Still(Pending::Path(path, content.with(line)?)))
}

#[tactic(auto, using(crate::proofs::Following::is_line))]
fn with_picture_name(
    alloc: Global,
    picture: PictureLine,
    embedded: bool,
    line: &str,
) -> Result<Progress, LineFault>
    requires { IsCutLine line.now }
    ensures added { Adds (add (pending_of (pendings.PictureName picture embedded)) line.now)
        result }
    ensures range { IfOk result ProgressIsInRange }
{
    let file = Line::new(alloc, line)?;
    if embedded {
        let data = PictureData::new(alloc);
        return Ok(Progress::Still(Pending::PictureLines(picture, file, data)));
    }
    Ok(Progress::Whole(picture.shape(file, None)))
}

fn with_picture_line(
    picture: PictureLine,
    file: Line,
    lines: PictureData,
    line: &str,
) -> Result<Progress, LineFault>
    requires { IsCutLine line.now }
    ensures added { Adds (add (pending_of (pendings.PictureLines picture file lines)) line.now)
        result }
    ensures range { IfOk result ProgressIsInRange }
{
    if line == "." {
        return Ok(Progress::Whole(picture.shape(file, Some(lines.block()))));
    }
    let lines = lines.with(line)?;
    Ok(Progress::Still(Pending::PictureLines(picture, file, lines)))
}

impl Pending {
    /// The shape with one more line: with others to come, or whole.
    ///
    /// `Refused(NotUtf8)` exactly where the line is not UTF-8, and with no other kind. `NoMemory`
    /// where memory ran out. A whole shape is in its ranges. Rule: docs/RULES.md, "Grammar".
    #[tactic(auto, using(crate::proofs::Following::added, crate::proofs::Following::not_added))]
    pub fn with(self, alloc: Global, line: &[u8]) -> Result<Progress, LineFault>
        requires { IsCutLine line.now }
        ensures added { IsAdded (pending_of self) line.now result }
        ensures range { IfOk result ProgressIsInRange }
    {
        let line = text_of(line).ok_or(LineFault::Refused(ReadKind::NotUtf8))?;
        match self {
            Pending::Text(text, content) => with_text_line(alloc, text, content, line),
            Pending::Path(path, content) => with_path_line(alloc, path, content, line),
            Pending::PictureName(picture, embedded) => {
                with_picture_name(alloc, picture, embedded, line)
            }
            Pending::PictureLines(picture, file, lines) => {
                with_picture_line(picture, file, lines, line)
            }
        }
    }
}
