// Texts of a sheet, free or attached.
ghost use Rattle.std.specs.Prelude.{◌≡◌, ◌↔◌, ◌<◌, IsTrue, count_by, ◌==◌};
ghost use Rattle.geda_model.specs.Ranges.{IsContent, has_cr_end, is_after_line, line_feeds};

use crate::limits::MOST_LINES;
use crate::short_text::ShortText;
use std::alloc::{AllocError, Global};
use std::marker::Model;

/// Any UTF-8 text.
#[derive(Debug, Drop)]
pub struct Block {
    text: ShortText,
}

impl Model for Block {
    ghost use Rattle.std.specs.Prelude.{List, ℕ};

    ghost Value = { List ℕ };

    ghost view = { λ b. b.text };
}

impl Block {
    ghost use Rattle.std.specs.Prelude.{◌≡◌, IfOk};
    ghost use Rattle.std.specs.String.{string_bytes};

    /// A copy of the text.
    pub fn new(alloc: Global, text: &str) -> Result<Block, AllocError>
        ensures { IfOk result (λ b. b ≡ text.now) }
    {
        let text = ShortText::new(alloc, text)?;
        Ok(Block { text })
    }

    /// The text itself. It takes no memory.
    pub fn from_string(text: String) -> Block
        ensures { result ≡ string_bytes text }
    {
        Block {
            text: ShortText::from_string(text),
        }
    }

    /// The text. It takes no memory.
    pub fn as_str(&self) -> &str
        ensures { result.now ≡ self.now }
    {
        self.text.as_str()
    }
}

impl Clone for Block {
    ghost use Rattle.std.specs.Prelude.{◌≡◌};

    ghost is_clone = { λ x y. y ≡ x };

    fn clone(&self) -> Result<Block, AllocError> {
        let text = self.text.clone()?;
        Ok(Block { text })
    }
}

fn is_after_line(rest: &[u8]) -> bool
    ensures { result ≡ is_after_line rest.now }
{
    matches!(rest, [] | [b'\n', ..])
}

fn has_cr_end(text: &[u8]) -> bool
    ensures { result ≡ has_cr_end text.now }
{
    let mut rest = text;
    while let [first, after @ ..] = rest {
        if *first == b'\r' && is_after_line(after) {
            return true;
        }
        rest = after;
    }
    false
}

/// How many LFs a text has: one fewer than lines. It takes no memory.
pub fn line_feeds(text: &str) -> usize
    ensures { result ≡ line_feeds text.now }
{
    text.as_bytes()
        .iter()
        .filter(|byte| **byte == b'\n')
        .count()
}

/// Whether a text can be the content of a `Text` or a path: it has 1 to 10,000 lines, and none of
/// them ends in CR. It takes no memory.
pub fn is_content(text: &str) -> bool
    ensures { IsTrue result ↔ IsContent text.now }
{
    if line_feeds(text) >= MOST_LINES {
        return false;
    }
    if has_cr_end(text.as_bytes()) {
        return false;
    }
    true
}

/// A text on a sheet or in a symbol, or one that is attached to an object.
#[derive(Debug, Drop)]
pub struct Text {
    /// Across, in mils, -200,000 to 200,000.
    pub x: i32,
    /// Up, in mils, -200,000 to 200,000.
    pub y: i32,
    /// The index of a colour, -1,000,000 to 1,000,000.
    pub color: i32,
    /// In points, -1,000,000 to 1,000,000.
    pub size: i32,
    /// 1 where the text is shown, else 0.
    pub visible: u8,
    /// What of an attribute is shown: 0 both, 1 the value, 2 the name.
    pub show: u8,
    /// In degrees: 0, 90, 180 or 270.
    pub angle: u16,
    /// Where the text stands round its point, 0 to 8.
    pub align: u8,
    /// 1 to 10,000 lines, parted by LF, of which none ends in CR.
    pub content: Block,
}

impl Model for Text {
    ghost use Rattle.geda_model.specs.Data.{TextData};
    ghost use Rattle.geda_model.specs.Ranges.{IsText};

    ghost Value = { TextData };

    ghost view = { λ t. record { x = t.x; y = t.y; color = t.color; size = t.size; visible = t.visible; show = t.show; angle = t.angle; align = t.align; content = t.content } };

    ghost invariant = { λ t. IsText (record { x = t.x; y = t.y; color = t.color; size = t.size; visible = t.visible; show = t.show; angle = t.angle; align = t.align; content = t.content }) };
}

impl Clone for Text {
    ghost use Rattle.std.specs.Prelude.{◌≡◌};

    ghost is_clone = { λ x y. y ≡ x };

    fn clone(&self) -> Result<Text, AllocError> {
        Ok(Text {
            x: self.x,
            y: self.y,
            color: self.color,
            size: self.size,
            visible: self.visible,
            show: self.show,
            angle: self.angle,
            align: self.align,
            content: self.content.clone()?,
        })
    }
}

/// So many texts find room when a list gets its first one: those of most objects.
const FIRST_ROOM: usize = 2;

fn make_first_room(list: &mut Vec<Text>) -> Result<(), AllocError>
    ensures { list.new.items ≡ list.old.items }
{
    if list.is_empty() {
        return list.reserve_exact(FIRST_ROOM);
    }
    Ok(())
}

/// Texts in order, each in its ranges.
#[derive(Debug, Drop)]
pub struct Texts {
    list: Vec<Text>,
}

impl Model for Texts {
    ghost use Rattle.std.specs.Prelude.{All, List};
    ghost use Rattle.geda_model.specs.Data.{TextData};
    ghost use Rattle.geda_model.specs.Ranges.{IsText};

    ghost Value = { List TextData };

    ghost view = { λ t. t.list.items };

    ghost invariant = { λ t. All IsText t.list.items };
}

impl Texts {
    ghost use Rattle.std.specs.Prelude.{◌≡◌, ◌++◌, ◌∷◌, [], All, OnErr, OnOk};
    ghost use Rattle.geda_model.specs.Ranges.{IsText};

    /// No text. It takes no memory.
    pub fn new(alloc: Global) -> Texts
        ensures { result ≡ [] }
    {
        Texts {
            list: Vec::new(alloc),
        }
    }

    /// Puts a text behind the others. On want of memory they stay as they are.
    pub fn push(&mut self, text: Text) -> Result<(), AllocError>
        ensures ok { OnOk result (self.new ≡ self.old ++ text ∷ []) }
        ensures err { OnErr result (self.new ≡ self.old) }
    {
        make_first_room(&mut self.list)?;
        self.list.push(text)?;
        Ok(())
    }

    /// The texts, in order. It takes no memory.
    pub fn as_slice(&self) -> &[Text]
        ensures texts { result.now ≡ self.now }
        ensures in_range { All IsText self.now }
    {
        self.list.as_slice()
    }
}

impl Clone for Texts {
    ghost use Rattle.std.specs.Prelude.{◌≡◌};

    ghost is_clone = { λ x y. y ≡ x };

    fn clone(&self) -> Result<Texts, AllocError> {
        let list = self.list.clone()?;
        Ok(Texts { list })
    }
}
