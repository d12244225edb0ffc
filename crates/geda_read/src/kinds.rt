// Why a line is refused where it stands.
ghost use Rattle.std.specs.Prelude.{◌≡◌};
ghost use Rattle.geda_model.specs.Limits.{most_objects};
ghost use Rattle.geda_text.specs.Lines.{fields_of, first_field};
ghost use Rattle.geda_grammar.specs.Letters.{is_attribute, is_object, is_version};
ghost use Rattle.geda_read.specs.steps.Levels.{mode_of};
ghost use Rattle.geda_read.specs.steps.Files.{admits_by};
ghost use Rattle.sheet_lines.specs.Pending.{pending_of};
ghost use Rattle.geda_read.specs.steps.Rows.{is_symbol_file};
ghost use Rattle.geda_read.specs.steps.Expecting.{has_room, is_stray_by, level_expects, line_kind, place_expects, place_kind, rows_expect, version_kind};

use crate::objects::OpenObjects;
use crate::parts::OpenParts;
use crate::place::OpenSheet;
use crate::rows::{FileMode, OpenRows};
use crate::tail::Tail;
use geda_grammar::{Letter, ReadKind};
use geda_model::MOST_OBJECTS;
use geda_text::{fields, text_of};
use sheet_lines::Pending;

/// What may come next.
#[derive(Clone, Copy)]
pub struct Expected {
    /// One more object would be one too many.
    pub full: bool,
    /// A shape that is no text.
    pub shape: bool,
    /// A text.
    pub text: bool,
    /// `{`
    pub open_block: bool,
    /// `}`
    pub close_block: bool,
    /// `[`
    pub open_symbol: bool,
    /// `]`
    pub close_symbol: bool,
}

fn level_expects(tail: Tail, room: bool) -> Expected
    ensures { result ≡ level_expects (mode_of tail) room }
{
    let in_block = tail.is_open();
    Expected {
        full: !in_block && !room,
        shape: !in_block && room,
        text: in_block || room,
        open_block: tail.is_bare(),
        close_block: in_block,
        open_symbol: false,
        close_symbol: false,
    }
}

fn objects_expect(objects: &OpenObjects, most: usize) -> Expected
    ensures { result ≡ level_expects objects.now.mode
        (has_room most objects.now.kept objects.now.mode) }
{
    let room = objects.items.as_slice().len() < most;
    level_expects(objects.tail, room)
}

fn parts_expect(parts: &OpenParts) -> Expected
    ensures { result ≡ level_expects parts.now.mode
        (has_room most_objects parts.now.kept parts.now.mode) }
{
    let room = parts.items.as_slice().len() < MOST_OBJECTS;
    level_expects(parts.tail, room)
}

fn sheet_expects(sheet: &OpenSheet, most: usize) -> Expected
    ensures { result ≡ place_expects most sheet.now }
{
    let Some(symbol) = &sheet.symbol else {
        return objects_expect(&sheet.objects, most);
    };
    match &symbol.parts {
        None => Expected {
            full: false,
            shape: false,
            text: false,
            open_block: false,
            close_block: false,
            open_symbol: true,
            close_symbol: false,
        },
        Some(parts) => {
            let expected = parts_expect(parts);
            Expected {
                close_symbol: !expected.close_block,
                ..expected
            }
        }
    }
}

fn is_object(letter: Option<Letter>) -> bool
    ensures { result ≡ is_object letter }
{
    match letter {
        None => false,
        Some(Letter::OpenBlock | Letter::CloseBlock | Letter::OpenSymbol | Letter::CloseSymbol) => {
            false
        }
        Some(_) => true,
    }
}

fn is_attribute(letter: Option<Letter>) -> bool
    ensures { result ≡ is_attribute letter }
{
    matches!(letter, Some(Letter::Text | Letter::CloseBlock))
}

/// The first field of a line, or nothing where it has none. It takes no memory.
pub fn first_field(line: &[u8]) -> &[u8]
    ensures { result.now ≡ first_field (fields_of line.now) }
{
    match fields(line).next() {
        Some(field) => field,
        None => &[],
    }
}

/// Whether a field is `v`. It takes no memory.
pub fn is_version(field: &[u8]) -> bool
    ensures { result ≡ is_version field.now }
{
    matches!(field, [b'v'])
}

/// Why a first line is no version line. It takes no memory.
#[tactic(auto, unfolding(crate::specs::steps::Expecting::version_kind))]
pub fn version_kind(line: &[u8]) -> ReadKind
    ensures { result ≡ version_kind line.now }
{
    if text_of(line).is_none() {
        ReadKind::NotUtf8
    } else if is_version(first_field(line)) {
        ReadKind::BadFormat
    } else {
        ReadKind::NoVersion
    }
}

impl Expected {
    /// What may come behind what is there. It takes no memory.
    #[tactic(auto, unfolding(crate::specs::steps::Expecting::rows_expect))]
    pub fn behind(rows: &OpenRows, mode: FileMode) -> Expected
        ensures { result ≡ rows_expect mode rows.now }
    {
        match rows {
            OpenRows::Sheet(sheet) => sheet_expects(sheet, mode.most()),
            OpenRows::Symbol(parts) => parts_expect(parts),
        }
    }

    fn is_stray(self, letter: Option<Letter>) -> bool
        ensures { result ≡ is_stray_by self letter }
    {
        match letter {
            Some(Letter::OpenBlock) => !self.open_block,
            Some(Letter::CloseBlock) => !self.close_block,
            Some(Letter::OpenSymbol) => !self.open_symbol,
            Some(Letter::CloseSymbol) => !self.close_symbol,
            _ => false,
        }
    }

    #[tactic(auto, unfolding(crate::specs::steps::Expecting::place_kind))]
    fn place_kind(self, in_symbol: bool, letter: Option<Letter>, kind: ReadKind) -> ReadKind
        ensures { result ≡ place_kind in_symbol self letter kind }
    {
        if self.close_block && !is_attribute(letter) {
            return ReadKind::NotAttribute;
        }
        if self.is_stray(letter) {
            return ReadKind::StrayBracket;
        }
        if self.open_symbol && !matches!(letter, Some(Letter::OpenSymbol)) {
            return ReadKind::StrayBracket;
        }
        if letter.is_none() {
            return ReadKind::UnknownLetter;
        }
        if in_symbol && matches!(letter, Some(Letter::Component)) {
            return ReadKind::Nested;
        }
        kind
    }

    /// Whether a shape whose lines follow may come. It takes no memory.
    #[tactic(auto, unfolding(crate::specs::steps::Files::admits_by))]
    pub fn admits(self, pending: &Pending) -> bool
        ensures { result ≡ admits_by self (pending_of pending.now) }
    {
        if matches!(pending, Pending::Text(_, _)) {
            self.text
        } else {
            self.shape
        }
    }

    /// Why a line that may not come is refused, in a file of this mode; `kind` is the kind of its
    /// first wrong field, if it has one. It takes no memory.
    #[tactic(auto, unfolding(crate::specs::steps::Expecting::line_kind))]
    pub fn line_kind(self, mode: FileMode, line: &[u8], kind: ReadKind) -> ReadKind
        ensures { result ≡ line_kind (is_symbol_file mode) self line.now kind }
    {
        let letter = Letter::from_field(first_field(line));
        if self.full && is_object(letter) {
            return ReadKind::TooLarge;
        }
        if text_of(line).is_none() {
            return ReadKind::NotUtf8;
        }
        self.place_kind(mode.is_symbol() || self.close_symbol, letter, kind)
    }
}
