// Spans on parallel lines, each under a key, and which of them meet a given one.
ghost use Rattle.std.specs.Prelude.{◌≡◌, ◌≤◌, ◌+◌, ◌↔◌, ◌≢◌, ℕ, [], true, false, Contains, IsTrue, OnOk, MatchOption};
ghost use Rattle.geda_geom.specs.declared.conductor.Key.{Key};
ghost use Rattle.touch_index.specs.declared.spans.Mark.{Mark};
ghost use Rattle.touch_index.specs.steps.Spans.{AddsMark, Holds, KeepsSpans, KeepsOthers, IsKept, LosesMark, mark_of, width_from, width_of};
ghost use Rattle.touch_index.specs.steps.Spanning.{AddsMet, AreProper, HasAllFound, HasFound, IsFirst, IsInTime, IsNext, IsWanted};

use geda_geom::Key;
use std::alloc::{AllocError, Global};
use std::collections::BTreeSet;

/// A stretch of a line, with both of its ends.
#[derive(Clone, Copy, Debug)]
pub(crate) struct Span {
    /// The place of the line among its parallels.
    pub line: u32,
    /// Where it begins on the line.
    pub from: u32,
    /// Where it ends on the line.
    pub to: u32,
}

/// Where a span begins, for spans that are no longer than the width. Of those that begin at one
/// place the longest is the first.
#[derive(Clone, Copy, Debug, PartialEq, Eq, PartialOrd, Ord)]
pub(crate) struct Mark {
    line: u32,
    width: u32,
    // One more than the greatest coordinate is a place, too.
    from: u64,
    // What the line has beyond the span's end.
    beyond: u32,
    key: Key,
}

/// Spans on parallel lines, each under a key. A span of length zero is a point.
///
/// A span is marked where it begins, under one of a few widths that is no less than its length. So
/// those of a width that meet a given span begin at most that width before it.
#[derive(Drop)]
pub(crate) struct SpanSet {
    marks: BTreeSet<Mark>,
    widths: Vec<u32>,
}

/// The first of some widths that is no less than a length.
fn first_width(widths: &[u32], length: u32) -> u32
    ensures same { result ≡ width_from widths.now length }
    ensures long { length ≤ result }
{
    for width in widths {
        if length <= *width {
            return *width;
        }
    }
    u32::MAX
}

/// The least width of a few that is no less than the span's length.
#[tactic(auto, unfolding(crate::specs::steps::Spans::width_of))]
fn width_of(span: Span) -> u32
    ensures same { result ≡ width_of span }
    ensures long { span.to ≤ span.from + result }
{
    let widths = [
        0, 16, 64, 256, 1024, 4096, 16_384, 65_536, 262_144, 1_048_576,
    ];
    first_width(&widths, span.to.saturating_sub(span.from))
}

/// Adds a width that is not known yet.
fn learn(widths: &mut Vec<u32>, width: u32) -> Result<(), AllocError>
    ensures learned { OnOk result (Contains widths.new.items width) }
    ensures kept { (w : ℕ) → Contains widths.old.items w → Contains widths.new.items w }
{
    if !widths.contains(&width) {
        widths.push(width)?;
    }
    Ok(())
}

fn mark_of(span: Span, key: Key) -> Mark
    ensures { result ≡ mark_of span key }
{
    Mark {
        line: span.line,
        width: width_of(span),
        from: u64::from(span.from),
        beyond: u32::MAX - span.to,
        key,
    }
}

/// Which keys are wanted of the spans that meet one.
#[derive(Clone, Copy, Debug)]
pub(crate) struct Wanted {
    /// The key that is not.
    pub own: Key,
    /// Whether all others are, or some that stand for them.
    pub all: bool,
}

/// Whether a mark is of another key, and ends no earlier than the span begins.
fn is_wanted(mark: Mark, span: Span, own: Key) -> bool
    ensures { IsTrue result ↔ IsWanted span own mark }
{
    if mark.key == own {
        return false;
    }
    u32::MAX - mark.beyond >= span.from
}

/// Whether a mark stands on the line of a span under a width, and begins no later than the span
/// ends.
fn is_in_time(mark: Mark, span: Span, width: u32) -> bool
    ensures { IsTrue result ↔ IsInTime span width mark }
{
    if mark.line != span.line {
        return false;
    }
    if mark.width != width {
        return false;
    }
    mark.from <= u64::from(span.to)
}

/// Adds the keys of the spans of one width that meet the span, but for one key.
fn push_all(
    marks: &BTreeSet<Mark>,
    span: Span,
    width: u32,
    own: Key,
    keys: &mut Vec<Key>,
) -> Result<(), AllocError>
    requires { span.from ≤ span.to }
    ensures kept { OnOk result (IsKept keys.old.items keys.new.items) }
    ensures found { OnOk result (HasFound true marks.now span width own keys.new.items) }
    ensures only { OnOk result (AddsMet marks.now span own keys.old.items keys.new.items) }
{
    let none = Key { id: 0, place: 0 };
    let from = u64::from(span.from.saturating_sub(width));
    let first = Mark {
        line: span.line,
        width,
        from,
        beyond: 0,
        key: none,
    };
    for mark in marks.range(first..) {
        if !is_in_time(*mark, span, width) {
            return Ok(());
        }
        if is_wanted(*mark, span, own) {
            keys.push(mark.key)?;
        }
    }
    Ok(())
}

/// A mark of another key among those of one width that begin from a place on, and no later than the
/// span ends: none that meets the span stands before it.
///
/// It passes over a few that end before the span begins, and stops at the next such one, since many
/// may begin at one place.
fn first_other(marks: &BTreeSet<Mark>, span: Span, width: u32, from: u64, own: Key) -> Option<Mark>
    ensures { MatchOption result
        ((m : Mark) → IsNext marks.now span width from own m → IsWanted span own m → ⊥)
        (IsFirst marks.now span width from own) }
{
    let none = Key { id: 0, place: 0 };
    if from > u64::from(span.to) {
        return None;
    }
    let first = Mark {
        line: span.line,
        width,
        from,
        beyond: 0,
        key: none,
    };
    let mut passes: u32 = 8;
    for mark in marks.range(first..) {
        if !is_in_time(*mark, span, width) {
            return None;
        }
        if is_wanted(*mark, span, own) {
            return Some(*mark);
        }
        if mark.key != own {
            if passes == 0 {
                return Some(*mark);
            }
            passes -= 1;
        }
    }
    None
}

/// Adds keys of spans of one width that meet the span, one of which each other such span meets.
///
/// Of the spans that begin at one place it wants the longest alone, and what begins before the end
/// of one that it has added it passes over.
fn push_spanning(
    marks: &BTreeSet<Mark>,
    span: Span,
    width: u32,
    own: Key,
    keys: &mut Vec<Key>,
) -> Result<(), AllocError>
    requires proper { AreProper marks.now span.line }
    ensures kept { OnOk result (IsKept keys.old.items keys.new.items) }
    ensures found { OnOk result (HasFound false marks.now span width own keys.new.items) }
    ensures only { OnOk result (AddsMet marks.now span own keys.old.items keys.new.items) }
{
    let mut from = u64::from(span.from.saturating_sub(width));
    while let Some(mark) = first_other(marks, span, width, from, own) {
        let to = u32::MAX - mark.beyond;
        if to < span.from {
            from = mark.from + 1;
        } else {
            keys.push(mark.key)?;
            from = u64::from(to) + 1;
        }
    }
    Ok(())
}

/// Adds the wanted keys of the spans of one width that meet the span.
fn push_wanted(
    marks: &BTreeSet<Mark>,
    span: Span,
    width: u32,
    wanted: Wanted,
    keys: &mut Vec<Key>,
) -> Result<(), AllocError>
    requires from { span.from ≤ span.to }
    requires proper { AreProper marks.now span.line }
    ensures kept { OnOk result (IsKept keys.old.items keys.new.items) }
    ensures found { OnOk result
        (HasFound wanted.all marks.now span width wanted.own keys.new.items) }
    ensures only { OnOk result
        (AddsMet marks.now span wanted.own keys.old.items keys.new.items) }
{
    if wanted.all {
        return push_all(marks, span, width, wanted.own, keys);
    }
    push_spanning(marks, span, width, wanted.own, keys)
}

impl SpanSet {
    /// A set without spans.
    pub fn new(alloc: Global) -> SpanSet
        ensures empty { result.marks.keys ≡ [] }
    {
        SpanSet {
            marks: BTreeSet::new(alloc),
            widths: Vec::new(alloc),
        }
    }

    /// Enters a span under a key.
    pub fn enter(&mut self, span: Span, key: Key) -> Result<(), AllocError>
        ensures entered { OnOk result (Holds self.new span key) }
        ensures kept { KeepsSpans self.old self.new }
        ensures only { AddsMark (mark_of span key) self.old self.new }
    {
        learn(&mut self.widths, width_of(span))?;
        self.marks.insert(mark_of(span, key))?;
        Ok(())
    }

    /// Whether no spans are left.
    pub fn is_empty(&self) -> bool
        ensures { IsTrue result → self.now.marks.keys ≡ [] }
    {
        self.marks.is_empty()
    }

    /// Takes out a span under a key. It takes no memory.
    pub fn leave(&mut self, span: Span, key: Key)
        ensures kept { KeepsOthers key self.old self.new }
        ensures only { LosesMark (mark_of span key) self.old self.new }
    {
        let mark = mark_of(span, key);
        self.marks.remove(&mark);
    }

    /// Adds the wanted keys of the spans that meet the span: each span of another key that meets it
    /// is one of those, or meets one where not all are wanted.
    pub fn push_meeting(
        &self,
        span: Span,
        wanted: Wanted,
        keys: &mut Vec<Key>,
    ) -> Result<(), AllocError>
        requires from { span.from ≤ span.to }
        requires proper { AreProper self.now.marks span.line }
        ensures kept { OnOk result (IsKept keys.old.items keys.new.items) }
        ensures found { OnOk result
            (HasAllFound wanted.all self.now wanted.own keys.new.items span) }
        ensures only { OnOk result
            (AddsMet self.now.marks span wanted.own keys.old.items keys.new.items) }
    {
        for width in &self.widths {
            push_wanted(&self.marks, span, *width, wanted, keys)?;
        }
        Ok(())
    }
}
