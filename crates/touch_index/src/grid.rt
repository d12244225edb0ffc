// A grid of rows and columns, in which each conductor is entered where it runs along a line, and
// else at its ends.
ghost use Rattle.std.specs.Prelude.{◌≡◌, [], OnOk, IfOk};
ghost use Rattle.geda_geom.specs.declared.conductor.Key.{Key};
ghost use Rattle.geda_geom.specs.declared.conductor.Conductor.{Conductor};
ghost use Rattle.touch_index.specs.steps.Spans.{IsKept};
ghost use Rattle.touch_index.specs.steps.Strips.{AreAllProper, FindsOn, HasSpan, KeepsStrips, KeepsOtherKeys};
ghost use Rattle.touch_index.specs.steps.Grid.{lifted, row_point, column_point, between, ends_of, AddsMetAlong, AddsMetIn, Along, Covers, Finds};
ghost use Rattle.touch_index.specs.steps.Drawn.{AddsAlong, AddsMarks, HasNoMarks, IsHeld, IsPlace, LosesAlong, LosesMarks};

use crate::spans::{Span, Wanted};
use crate::strips::Strips;
use geda_geom::{Conductor, Key, Point};
use std::alloc::{AllocError, Global};

/// A point as it lies on a line, among parallel strips.
#[derive(Clone, Copy, Debug)]
pub(crate) struct LinePoint {
    line: u32,
    at: u32,
}

/// How far across a point lies, counted from the least coordinate.
fn across(point: Point) -> u32
    ensures lifted { result ≡ lifted point.x }
    ensures held { IsHeld point.x }
{
    point.x.abs_diff(i32::MIN)
}

/// How far up a point lies, counted from the least coordinate.
fn up(point: Point) -> u32
    ensures lifted { result ≡ lifted point.y }
    ensures held { IsHeld point.y }
{
    point.y.abs_diff(i32::MIN)
}

fn row_point(point: Point) -> LinePoint
    ensures same { result ≡ row_point point }
    ensures place { IsPlace point }
{
    LinePoint {
        line: up(point),
        at: across(point),
    }
}

fn column_point(point: Point) -> LinePoint
    ensures { result ≡ column_point point }
{
    LinePoint {
        line: across(point),
        at: up(point),
    }
}

/// The span from one point of a line to another.
fn between(a: LinePoint, b: LinePoint) -> Span
    ensures { result ≡ between a b }
{
    Span {
        line: a.line,
        from: a.at.min(b.at),
        to: a.at.max(b.at),
    }
}

fn enter_along(strips: &mut Strips, a: LinePoint, b: LinePoint, key: Key) -> Result<(), AllocError>
    ensures entered { OnOk result (Along (λ s. HasSpan strips.new s key) a b) }
    ensures kept { KeepsStrips strips.old strips.new }
    ensures only { AddsAlong a b key strips.old strips.new }
{
    if a.line == b.line {
        return strips.enter(between(a, b), key);
    }
    strips.enter(between(a, a), key)?;
    strips.enter(between(b, b), key)
}

fn leave_along(strips: &mut Strips, a: LinePoint, b: LinePoint, key: Key)
    ensures kept { KeepsOtherKeys key strips.old strips.new }
    ensures only { LosesAlong a b key strips.old strips.new }
{
    if a.line == b.line {
        strips.leave(between(a, b), key);
        return;
    }
    strips.leave(between(a, a), key);
    strips.leave(between(b, b), key);
}

fn push_along(
    strips: &Strips,
    a: LinePoint,
    b: LinePoint,
    wanted: Wanted,
    keys: &mut Vec<Key>,
) -> Result<(), AllocError>
    requires proper { AreAllProper strips.now }
    ensures kept { OnOk result (IsKept keys.old.items keys.new.items) }
    ensures found { OnOk result
        (Along (FindsOn wanted.all strips.now wanted.own keys.new.items) a b) }
    ensures only { OnOk result
        (AddsMetAlong strips.now a b wanted.own keys.old.items keys.new.items) }
{
    if a.line == b.line {
        return strips.push_meeting(between(a, b), wanted, keys);
    }
    strips.push_meeting(between(a, a), wanted, keys)?;
    strips.push_meeting(between(b, b), wanted, keys)
}

/// The two ends of a segment; the end of a pin twice.
fn ends_of(conductor: &Conductor) -> (Point, Point)
    ensures { result ≡ ends_of conductor.now }
{
    match *conductor {
        Conductor::Segment { a, b } => (a, b),
        Conductor::End { at } => (at, at),
    }
}

/// Rows and columns of spans.
#[derive(Drop)]
pub(crate) struct Grid {
    rows: Strips,
    columns: Strips,
}

impl Grid {
    /// A grid without conductors.
    pub fn new(alloc: Global) -> Grid
        ensures { HasNoMarks result }
    {
        Grid {
            rows: Strips::new(alloc),
            columns: Strips::new(alloc),
        }
    }

    /// Enters a conductor under a key. On AllocError a part of it may stand there.
    pub fn enter(&mut self, conductor: &Conductor, key: Key) -> Result<(), AllocError>
        ensures has { OnOk result (Covers self.new conductor.now key) }
        ensures rows { KeepsStrips self.old.rows self.new.rows }
        ensures columns { KeepsStrips self.old.columns self.new.columns }
        ensures only { AddsMarks conductor.now key self.old self.new }
    {
        let (a, b) = ends_of(conductor);
        enter_along(&mut self.rows, row_point(a), row_point(b), key)?;
        enter_along(&mut self.columns, column_point(a), column_point(b), key)
    }

    /// Takes out a conductor under a key. It takes no memory.
    pub fn leave(&mut self, conductor: &Conductor, key: Key)
        ensures rows { KeepsOtherKeys key self.old.rows self.new.rows }
        ensures columns { KeepsOtherKeys key self.old.columns self.new.columns }
        ensures only { LosesMarks conductor.now key self.old self.new }
    {
        let (a, b) = ends_of(conductor);
        leave_along(&mut self.rows, row_point(a), row_point(b), key);
        leave_along(&mut self.columns, column_point(a), column_point(b), key);
    }

    fn push_near(
        &self,
        conductor: &Conductor,
        wanted: Wanted,
        keys: &mut Vec<Key>,
    ) -> Result<(), AllocError>
        requires rows { AreAllProper self.now.rows }
        requires columns { AreAllProper self.now.columns }
        ensures found { OnOk result
            (Finds wanted.all self.now conductor.now wanted.own keys.new.items) }
        ensures only { OnOk result
            (AddsMetIn self.now conductor.now wanted.own keys.old.items keys.new.items) }
    {
        let (a, b) = ends_of(conductor);
        push_along(&self.rows, row_point(a), row_point(b), wanted, keys)?;
        push_along(
            &self.columns,
            column_point(a),
            column_point(b),
            wanted,
            keys,
        )
    }

    /// The wanted keys of the conductors that touch one which stands in the grid under its own key:
    /// what touches it is among them, or touches one of them where not all are wanted. A key may
    /// come more than once.
    pub fn near(
        &self,
        alloc: Global,
        conductor: &Conductor,
        wanted: Wanted,
    ) -> Result<Vec<Key>, AllocError>
        requires rows { AreAllProper self.now.rows }
        requires columns { AreAllProper self.now.columns }
        ensures found { IfOk result
            (λ keys. Finds wanted.all self.now conductor.now wanted.own keys.items) }
        ensures only { IfOk result
            (λ keys. AddsMetIn self.now conductor.now wanted.own [] keys.items) }
    {
        let mut keys = Vec::new(alloc);
        self.push_near(conductor, wanted, &mut keys)?;
        Ok(keys)
    }
}
