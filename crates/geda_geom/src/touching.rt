// When two conductors touch.
ghost use Rattle.std.specs.Prelude.{◌↔◌, IsTrue};
ghost use Rattle.geda_geom.specs.Touch.{IsAt, IsBetween, IsInside, IsLevel, IsInsideUpright, IsInsideFlat, IsEnd, SomeEnd, Touch};

use crate::conductor::{Conductor, Point};

fn is_between_across(from: Point, to: Point, point: Point) -> bool
    ensures { IsTrue result ↔ IsBetween from.x to.x point.x }
{
    (from.x < point.x && point.x < to.x) || (to.x < point.x && point.x < from.x)
}

fn is_between_up(from: Point, to: Point, point: Point) -> bool
    ensures { IsTrue result ↔ IsBetween from.y to.y point.y }
{
    (from.y < point.y && point.y < to.y) || (to.y < point.y && point.y < from.y)
}

fn is_upright(from: Point, to: Point, point: Point) -> bool
    ensures { IsTrue result ↔ IsLevel from.x to.x point.x }
{
    point.x == from.x && point.x == to.x
}

fn is_flat(from: Point, to: Point, point: Point) -> bool
    ensures { IsTrue result ↔ IsLevel from.y to.y point.y }
{
    point.y == from.y && point.y == to.y
}

fn is_inside_upright(from: Point, to: Point, point: Point) -> bool
    ensures { IsTrue result ↔ IsInsideUpright from to point }
{
    is_upright(from, to, point) && is_between_up(from, to, point)
}

fn is_inside_flat(from: Point, to: Point, point: Point) -> bool
    ensures { IsTrue result ↔ IsInsideFlat from to point }
{
    is_flat(from, to, point) && is_between_across(from, to, point)
}

#[tactic(auto, using(crate::proofs::Or::or_else))]
fn is_inside(conductor: &Conductor, point: Point) -> bool
    ensures { IsTrue result ↔ IsInside conductor.now point }
{
    match *conductor {
        Conductor::Segment { a, b } => {
            is_inside_upright(a, b, point) || is_inside_flat(a, b, point)
        }
        Conductor::End { .. } => false,
    }
}

fn is_at(point: Point, other: Point) -> bool
    ensures { IsTrue result ↔ IsAt point other }
{
    point.x == other.x && point.y == other.y
}

#[tactic(auto, using(crate::proofs::Or::or_else))]
fn is_end(conductor: &Conductor, point: Point) -> bool
    ensures { IsTrue result ↔ IsEnd conductor.now point }
{
    match *conductor {
        Conductor::Segment { a, b } => is_at(point, a) || is_at(point, b),
        Conductor::End { at } => is_at(point, at),
    }
}

#[tactic(auto, using(crate::proofs::Or::or_else))]
fn has_end_at(conductor: &Conductor, other: &Conductor) -> bool
    ensures { IsTrue result ↔ SomeEnd (IsEnd other.now) conductor.now }
{
    match *conductor {
        Conductor::Segment { a, b } => is_end(other, a) || is_end(other, b),
        Conductor::End { at } => is_end(other, at),
    }
}

#[tactic(auto, using(crate::proofs::Or::or_else))]
fn has_end_inside(conductor: &Conductor, other: &Conductor) -> bool
    ensures { IsTrue result ↔ SomeEnd (IsInside other.now) conductor.now }
{
    match *conductor {
        Conductor::Segment { a, b } => is_inside(other, a) || is_inside(other, b),
        Conductor::End { at } => is_inside(other, at),
    }
}

/// Whether two conductors touch (docs/RULES.md, "Touching"): an end of one is an end of the other,
/// or lies strictly inside the other, which is then a horizontal or vertical segment.
///
/// A segment of length zero is a point. It takes no memory.
#[tactic(auto, using(crate::proofs::Or::or_else))]
pub fn touches(a: &Conductor, b: &Conductor) -> bool
    ensures { IsTrue result ↔ Touch a.now b.now }
{
    has_end_at(a, b) || has_end_inside(a, b) || has_end_inside(b, a)
}
