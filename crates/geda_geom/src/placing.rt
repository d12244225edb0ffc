// Points of library symbols on the sheet, and points that are turned about another one.
ghost use Rattle.std.specs.Prelude.{◌≡◌, ◌<◌};
ghost use Rattle.geda_geom.specs.Placing.{IsOnSheet, IsPlacement, IsStep, mirrored, placed, seen_from, shifted, turned, turned_about};

use crate::conductor::Point;

/// How a component stands on its sheet.
#[derive(Clone, Copy, Debug, PartialEq, Eq)]
pub struct Placement {
    /// Across, in mils.
    pub x: i32,
    /// Up, in mils.
    pub y: i32,
    /// In degrees counterclockwise: 0, 90, 180 or 270.
    pub angle: u16,
    /// Whether it is mirrored.
    pub mirror: bool,
}

fn mirrored(point: Point, by: Placement) -> Point
    requires step { IsStep point }
    ensures same { result ≡ mirrored by.mirror point }
    ensures step { IsStep result }
{
    if by.mirror {
        return Point {
            x: -point.x,
            y: point.y,
        };
    }
    point
}

fn turned(point: Point, by: Placement) -> Point
    requires step { IsStep point }
    ensures same { result ≡ turned by.angle point }
    ensures step { IsStep result }
{
    match by.angle {
        0 => point,
        90 => Point {
            x: -point.y,
            y: point.x,
        },
        180 => Point {
            x: -point.x,
            y: -point.y,
        },
        _ => Point {
            x: point.y,
            y: -point.x,
        },
    }
}

fn shifted(point: Point, by: Placement) -> Point
    requires point { IsStep point }
    requires by { IsStep (record { x = by.x; y = by.y }) }
    ensures { result ≡ shifted by point }
{
    Point {
        x: by.x + point.x,
        y: by.y + point.y,
    }
}

fn placed(point: Point, by: Placement) -> Point
    requires point { IsStep point }
    requires by { IsStep (record { x = by.x; y = by.y }) }
    ensures { result ≡ placed point by }
{
    shifted(turned(mirrored(point, by), by), by)
}

/// Where a point of a library symbol stands under a component (docs/RULES.md, "Placing"): mirrored
/// where the component is, so that x becomes -x, then turned counterclockwise by its angle, then
/// shifted to its place.
///
/// Each coordinate is -200,000 to 200,000, those of the answer -400,000 to 400,000. It takes no
/// memory.
pub fn place(point: Point, by: Placement) -> Point
    requires point { IsOnSheet point }
    requires by { IsPlacement by }
    ensures { result ≡ placed point by }
{
    placed(point, by)
}

fn seen_from(about: Point, point: Point) -> Point
    requires about { IsOnSheet about }
    requires point { IsOnSheet point }
    ensures same { result ≡ seen_from about point }
    ensures step { IsStep result }
{
    Point {
        x: point.x - about.x,
        y: point.y - about.y,
    }
}

/// Where a point comes when it is turned about another one (docs/RULES.md, "Moving and turning"):
/// mirrored where that is asked, so that it comes to the other side of the upright line through
/// that one, then turned by so many right angles counterclockwise, 0 to 3.
///
/// Each coordinate is -200,000 to 200,000, those of the answer -600,000 to 600,000. It takes no
/// memory.
pub fn turn(point: Point, about: Point, quarter: u8, mirror: bool) -> Point
    requires point { IsOnSheet point }
    requires about { IsOnSheet about }
    requires quarter { quarter < 4 }
    ensures { result ≡ turned_about point about quarter mirror }
{
    let by = Placement {
        x: about.x,
        y: about.y,
        angle: 90 * u16::from(quarter),
        mirror,
    };
    placed(seen_from(about, point), by)
}
