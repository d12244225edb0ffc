// Where a motion takes points, angles and mirror flags.
ghost use Rattle.std.specs.Prelude.{◌≡◌, IfOk};
ghost use Rattle.geda_geom.specs.Placing.{IsOnSheet};
ghost use Rattle.geda_model.specs.Ranges.{IsAngle};
ghost use Rattle.edit_move.specs.Motions.{IsMotion, component_angle, component_mirror, is_on_sheet, point_after, taken, text_angle};
ghost use Rattle.edit_move.specs.Objects.{ends_after};
ghost use Rattle.edit_move.specs.steps.Walks.{Comes};

use crate::fault::MoveFault;
use geda_geom::{Point, turn};

/// How an object is moved.
#[derive(Clone, Copy, Debug)]
pub(crate) enum Motion {
    /// To the right and upwards, each -400,000 to 400,000.
    Shift {
        dx: i32,
        dy: i32,
    },
    /// About a point of the sheet, by 0 to 3 right angles counterclockwise, and mirrored before.
    Turn {
        about: Point,
        quarter: u8,
        mirror: bool,
    },
}

fn taken(motion: Motion, point: Point) -> Point
    requires motion { IsMotion motion }
    requires point { IsOnSheet point }
    ensures { result ≡ taken motion point }
{
    match motion {
        Motion::Shift { dx, dy } => Point {
            x: point.x + dx,
            y: point.y + dy,
        },
        Motion::Turn {
            about,
            quarter,
            mirror,
        } => turn(point, about, quarter, mirror),
    }
}

fn is_on_sheet(point: Point) -> bool
    ensures { result ≡ is_on_sheet point }
{
    point.x.unsigned_abs() <= 200_000 && point.y.unsigned_abs() <= 200_000
}

/// Where a point comes. `OutOfRange` exactly where it leaves the sheet.
#[tactic(auto, unfolding(crate::specs::Motions::point_after))]
pub(crate) fn point_after(motion: Motion, point: Point) -> Result<Point, MoveFault>
    requires motion { IsMotion motion }
    requires point { IsOnSheet point }
    ensures comes { Comes result (point_after motion point) }
    ensures on_sheet { IfOk result IsOnSheet }
{
    let point = taken(motion, point);
    if !is_on_sheet(point) {
        return Err(MoveFault::OutOfRange);
    }
    Ok(point)
}

/// Where both ends of a line come.
#[tactic(auto, unfolding(crate::specs::Objects::ends_after))]
pub(crate) fn ends_after(
    motion: Motion,
    from: Point,
    to: Point,
) -> Result<(Point, Point), MoveFault>
    requires motion { IsMotion motion }
    requires from { IsOnSheet from }
    requires to { IsOnSheet to }
    ensures comes { Comes result (ends_after motion from to) }
    ensures on_sheet { IfOk result (λ ends. IsOnSheet ends.0 × IsOnSheet ends.1) }
{
    let first = point_after(motion, from)?;
    let second = point_after(motion, to)?;
    Ok((first, second))
}

/// The angle of a text afterwards.
pub(crate) fn text_angle(motion: Motion, angle: u16) -> u16
    requires motion { IsMotion motion }
    requires angle { IsAngle angle }
    ensures same { result ≡ text_angle motion angle }
    ensures angle { IsAngle result }
{
    match motion {
        Motion::Shift { .. } => angle,
        Motion::Turn { quarter, .. } => (angle + 90 * u16::from(quarter)) % 360,
    }
}

/// The angle of a component afterwards.
pub(crate) fn component_angle(motion: Motion, angle: u16) -> u16
    requires motion { IsMotion motion }
    requires angle { IsAngle angle }
    ensures same { result ≡ component_angle motion angle }
    ensures angle { IsAngle result }
{
    match motion {
        Motion::Turn {
            quarter,
            mirror: true,
            ..
        } => (90 * u16::from(quarter) + (360 - angle)) % 360,
        _ => text_angle(motion, angle),
    }
}

/// The mirror flag of a component afterwards.
pub(crate) fn component_mirror(motion: Motion, flag: bool) -> bool
    ensures { result ≡ component_mirror motion flag }
{
    match motion {
        Motion::Turn { mirror: true, .. } => !flag,
        _ => flag,
    }
}
