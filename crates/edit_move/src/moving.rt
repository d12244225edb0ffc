// Moving and turning one object.
ghost use Rattle.std.specs.Prelude.{◌<◌};
ghost use Rattle.geda_model.specs.Ranges.{IsCoordinate};
ghost use Rattle.edit_move.specs.Motions.{IsOffset};
ghost use Rattle.edit_move.specs.Faults.{Moves, moved, turned};

use crate::components::object_after;
use crate::fault::MoveFault;
use crate::kinds::{is_movable, is_turnable};
use crate::motion::Motion;
use geda_geom::Point;
use geda_model::Object;
use std::alloc::Global;

/// The object, moved to the right by `dx` and upwards by `dy` (docs/RULES.md, "Moving and
/// turning"), each -400,000 to 400,000.
///
/// `NotOnKind` exactly where the object is a path, or a component in which a path is embedded.
/// Else `OutOfRange` exactly where a coordinate would leave -200,000 to 200,000.
#[tactic(auto, unfolding(crate::specs::Faults::moved))]
pub fn moved(alloc: Global, object: &Object, dx: i32, dy: i32) -> Result<Object, MoveFault>
    requires dx { IsOffset dx }
    requires dy { IsOffset dy }
    ensures { Moves result (moved dx dy object.now) }
{
    if !is_movable(&object.body) {
        return Err(MoveFault::NotOnKind);
    }
    object_after(alloc, Motion::Shift { dx, dy }, object)
}

/// The object, turned about the point `x`, `y` of the sheet by 0 to 3 right angles
/// counterclockwise, and mirrored before where that is asked (docs/RULES.md, "Moving and turning").
///
/// `NotOnKind` exactly where the object is no line, net, bus or text, and no component without an
/// embedded symbol. Else `OutOfRange` exactly where a coordinate would leave -200,000 to 200,000.
#[tactic(auto, unfolding(crate::specs::Faults::turned))]
pub fn turned(
    alloc: Global,
    object: &Object,
    x: i32,
    y: i32,
    quarter: u8,
    mirror: bool,
) -> Result<Object, MoveFault>
    requires x { IsCoordinate x }
    requires y { IsCoordinate y }
    requires quarter { quarter < 4 }
    ensures { Moves result (turned x y quarter mirror object.now) }
{
    if !is_turnable(&object.body) {
        return Err(MoveFault::NotOnKind);
    }
    let about = Point { x, y };
    let motion = Motion::Turn {
        about,
        quarter,
        mirror,
    };
    object_after(alloc, motion, object)
}
