// Objects and points that are moved and turned.
ghost use Rattle.std.specs.Prelude.{◌<◌, IfOk};
ghost use Rattle.geda_geom.specs.Placing.{IsOnSheet};

use crate::reading::{last_line, object_of, point, quarter, whole};
use case_tables::{CaseFault, cell};
use edit_move::{MoveFault, moved, turned};
use geda_geom::{Point, turn};
use geda_model::Object;
use std::alloc::Global;

/// The object that came of one, or the name of the fault.
fn told(alloc: Global, made: Result<Object, MoveFault>) -> Result<String, CaseFault> {
    match made {
        Ok(object) => last_line(alloc, object),
        Err(MoveFault::NoMemory) => Err(CaseFault::NoMemory),
        Err(fault) => Ok(format!(in alloc; "{fault:?}")?),
    }
}

/// An object that is moved `DX DY`.
pub fn move_object(alloc: Global, cells: &[&str]) -> Result<String, CaseFault> {
    let mut words = cell(cells, 1).split_whitespace();
    let dx = whole(words.next(), 400000)?;
    let dy = whole(words.next(), 400000)?;
    let object = object_of(alloc, cell(cells, 0))?;
    let made = moved(alloc, &object, dx, dy);
    drop(object);
    told(alloc, made)
}

/// A turn `X Y QUARTER`, behind which stands `mirrored` where it mirrors before.
fn turn_of(cell: &str) -> Result<(Point, u8, bool), CaseFault>
    ensures { IfOk result (λ turn. IsOnSheet turn.0 × (turn.1 < 4)) }
{
    let mut words = cell.split_whitespace();
    let about = point(words.next(), words.next())?;
    let quarter = quarter(words.next())?;
    let mirror = words.next() == Some("mirrored");
    Ok((about, quarter, mirror))
}

/// An object that is turned.
pub fn turn_object(alloc: Global, cells: &[&str]) -> Result<String, CaseFault> {
    let (Point { x, y }, quarter, mirror) = turn_of(cell(cells, 1))?;
    let object = object_of(alloc, cell(cells, 0))?;
    let made = turned(alloc, &object, x, y, quarter, mirror);
    drop(object);
    told(alloc, made)
}

/// A point that is turned.
pub fn turn_point(alloc: Global, cells: &[&str]) -> Result<String, CaseFault> {
    let mut words = cell(cells, 0).split_whitespace();
    let from = point(words.next(), words.next())?;
    let (about, quarter, mirror) = turn_of(cell(cells, 1))?;
    let to = turn(from, about, quarter, mirror);
    Ok(format!(in alloc; "{} {}", to.x, to.y)?)
}
