// Conductors that touch, and points that are placed.
ghost use Rattle.std.specs.Prelude.{◌≡◌, ◌≤◌, ◌⊎◌, IfOk, unsigned_abs};
ghost use Rattle.geda_geom.specs.Placing.{IsOnSheet, IsPlacement};

use case_tables::{CaseFault, cell};
use geda_geom::{Conductor, Placement, Point, place, touches};
use std::alloc::Global;

fn coordinate(word: Option<&str>) -> Result<i32, CaseFault>
    ensures { IfOk result (λ number. unsigned_abs number ≤ 200000) }
{
    let word = word.ok_or(CaseFault::BadCase)?;
    let Ok(number) = word.parse::<i32>() else {
        return Err(CaseFault::BadCase);
    };
    if number.unsigned_abs() > 200000 {
        return Err(CaseFault::BadCase);
    }
    Ok(number)
}

fn point(x: Option<&str>, y: Option<&str>) -> Result<Point, CaseFault>
    ensures { IfOk result IsOnSheet }
{
    let x = coordinate(x)?;
    let y = coordinate(y)?;
    Ok(Point { x, y })
}

/// A wire `N X1 Y1 X2 Y2`, or the end `E X Y` of a pin.
pub(crate) fn conductor(cell: &str) -> Result<Conductor, CaseFault> {
    let mut words = cell.split_whitespace();
    let letter = words.next().unwrap_or("");
    let a = point(words.next(), words.next())?;
    match letter {
        "N" => {
            let b = point(words.next(), words.next())?;
            Ok(Conductor::Segment { a, b })
        }
        "E" => Ok(Conductor::End { at: a }),
        _ => Err(CaseFault::BadCase),
    }
}

/// Whether two conductors touch, whichever is named first.
pub fn touching(alloc: Global, cells: &[&str]) -> Result<String, CaseFault> {
    let a = conductor(cell(cells, 0))?;
    let b = conductor(cell(cells, 1))?;
    let word = match (touches(&a, &b), touches(&b, &a)) {
        (true, true) => "yes",
        (false, false) => "no",
        _ => "one way",
    };
    Ok(String::from_str(alloc, word)?)
}

fn angle_of(word: Option<&str>) -> Result<u16, CaseFault>
    ensures { IfOk result
        (λ angle. (angle ≡ 0) ⊎ ((angle ≡ 90) ⊎ ((angle ≡ 180) ⊎ (angle ≡ 270)))) }
{
    match word {
        Some("0") => Ok(0),
        Some("90") => Ok(90),
        Some("180") => Ok(180),
        Some("270") => Ok(270),
        _ => Err(CaseFault::BadCase),
    }
}

fn placement(cell: &str) -> Result<Placement, CaseFault>
    ensures { IfOk result IsPlacement }
{
    let mut words = cell.split_whitespace();
    let at = point(words.next(), words.next())?;
    let angle = angle_of(words.next())?;
    let mirror = words.next() == Some("mirrored");
    Ok(Placement {
        x: at.x,
        y: at.y,
        angle,
        mirror,
    })
}

/// Where a point of a symbol stands under a component.
pub fn placing(alloc: Global, cells: &[&str]) -> Result<String, CaseFault> {
    let mut words = cell(cells, 0).split_whitespace();
    let from = point(words.next(), words.next())?;
    let by = placement(cell(cells, 1))?;
    let to = place(from, by);
    Ok(format!(in alloc; "{} {}", to.x, to.y)?)
}
