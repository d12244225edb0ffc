// What the cells of a row say.
ghost use Rattle.std.specs.Prelude.{◌≤◌, ◌<◌, IfOk, unsigned_abs};
ghost use Rattle.geda_geom.specs.Placing.{IsOnSheet};

use case_tables::{CaseFault, bytes_of, text_in};
use geda_geom::Point;
use geda_model::Object;
use geda_read::{ReadFault, read_object};
use geda_write::object_text;
use std::alloc::Global;

/// What was read of bytes.
pub fn read<T: Drop>(read: Result<T, ReadFault>) -> Result<T, CaseFault> {
    match read {
        Ok(value) => Ok(value),
        Err(ReadFault::At { .. }) => Err(CaseFault::BadCase),
        Err(ReadFault::NoMemory) => Err(CaseFault::NoMemory),
    }
}

/// The object of a cell.
pub fn object_of(alloc: Global, cell: &str) -> Result<Object, CaseFault> {
    let bytes = bytes_of(alloc, cell)?;
    read(read_object(alloc, bytes.as_slice()))
}

/// The canonical text of an object, without its last line feed.
pub fn object_line(alloc: Global, object: &Object) -> Result<String, CaseFault> {
    let text = object_text(alloc, object)?;
    let text = text.as_slice();
    text_in(alloc, text.strip_suffix(b"\n").unwrap_or(text))
}

/// The same of an object that then goes away.
pub fn last_line(alloc: Global, object: Object) -> Result<String, CaseFault> {
    let line = object_line(alloc, &object);
    drop(object);
    line
}

/// A number that is at most so far from 0.
pub fn whole(word: Option<&str>, most: u32) -> Result<i32, CaseFault>
    ensures { IfOk result (λ number. unsigned_abs number ≤ most) }
{
    let word = word.ok_or(CaseFault::BadCase)?;
    let Ok(number) = word.parse::<i32>() else {
        return Err(CaseFault::BadCase);
    };
    if number.unsigned_abs() > most {
        return Err(CaseFault::BadCase);
    }
    Ok(number)
}

/// A point of the sheet.
pub fn point(x: Option<&str>, y: Option<&str>) -> Result<Point, CaseFault>
    ensures { IfOk result IsOnSheet }
{
    let x = whole(x, 200000)?;
    let y = whole(y, 200000)?;
    Ok(Point { x, y })
}

/// A number of right angles.
pub fn quarter(word: Option<&str>) -> Result<u8, CaseFault>
    ensures { IfOk result (λ quarter. quarter < 4) }
{
    match word {
        Some("0") => Ok(0),
        Some("1") => Ok(1),
        Some("2") => Ok(2),
        Some("3") => Ok(3),
        _ => Err(CaseFault::BadCase),
    }
}
