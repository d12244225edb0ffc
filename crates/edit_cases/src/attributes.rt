// Objects that get attributes, and lose them.
ghost use Rattle.std.specs.Prelude.{◌≡◌, ◌++◌, IfOk};
ghost use Rattle.std.specs.String.{string_bytes};
ghost use Rattle.geda_model.specs.Ranges.{IsContent};
ghost use Rattle.edit_attr.specs.Attributes.{attr_line};

use crate::reading::{last_line, object_of};
use case_tables::{CaseFault, cell, text_of};
use edit_attr::{drop_attr, first_point, has_attr, set_attr};
use geda_model::{Object, is_content};
use std::alloc::{AllocError, Global};

fn attr_line(alloc: Global, name: &str, value: &str) -> Result<String, AllocError>
    ensures { IfOk result (λ line. string_bytes line ≡ attr_line name.now value.now) }
{
    format!(in alloc; "{name}={value}")
}

/// An object that gets an attribute.
fn with_attr(alloc: Global, object: &Object, name: &str, value: &str) -> Result<Object, CaseFault> {
    let line = attr_line(alloc, name, value)?;
    if !is_content(line.as_str()) {
        return Err(CaseFault::BadCase);
    }
    Ok(set_attr(alloc, object, name, value)?)
}

/// An object that gets an attribute of a name with a value.
pub fn set(alloc: Global, cells: &[&str]) -> Result<String, CaseFault> {
    let value = text_of(alloc, cell(cells, 2))?;
    let object = object_of(alloc, cell(cells, 0))?;
    let made = with_attr(alloc, &object, cell(cells, 1), value.as_str());
    drop(object);
    last_line(alloc, made?)
}

/// An object that loses its attributes of a name.
pub fn lose(alloc: Global, cells: &[&str]) -> Result<String, CaseFault> {
    let object = object_of(alloc, cell(cells, 0))?;
    let made = drop_attr(alloc, &object, cell(cells, 1));
    drop(object);
    last_line(alloc, made?)
}

/// Whether an object has an attribute of a name.
pub fn has(alloc: Global, cells: &[&str]) -> Result<String, CaseFault> {
    let object = object_of(alloc, cell(cells, 0))?;
    let has = has_attr(&object, cell(cells, 1));
    drop(object);
    Ok(String::from_str(alloc, if has { "yes" } else { "no" })?)
}

/// The first point of an object.
pub fn first(alloc: Global, cells: &[&str]) -> Result<String, CaseFault> {
    let object = object_of(alloc, cell(cells, 0))?;
    let point = first_point(&object);
    drop(object);
    Ok(format!(in alloc; "{} {}", point.x, point.y)?)
}
