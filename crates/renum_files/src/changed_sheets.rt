// The sheets in which a change puts objects.
ghost use Rattle.std.specs.Prelude.{◌≡◌, IfOk};
ghost use Rattle.renum_files.specs.RenumberedFiles.{changed_sheets, sheet_of_item};

use geda_model::Name;
use project_model::{Thing, Value};
use std::alloc::{AllocError, Global};
use std::collections::BTreeSet;

/// The sheet in which an item puts an object, if it puts one.
fn sheet_of_item(item: &(Thing, Option<Value>)) -> Result<Option<Name>, AllocError>
    ensures { IfOk result (λ name. name ≡ sheet_of_item item.now) }
{
    match &item.1 {
        Some(Value::Object(placed)) => Ok(Some(placed.sheet.clone()?)),
        _ => Ok(None),
    }
}

/// The sheets in which a change puts objects, by name.
pub(crate) fn changed_sheets(
    alloc: Global,
    items: &[(Thing, Option<Value>)],
) -> Result<BTreeSet<Name>, AllocError>
    ensures { IfOk result (λ names. names.keys ≡ changed_sheets items.now) }
{
    let mut names = BTreeSet::new(alloc);
    for item in items {
        if let Some(name) = sheet_of_item(item)? {
            names.insert(name)?;
        }
    }
    Ok(names)
}
