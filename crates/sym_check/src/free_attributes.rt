// The attributes that stand free in a symbol.
ghost use Rattle.std.specs.Prelude.{◌≡◌, IfOk, codes, option_copied};
ghost use Rattle.attr_rules.specs.Components.{is_value};
ghost use Rattle.attr_rules.specs.steps.PartValues.{value_in_part};
ghost use Rattle.sym_check.specs.FreeAttributes.{free_value, free_values};

use attr_rules::first_value;
use geda_model::{Block, Part, Shape};
use std::alloc::{AllocError, Global};
use std::slice;

/// The value of a part that is a free text and an attribute of a name.
#[tactic(auto, using(crate::proofs::ListLemmas::first_of_one))]
fn value_in_part<'a>(part: &'a Part, name: &str) -> Option<&'a str>
    ensures { option_copied result ≡ value_in_part name.now part.now }
{
    match &part.shape {
        Shape::Text(text) => first_value(slice::from_ref(text), name),
        _ => None,
    }
}

/// The value of the first free attribute of a name. It takes no memory.
#[tactic(auto, using(attr_rules::proofs::Picks::values_in_parts))]
pub fn free_value<'a>(parts: &'a [Part], name: &str) -> Option<&'a str>
    ensures { option_copied result ≡ free_value name.now parts.now }
{
    for part in parts {
        if let Some(value) = value_in_part(part, name) {
            return Some(value);
        }
    }
    None
}

/// The values of all free attributes of a name, in file order.
#[tactic(auto, using(attr_rules::proofs::Picks::values_in_parts))]
pub fn free_values(alloc: Global, parts: &[Part], name: &str) -> Result<Vec<Block>, AllocError>
    ensures { IfOk result (λ values. values.items ≡ free_values name.now parts.now) }
{
    let mut values = Vec::new(alloc);
    for part in parts {
        if let Some(value) = value_in_part(part, name) {
            values.push(Block::new(alloc, value)?)?;
        }
    }
    Ok(values)
}

/// Whether the first free `graphical` has the value 1. It takes no memory.
pub fn is_graphical(parts: &[Part]) -> bool
    ensures { result ≡ is_value (codes "1") (free_value (codes "graphical") parts.now) }
{
    match free_value(parts, "graphical") {
        Some(value) => value == "1",
        None => false,
    }
}

/// A value that may be there, by itself.
pub fn copy_of(alloc: Global, value: Option<&str>) -> Result<Option<Block>, AllocError>
    ensures { IfOk result (λ copy. copy ≡ option_copied value.entry) }
{
    match value {
        Some(value) => Ok(Some(Block::new(alloc, value)?)),
        None => Ok(None),
    }
}
