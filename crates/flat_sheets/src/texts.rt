// Names as they print in an instance.
ghost use Rattle.std.specs.Prelude.{◌≡◌, IfOk, map};
ghost use Rattle.instance_objects.specs.Texts.{under};

use geda_model::{Block, Line};
use instance_objects::text_under;
use std::alloc::{AllocError, Global};

/// Names as they print in an instance with this path.
pub fn names_under(alloc: Global, path: &Line, names: Vec<Block>) -> Result<Vec<Block>, AllocError>
    ensures { IfOk result (λ printed. printed.items ≡ map (under path.now) names.items) }
{
    if path.as_str().is_empty() {
        return Ok(names);
    }
    let mut printed = Vec::new(alloc);
    for name in names {
        let text = text_under(alloc, path.as_str(), name.as_str())?;
        printed.push(Block::from_string(text))?;
    }
    Ok(printed)
}
