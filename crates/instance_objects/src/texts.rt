// Texts as they print in an instance.
ghost use Rattle.std.specs.Prelude.{◌≡◌, All, IfOk};
ghost use Rattle.std.specs.String.{string_bytes};
ghost use Rattle.geda_model.specs.Names.{IsLineByte};
ghost use Rattle.instance_objects.specs.Texts.{under};

use geda_model::Line;
use hierarchy::line_of;
use std::alloc::{AllocError, Global};

/// A text as it prints in an instance with this path.
pub fn text_under(alloc: Global, path: &str, text: &str) -> Result<String, AllocError>
    ensures { IfOk result (λ made. string_bytes made ≡ under path.now text.now) }
{
    let mut made = String::new(alloc);
    if !path.is_empty() {
        write!(made, "{path}/")?;
    }
    made.push_str(text)?;
    Ok(made)
}

/// A line as it prints in an instance with this path.
pub fn line_under(alloc: Global, path: &Line, text: &str) -> Result<Line, AllocError>
    requires { All IsLineByte text.now }
    ensures { IfOk result (λ line. line ≡ under path.now text.now) }
{
    let made = text_under(alloc, path.as_str(), text)?;
    line_of(alloc, made.as_str())
}
