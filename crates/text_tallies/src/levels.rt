// How many findings are errors, and how many warnings.
ghost use Rattle.std.specs.Prelude.{◌≡◌, ◌++◌, OnOk};
ghost use Rattle.text_tallies.specs.Levels.{levels_text};

use std::alloc::{AllocError, Global};

/// Adds the last line of a report: how many errors and warnings it has.
pub fn put_levels(
    alloc: Global,
    out: &mut Vec<u8>,
    errors: u128,
    warnings: u128,
) -> Result<(), AllocError>
    ensures { OnOk result (out.new.items ≡ out.old.items ++ levels_text errors warnings) }
{
    let line = format!(in alloc; "errors {errors} warnings {warnings}\n")?;
    out.extend_from_slice(line.as_bytes())
}
